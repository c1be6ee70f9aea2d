// The rule of faults, the text of lines, settings and numbers on examples. Assumes nothing.
use frames::Fault::{Malformed, NumberTooLarge, OutOfRange, WrongSender, WrongSum};
use frames::*;
use inputs::{Stop, Units};
use lines::{Unit, first_line, read_first_line, read_three, read_word};
use std::alloc::AllocError;
use std::io::BufReader;
use std::test::Fail;

fn settings_on(text: &[u8], bytes: &mut Vec<u8>) -> Result<Result<Settings, Fault>, AllocError> {
    let ending = read_line(text, bytes)?;
    Ok(ending.settle(read_settings(bytes)))
}

// Settings on a line, and the fault, if there is one.
const SETTINGS: [(&[u8], Option<Fault>); 32] = [
    (b"02 02 00 06 00 00 00 00", None),
    (b"02 02 ff FF 03 e8 03 E8 # the largest K and turns", None),
    (
        b"0215003f000000000000000000000000000000000000000000000000000000000000000000000000000000000000",
        None,
    ),
    (
        b"0215003e000000000000000000000000000000000000000000000000000000000000000000000000000000000000",
        Some(OutOfRange),
    ),
    (
        b"0215003f0000000000000000000000000000000000000000000000000000000000000000000000000000000003e9",
        Some(OutOfRange),
    ),
    (b"02 00 00 00", Some(OutOfRange)),
    (b"02 01 00 03 00 00", Some(OutOfRange)),
    (b"02 16 00 42", Some(OutOfRange)),
    (b"02 ff ff ff", Some(OutOfRange)),
    (b"02 02 00 05 00 00 00 00", Some(OutOfRange)),
    (b"02 02 00 06 03 e8 03 e9", Some(OutOfRange)),
    (b"02 02 00 06 03 e9 03 e8", Some(OutOfRange)),
    (b"01 02 00 06 00 00 00 00", Some(Malformed)),
    (b"03 02 00 06 00 00 00 00", Some(Malformed)),
    (b"", Some(Malformed)),
    (b"02", Some(Malformed)),
    (b"02 02", Some(Malformed)),
    (b"02 02 00", Some(Malformed)),
    (b"02 02 00 06", Some(Malformed)),
    (b"02 02 00 06 00 00 00", Some(Malformed)),
    (b"02 02 00 06 00 00 00 00 00", Some(Malformed)),
    (b"01 16", Some(Malformed)),
    (b"02 16", Some(OutOfRange)),
    (b"02 02 00 05", Some(OutOfRange)),
    (b"02 02 00 06 00 00 03 e9 00", Some(OutOfRange)),
    (b"02 16 zz", Some(OutOfRange)),
    (b"zz 02", Some(Malformed)),
    (b"02 02 zz", Some(Malformed)),
    (b"02 02 00 zz", Some(Malformed)),
    (b"02 02 00 05 zz", Some(OutOfRange)),
    (b"02 02 00 06 03 e9 z", Some(OutOfRange)),
    (b"02 02 00 06 00 00 00 00 0", Some(Malformed)),
];

#[test]
fn settings_are_refused_at_the_first_fault(rt: HostRuntime) -> Result<(), Fail> {
    let mut bytes = Vec::new(rt.alloc());
    for (text, fault) in SETTINGS {
        assert_eq!(rt; settings_on(text, &mut bytes)?.err(), fault);
    }
    Ok(())
}

#[test]
fn settings_say_members_and_turns(rt: HostRuntime) -> Result<(), Fail> {
    let settings = read_settings(&[2, 2, 1, 0, 0, 5, 3, 232])?;
    assert_eq!(rt; settings.k, 256);
    assert_eq!(rt; settings.members(), 6);
    assert_eq!(rt; settings.turn(0), Some(5));
    assert_eq!(rt; settings.turn(1), Some(1000));
    assert_eq!(rt; settings.turn(2), None);
    Ok(())
}

// Lines, their bytes and how they end.
const LINES: [(&[u8], &[u8], Ending); 18] = [
    (b"", b"", Ending::Whole),
    (b" \t ", b"", Ending::Whole),
    (b"\r", b"", Ending::Whole),
    (b"# 01 zz\r\r", b"", Ending::Whole),
    (b"0aF0\t99 # x", b"\x0a\xf0\x99", Ending::Whole),
    (b"01 \r", b"\x01", Ending::Whole),
    (b"01\r", b"\x01", Ending::Whole),
    (b"01\r 02", b"\x01", Ending::Damaged),
    (b"01 \r\r", b"\x01", Ending::Damaged),
    (b"0", b"", Ending::Damaged),
    (b"0 1", b"", Ending::Damaged),
    (b"01 2", b"\x01", Ending::Damaged),
    (b"01 2\r", b"\x01", Ending::Damaged),
    (b"01 2# x", b"\x01", Ending::Damaged),
    (b"01 g2 03", b"\x01", Ending::Damaged),
    (b"zz", b"", Ending::Damaged),
    (b"01/02", b"\x01", Ending::Damaged),
    (b"01\n", b"\x01", Ending::Damaged),
];

#[test]
fn lines_are_read_to_the_first_stray_character(rt: HostRuntime) -> Result<(), Fail> {
    let mut bytes = Vec::new(rt.alloc());
    for (text, expected, ending) in LINES {
        assert_eq!(rt; read_line(text, &mut bytes)?, ending);
        assert_eq!(rt; bytes.as_slice(), expected);
        assert_eq!(rt;
            Unit {
                bytes: &bytes,
                ending
            }
            .is_blank(),
            ending == Ending::Whole && expected.is_empty()
        );
    }
    Ok(())
}

// Texts: the bytes of the first line, how it ends, and the text after it.
const TEXTS: [(&[u8], &[u8], Ending, &[u8]); 24] = [
    (b"", b"", Ending::Whole, b""),
    (b" \t ", b"", Ending::Whole, b""),
    (b"\r", b"", Ending::Whole, b""),
    (b"# 01 zz\r\r", b"", Ending::Whole, b""),
    (b"0aF0\t99 # x", b"\x0a\xf0\x99", Ending::Whole, b""),
    (b"01 \r", b"\x01", Ending::Whole, b""),
    (b"01\r", b"\x01", Ending::Whole, b""),
    (b"01\r 02", b"\x01", Ending::Damaged, b""),
    (b"01 \r\r", b"\x01", Ending::Damaged, b""),
    (b"0", b"", Ending::Damaged, b""),
    (b"0 1", b"", Ending::Damaged, b""),
    (b"01 2", b"\x01", Ending::Damaged, b""),
    (b"01 2\r", b"\x01", Ending::Damaged, b""),
    (b"01 2# x", b"\x01", Ending::Damaged, b""),
    (b"01 g2 03", b"\x01", Ending::Damaged, b""),
    (b"zz", b"", Ending::Damaged, b""),
    (b"01/02", b"\x01", Ending::Damaged, b""),
    (b"01\n", b"\x01", Ending::Whole, b""),
    (b"\n\n01", b"", Ending::Whole, b"\n01"),
    (b"01\r\n02\n", b"\x01", Ending::Whole, b"02\n"),
    (b"01\r\r\n02", b"\x01", Ending::Damaged, b"02"),
    (b"01 # x\n02", b"\x01", Ending::Whole, b"02"),
    (b"0\n1", b"", Ending::Damaged, b"1"),
    (b"zz 01\r\n\n", b"", Ending::Damaged, b"\n"),
];

#[test]
fn first_lines_are_read_to_the_first_stray_character(rt: HostRuntime) -> Result<(), Fail> {
    let mut bytes = Vec::new(rt.alloc());
    for (text, expected, ending, rest) in TEXTS {
        let (read, after) = read_first_line(text, &mut bytes)?;
        assert_eq!(rt; read, ending);
        assert_eq!(rt; after, rest);
        assert_eq!(rt; bytes.as_slice(), expected);
        assert_eq!(rt;
            Unit {
                bytes: &bytes,
                ending
            }
            .is_blank(),
            ending == Ending::Whole && expected.is_empty()
        );
    }
    Ok(())
}

// Texts, their first line, and the text after its newline.
const PARTED: [(&[u8], &[u8], &[u8]); 6] = [
    (b"", b"", b""),
    (b"01", b"01", b""),
    (b"\n", b"", b""),
    (b"01\n", b"01", b""),
    (b"01 \r\n02", b"01 \r", b"02"),
    (b"\n\n01", b"", b"\n01"),
];

#[test]
fn a_text_is_parted_at_its_first_newline(rt: HostRuntime) {
    for (text, line, rest) in PARTED {
        let (front, after) = first_line(text);
        assert_eq!(rt; front, line);
        assert_eq!(rt; after, rest);
    }
}

#[test]
fn lines_that_hold_nothing_are_passed_over(rt: HostRuntime) -> Result<(), Fail> {
    let text = b"# first\n\r\n01 02\n \n03 zz".as_slice();
    let mut units = Units::new(rt.alloc(), BufReader::new(rt.alloc(), text)?);
    assert_eq!(rt; units.next_unit()?, Some(Ending::Whole));
    assert_eq!(rt; units.unit(Ending::Whole).bytes, b"\x01\x02".as_slice());
    assert_eq!(rt; units.lines, 3);
    assert_eq!(rt; units.next_unit()?, Some(Ending::Damaged));
    assert_eq!(rt; units.unit(Ending::Damaged).bytes, b"\x03".as_slice());
    assert_eq!(rt; units.lines, 5);
    assert_eq!(rt; units.next_unit()?, None);
    Ok(())
}

#[test]
fn a_unit_that_has_to_come_is_malformed_where_none_comes(rt: HostRuntime) -> Result<(), Fail> {
    let text = b"\n01\n".as_slice();
    let mut units = Units::new(rt.alloc(), BufReader::new(rt.alloc(), text)?);
    assert_eq!(rt; units.required()?, Ending::Whole);
    assert_eq!(rt; units.unit(Ending::Whole).bytes, b"\x01".as_slice());
    assert_eq!(rt; units.lines, 2);
    assert!(rt; matches!(units.required(), Err(Stop::Refused(Malformed))));
    Ok(())
}

// Texts, and the bytes of the first line where it is three of them, with one blank between and a newline; otherwise none.
const THREES: [(&[u8], Option<[u8; 3]>); 16] = [
    (b"03 05 01\n", Some([0x03, 0x05, 0x01])),
    (b"fF 0a A0\n03 05 01\n", Some([0xff, 0x0a, 0xa0])),
    (b"00 90 09\nzz", Some([0x00, 0x90, 0x09])),
    (b"", None),
    (b"03 05 01", None),
    (b"03 05 01 \n", None),
    (b"03 05 01\r\n", None),
    (b"03 05 01#\n", None),
    (b"03 05 01 02\n", None),
    (b"03\t05 01\n", None),
    (b"03 05\n01\n", None),
    (b"030501\n00", None),
    (b"g3 05 01\n", None),
    (b"03 0g 01\n", None),
    (b"03 05 0 \n", None),
    (b" 3 05 01\n", None),
];

#[test]
fn three_bytes_are_read_where_nothing_else_is_on_the_line(rt: HostRuntime) {
    for (text, expected) in THREES {
        assert_eq!(rt; read_three(text), expected);
    }
}

#[test]
fn a_number_is_two_bytes_the_high_one_first(rt: HostRuntime) -> Result<(), Fail> {
    let (number, rest) = read_word(&[1, 2, 7, 8, 9])?;
    assert_eq!(rt; number, 258);
    assert_eq!(rt; rest, [7, 8, 9].as_slice());
    let (number, rest) = read_word(&[0xff, 0xfe])?;
    assert_eq!(rt; number, 65_534);
    assert!(rt; rest.is_empty());
    assert_eq!(rt; read_word(&[1]).err(), Some(Malformed));
    assert_eq!(rt; read_word(&[]).err(), Some(Malformed));
    Ok(())
}

// The fault for which a list of numbers on a line that ended so is refused, if it is.
fn refused(
    answer: Result<Vec<u16>, ReadError>,
    ending: Ending,
) -> Result<Option<Fault>, ReadError> {
    match ending.settle_read(answer) {
        Ok(_) => Ok(None),
        Err(ReadError::Refused(fault)) => Ok(Some(fault)),
        Err(ReadError::Memory) => Err(ReadError::Memory),
    }
}

// Numbers of two posts with K = 6, and the fault on a whole line and on a damaged one, if there is one.
const NUMBERS: [(&[u8], Option<Fault>, Option<Fault>); 8] = [
    (&[0, 0, 0, 1, 0, 2, 0, 3, 0, 4, 0, 5], None, Some(Malformed)),
    (
        &[0, 6, 0, 0, 0, 0, 0, 0, 0, 0, 0, 0],
        Some(NumberTooLarge),
        Some(NumberTooLarge),
    ),
    (
        &[0, 0, 0, 0, 0, 0, 0, 0, 0, 0, 1, 0],
        Some(NumberTooLarge),
        Some(NumberTooLarge),
    ),
    (
        &[0, 0, 0, 1, 0, 2, 0, 3, 0, 4, 0],
        Some(Malformed),
        Some(Malformed),
    ),
    (
        &[0, 0, 0, 1, 0, 2, 0, 3, 0, 4, 0, 5, 0],
        Some(Malformed),
        Some(Malformed),
    ),
    (&[], Some(Malformed), Some(Malformed)),
    (&[0, 0, 0, 6, 0], Some(NumberTooLarge), Some(NumberTooLarge)),
    (
        &[0, 0, 0, 1, 0, 2, 0, 3, 0, 4, 0, 6, 0],
        Some(NumberTooLarge),
        Some(NumberTooLarge),
    ),
];

#[test]
fn numbers_are_refused_at_the_first_fault(rt: HostRuntime) -> Result<(), Fail> {
    let heap = rt.alloc();
    let settings = read_settings(&[2, 2, 0, 6, 0, 0, 0, 0])?;
    let numbers = read_numbers(heap, &[0, 0, 0, 1, 0, 2, 0, 3, 0, 4, 0, 5], &settings)?;
    assert_eq!(rt; numbers.as_slice(), [0, 1, 2, 3, 4, 5].as_slice());
    for (bytes, whole, damaged) in NUMBERS {
        assert_eq!(rt;
            refused(read_numbers(heap, bytes, &settings), Ending::Whole)?,
            whole
        );
        assert_eq!(rt;
            refused(read_numbers(heap, bytes, &settings), Ending::Damaged)?,
            damaged
        );
    }
    Ok(())
}

#[test]
fn faults_have_numbers(rt: HostRuntime) -> Result<(), Fail> {
    for (fault, number) in [
        (Malformed, 1),
        (OutOfRange, 2),
        (WrongSum, 3),
        (WrongSender, 4),
        (NumberTooLarge, 5),
    ] {
        assert_eq!(rt; fault.number(), number);
    }
    let text = Fault::WrongSender.to_string(rt.alloc())?;
    assert_eq!(rt; text.as_str(), "fault 4");
    Ok(())
}
