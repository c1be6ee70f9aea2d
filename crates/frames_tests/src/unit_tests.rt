// Checksums, frames, orders, places and their text on examples. Assumes nothing.
use commands::*;
use frames::Fault::{Malformed, NumberTooLarge, OutOfRange, WrongSender, WrongSum};
use frames::*;
use std::test::Fail;
use sums::shift;

// Two posts, and numbers below 6.
const SETTINGS: [u8; 8] = [2, 2, 0, 6, 0, 0, 0, 0];

#[test]
fn checksums_are_those_of_the_field(rt: HostRuntime) {
    let cases: [(&[u8], u16); 3] = [
        (&[1, 0, 0, 0], 62_068),
        (b"123456789", 0x29b1),
        (b"", 65_535),
    ];
    for (bytes, sum) in cases {
        assert_eq!(rt; checksum(bytes), sum);
    }
    assert_eq!(rt;
        write_frame(1, 5).as_slice(),
        b"\x01\x01\x00\x05\x95\xe1".as_slice()
    );
}

#[test]
fn a_checksum_is_made_bit_by_bit(rt: HostRuntime) {
    let cases: [(&[u8], u16); 3] = [
        (b"\x01\x00\x00\x00", 62_068),
        (b"123456789", 0x29b1),
        (b"\xff\x7f\x80\x01\xaa", 0xc1f3),
    ];
    for (text, sum) in cases {
        let mut register = 0xffff;
        for byte in text {
            register ^= u16::from_be_bytes([*byte, 0]);
            for _ in 0..8 {
                register = shift(register);
            }
        }
        assert_eq!(rt; register, sum);
        assert_eq!(rt; checksum(text), sum);
    }
}

// Frames on a line, the listener, and the fault, if there is one.
const FRAMES: [(&[u8], u8, Option<Fault>); 38] = [
    (b"01 01 00 00 c5 44", 0, None),
    (b"01 01 00 05 95 e1", 0, None),
    (b"01 00 00 05 a2 d1", 1, None),
    (b"01 01 00 00 c5 44", 2, None),
    (b"00 01 00 00 b3 f0", 0, Some(Malformed)),
    (b"02 01 00 00 5e 98", 0, Some(Malformed)),
    (b"03 01 00 00 28 2c", 0, Some(Malformed)),
    (b"", 0, Some(Malformed)),
    (b"01", 0, Some(Malformed)),
    (b"01 01", 0, Some(Malformed)),
    (b"01 01 00", 0, Some(Malformed)),
    (b"01 01 00 00", 0, Some(Malformed)),
    (b"01 01 00 00 c5", 0, Some(Malformed)),
    (b"01 01 00 00 c5 44 00", 0, Some(Malformed)),
    (b"01 02 00 00 9c 14", 0, Some(OutOfRange)),
    (b"01 ff 00 00 3d 17", 0, Some(OutOfRange)),
    (b"01 02 00 00 9c 14", 3, Some(OutOfRange)),
    (b"01 01 00 00 c5 45", 0, Some(WrongSum)),
    (b"01 01 00 00 45 44", 0, Some(WrongSum)),
    (b"01 01 00 01 c5 44", 0, Some(WrongSum)),
    (b"01 00 00 00 f2 74", 0, Some(WrongSender)),
    (b"01 01 00 00 c5 44", 1, Some(WrongSender)),
    (b"01 01 00 00 c5 44", 3, Some(WrongSender)),
    (b"01 01 00 06 a5 82", 0, Some(NumberTooLarge)),
    (b"01 01 00 07 b5 a3", 0, Some(NumberTooLarge)),
    (b"01 01 ff ff d8 4b", 0, Some(NumberTooLarge)),
    (b"02 02 00 00 07 c8", 0, Some(Malformed)),
    (b"02", 0, Some(Malformed)),
    (b"01 02", 0, Some(OutOfRange)),
    (b"01 02 00 06 fc d2", 0, Some(OutOfRange)),
    (b"01 00", 0, Some(WrongSender)),
    (b"01 00 00 06 92 b2", 0, Some(WrongSender)),
    (b"01 01 00 06", 0, Some(NumberTooLarge)),
    (b"01 01 00 06 00 00", 0, Some(NumberTooLarge)),
    (b"01 01 00 00 00 00 00", 0, Some(WrongSum)),
    (b"01 01 00 zz", 0, Some(Malformed)),
    (b"01 01 00 06 z", 0, Some(NumberTooLarge)),
    (b"01 01 00 00 c5 44 #\r", 0, None),
];

#[test]
fn frames_are_refused_at_the_first_fault(rt: HostRuntime) -> Result<(), Fail> {
    let settings = read_settings(&SETTINGS)?;
    let mut bytes = Vec::new(rt.alloc());
    for (text, listener, fault) in FRAMES {
        let ending = read_line(text, &mut bytes)?;
        let answer = ending.settle(read_frame(&bytes, &settings, listener));
        assert_eq!(rt; answer.err(), fault);
    }
    assert_eq!(rt; read_frame(&write_frame(1, 5), &settings, 0)?, 5);
    Ok(())
}

// Orders on a line, and the fault, if there is one.
const ORDERS: [(&[u8], Option<Fault>); 36] = [
    (b"03 01 01", None),
    (b"03 00 08", None),
    (b"03 01 04 000102030405060708090a0b0c0d0e0f", None),
    (b"03 01 05 000102030405", None),
    (b"01 01 01", Some(Malformed)),
    (b"02 01 01", Some(Malformed)),
    (b"", Some(Malformed)),
    (b"03", Some(Malformed)),
    (b"03 01", Some(Malformed)),
    (b"03 01 01 00", Some(Malformed)),
    (b"03 01 02 00", Some(Malformed)),
    (b"03 01 03 00", Some(Malformed)),
    (b"03 01 06 00", Some(Malformed)),
    (b"03 01 07 00", Some(Malformed)),
    (b"03 01 08 00", Some(Malformed)),
    (b"03 01 04", Some(Malformed)),
    (b"03 01 04 00", Some(Malformed)),
    (b"03 01 04 000102030405", Some(Malformed)),
    (b"03 01 04 000102030405060708090a0b0c0d0e", Some(Malformed)),
    (
        b"03 01 04 000102030405060708090a0b0c0d0e0f00",
        Some(Malformed),
    ),
    (b"03 01 05", Some(Malformed)),
    (b"03 01 05 0001020304", Some(Malformed)),
    (b"03 01 05 00010203040500", Some(Malformed)),
    (
        b"03 01 05 000102030405060708090a0b0c0d0e0f",
        Some(Malformed),
    ),
    (b"03 02 01", Some(OutOfRange)),
    (b"03 ff 01", Some(OutOfRange)),
    (b"03 01 00", Some(Malformed)),
    (b"03 01 09", Some(Malformed)),
    (b"03 01 ff", Some(Malformed)),
    (b"02 02", Some(Malformed)),
    (b"03 02", Some(OutOfRange)),
    (b"03 02 09", Some(OutOfRange)),
    (b"03 05 zz", Some(OutOfRange)),
    (b"zz 05", Some(Malformed)),
    (b"03 01 01 zz", Some(Malformed)),
    (b"03 01 0", Some(Malformed)),
];

#[test]
fn orders_are_refused_at_the_first_fault(rt: HostRuntime) -> Result<(), Fail> {
    let settings = read_settings(&SETTINGS)?;
    let mut bytes = Vec::new(rt.alloc());
    for (text, fault) in ORDERS {
        let ending = read_line(text, &mut bytes)?;
        let answer = ending.settle(read_order(&bytes, &settings));
        assert_eq!(rt; answer.err(), fault);
    }
    Ok(())
}

#[test]
fn orders_say_what_is_to_be_done(rt: HostRuntime) -> Result<(), Fail> {
    let settings = read_settings(&SETTINGS)?;
    let memory = [1, 2, 3, 4, 5, 6, 7, 8, 9, 10, 11, 12, 13, 14, 15, 16];
    let cases: [(&[u8], Order); 8] = [
        (&[3, 1, 1], Order::Tick),
        (&[3, 1, 2], Order::Hear),
        (&[3, 1, 3], Order::Lose),
        (
            &[
                3, 1, 4, 1, 2, 3, 4, 5, 6, 7, 8, 9, 10, 11, 12, 13, 14, 15, 16,
            ],
            Order::Memory(memory),
        ),
        (
            &[3, 1, 5, 1, 2, 3, 4, 5, 6],
            Order::Frame([1, 2, 3, 4, 5, 6]),
        ),
        (&[3, 1, 6], Order::ButtonDown),
        (&[3, 1, 7], Order::ButtonUp),
        (&[3, 1, 8], Order::Show),
    ];
    for (bytes, order) in cases {
        assert_eq!(rt; read_order(bytes, &settings)?, Command { post: 1, order });
    }
    Ok(())
}

// Places, and the fault, if there is one.
const PLACES: [(&[u8], Option<Fault>); 6] = [
    (&[0], None),
    (&[1], None),
    (&[2], Some(OutOfRange)),
    (&[255, 0], Some(OutOfRange)),
    (&[], Some(Malformed)),
    (&[1, 0], Some(Malformed)),
];

// Orders to the post at place 1, and the fault, if there is one.
const POST_ORDERS: [(&[u8], Option<Fault>); 16] = [
    (&[3, 1, 1], None),
    (&[3, 1, 2], Some(Malformed)),
    (&[3, 1, 4], Some(Malformed)),
    (&[3, 1, 5], Some(Malformed)),
    (&[3, 1, 6], None),
    (&[3, 1, 7], None),
    (&[3, 1, 8], None),
    (&[3, 1, 9], Some(Malformed)),
    (&[3, 0, 1], Some(OutOfRange)),
    (&[3, 2, 9], Some(OutOfRange)),
    (&[3, 2], Some(OutOfRange)),
    (&[1, 1, 1], Some(Malformed)),
    (&[], Some(Malformed)),
    (&[3], Some(Malformed)),
    (&[3, 1], Some(Malformed)),
    (&[3, 1, 1, 0], Some(Malformed)),
];

#[test]
fn places_and_orders_to_one_post_are_read(rt: HostRuntime) -> Result<(), Fail> {
    let settings = read_settings(&SETTINGS)?;
    for (bytes, fault) in PLACES {
        assert_eq!(rt; read_place(bytes, &settings).err(), fault);
    }
    for (bytes, fault) in POST_ORDERS {
        assert_eq!(rt; read_post_order(bytes, 1).err(), fault);
    }
    assert_eq!(rt; read_post_order(&[3, 1, 7], 1)?, PostOrder::ButtonUp);
    Ok(())
}

#[test]
fn bytes_are_written_in_lower_case(rt: HostRuntime) -> Result<(), Fail> {
    let cases: [(&[u8], &str); 3] = [
        (b"", ""),
        (b"\x0a", "0a"),
        (b"\x01\x00\xff\x9c\xf2\x74", "01 00 ff 9c f2 74"),
    ];
    let mut text = String::new(rt.alloc());
    for (bytes, expected) in cases {
        write_line(bytes, &mut text)?;
        assert_eq!(rt; text.as_str(), expected);
    }
    Ok(())
}

// Places in the ring, and the names of the members there.
const MEMBERS: [(usize, Member, &str); 6] = [
    (0, Member::Post(0), "post 0"),
    (1, Member::Frame(0), "frame 0"),
    (2, Member::End(0), "end 0"),
    (3, Member::Post(1), "post 1"),
    (61, Member::Frame(20), "frame 20"),
    (62, Member::End(20), "end 20"),
];

#[test]
fn members_are_named_by_their_places(rt: HostRuntime) -> Result<(), Fail> {
    for (place, member, name) in MEMBERS {
        assert_eq!(rt; Member::from(place), member);
        assert_eq!(rt; member.place(), Some(place));
        assert_eq!(rt; member.to_string(rt.alloc())?.as_str(), name);
    }
    Ok(())
}

// Members at the end of what a number can say, and their places, if those can be said.
const FAR_MEMBERS: [(Member, Option<usize>); 6] = [
    (
        Member::End(6_148_914_691_236_517_204),
        Some(18_446_744_073_709_551_614),
    ),
    (
        Member::Post(6_148_914_691_236_517_205),
        Some(18_446_744_073_709_551_615),
    ),
    (Member::Frame(6_148_914_691_236_517_205), None),
    (Member::End(6_148_914_691_236_517_205), None),
    (Member::Post(6_148_914_691_236_517_206), None),
    (Member::End(usize::MAX), None),
];

#[test]
fn members_have_places_up_to_the_largest(rt: HostRuntime) {
    for (member, place) in FAR_MEMBERS {
        assert_eq!(rt; member.place(), place);
    }
}
