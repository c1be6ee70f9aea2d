// Scripts for two posts with K = 6 and turns of 0 and 2 ticks: what is left in the numbers, what is said, and the tally.
use frames::*;
use posts::*;
use ring::*;
use std::alloc::Global;
use std::test::Fail;

fn two_posts() -> Result<Settings, Fault> {
    read_settings(&[2, 2, 0, 6, 0, 0, 0, 2])
}

// Plays a script from the beginning, and leaves the numbers of all members.
fn played(heap: Global, script: &[u8], numbers: &mut [u16; 6]) -> Result<Report, Fail> {
    let settings = two_posts()?;
    let mut posts = first_posts(heap, &settings)?;
    let mut lines = first_lines(heap, &settings)?;
    Ok(play(heap, &settings, script, numbers, &mut posts, &mut lines)?)
}

// A script, and after it the numbers of all members and the tally.
struct Row {
    script: &'static [u8],
    numbers: [u16; 6],
    tally: Tally,
}

const ROWS: [Row; 8] = [
    // nothing
    Row {
        script: b"",
        numbers: [0, 0, 0, 0, 0, 0],
        tally: Tally {
            holders: 1,
            moves: 0,
            healed: Some(0),
        },
    },
    // post 0 moves and sends, post 1 hears, moves and sends
    Row {
        script: b"03 00 01\n03 01 02\n03 01 01\n",
        numbers: [1, 1, 1, 1, 1, 0],
        tally: Tally {
            holders: 1,
            moves: 5,
            healed: Some(0),
        },
    },
    // a lost frame isn't heard
    Row {
        script: b"03 00 01\n03 00 03\n03 01 02\n",
        numbers: [1, 1, 0, 0, 0, 0],
        tally: Tally {
            holders: 1,
            moves: 2,
            healed: Some(0),
        },
    },
    // four ticks later it is sent again
    Row {
        script: b"03 00 01\n03 00 03\n03 00 01\n03 00 01\n03 00 01\n03 00 01\n03 01 02\n",
        numbers: [1, 1, 1, 0, 0, 0],
        tally: Tally {
            holders: 1,
            moves: 3,
            healed: Some(0),
        },
    },
    // a frame that is heard again changes nothing
    Row {
        script: b"03 00 01\n03 01 02\n03 01 02\n03 01 02",
        numbers: [1, 1, 1, 0, 0, 0],
        tally: Tally {
            holders: 1,
            moves: 3,
            healed: Some(0),
        },
    },
    // a frame with a wrong sum: counting begins anew, and nobody hears it
    Row {
        script: b"03 00 01\n03 01 02\n03 01 01\n03 00 05 01 00 00 03 c2 18\n03 01 02\n",
        numbers: [1, 3, 1, 1, 1, 0],
        tally: Tally {
            holders: 3,
            moves: 0,
            healed: None,
        },
    },
    // a memory of nonsense
    Row {
        script: b"03 01 04 ff ff 00 03 ff ff ff ff ff ff ff ff ff ff ff ff\n",
        numbers: [0, 0, 3, 0, 0, 0],
        tally: Tally {
            holders: 3,
            moves: 0,
            healed: None,
        },
    },
    // from which the ring heals by the fourth move
    Row {
        script: b"03 01 04 ff ff 00 03 ff ff ff ff ff ff ff ff ff ff ff ff\n03 01 01\n03 01 02\n03 00 02\n",
        numbers: [0, 0, 0, 3, 3, 3],
        tally: Tally {
            holders: 1,
            moves: 4,
            healed: Some(4),
        },
    },
];

#[test]
fn numbers_and_tally(rt: HostRuntime) -> Result<(), Fail> {
    for row in ROWS.iter() {
        let mut numbers = [7; 6];
        let report = played(rt.alloc(), row.script, &mut numbers)?;
        assert_eq!(rt; numbers, row.numbers);
        assert_eq!(rt; report.tally, row.tally);
    }
    Ok(())
}

// Post 1 has a turn of two ticks: shows before it, after it, and after the move; then lines that are refused.
const SPEAKING: &[u8] =
    b"03 01 06\n03 00 01\n03 01 02\n03 01 08\n03 01 01\n03 01 01\n03 01 08\n03 01 01\n03 01 08\n03 02 01\nzz\n\n03 00 09 # unknown\n03 01\n";

// A show of post 1.
fn shown(moves: u32, since: u32) -> Said {
    Said::Shown(Counts {
        post: 1,
        moves,
        since,
    })
}

// A line that was refused.
fn refused(line: u64, fault: Fault) -> Said {
    Said::Refused { line, fault }
}

#[test]
fn shows_and_refused_lines(rt: HostRuntime) -> Result<(), Fail> {
    let mut numbers = [7; 6];
    let report = played(rt.alloc(), SPEAKING, &mut numbers)?;
    let said = [
        shown(0, 0),
        shown(0, 2),
        shown(1, 0),
        refused(10, Fault::OutOfRange),
        refused(11, Fault::Malformed),
        refused(13, Fault::Malformed),
        refused(14, Fault::Malformed),
    ];
    assert_eq!(rt; report.said.as_slice(), said.as_slice());
    assert_eq!(rt;
        report.numbers.as_slice(),
        [1, 1, 1, 0, 0, 0, 1, 1, 1, 0, 0, 0, 1, 1, 1, 1, 1, 0].as_slice()
    );
    assert_eq!(rt;
        report.speakers.as_slice(),
        [false, true, false, false, false, false].as_slice()
    );
    Ok(())
}

#[test]
fn slices_that_do_not_fit(rt: HostRuntime) -> Result<(), Fail> {
    let heap = rt.alloc();
    let settings = two_posts()?;
    let mut posts = first_posts(heap, &settings)?;
    let mut lines = first_lines(heap, &settings)?;
    let mut numbers = [7; 5];
    let answer = play(
        heap,
        &settings,
        b"03 00 01\n",
        &mut numbers,
        &mut posts,
        &mut lines,
    );
    assert!(rt; matches!(answer, Err(PlayError::Unfit)));
    assert_eq!(rt; numbers, [7; 5]);
    let mut numbers = [7; 6];
    posts.reverse();
    let answer = play(
        heap,
        &settings,
        b"03 00 01\n",
        &mut numbers,
        &mut posts,
        &mut lines,
    );
    assert!(rt; matches!(answer, Err(PlayError::Unfit)));
    assert_eq!(rt; numbers, [7; 6]);
    Ok(())
}

#[test]
fn a_ring_begins_with_zeros(rt: HostRuntime) -> Result<(), Fail> {
    let settings = two_posts()?;
    let posts = first_posts(rt.alloc(), &settings)?;
    let places = [0, 1];
    assert_eq!(rt; posts.len(), places.len());
    for (post, place) in posts.iter().zip(places) {
        assert_eq!(rt; post.place(), place);
        assert_eq!(rt; post.memory.to_bytes(), [0; 16]);
        assert!(rt; !post.button);
    }
    let lines = first_lines(rt.alloc(), &settings)?;
    let frames = [[1, 0, 0, 0, 0xf2, 0x74], [1, 1, 0, 0, 0xc5, 0x44]];
    assert_eq!(rt; lines.len(), frames.len());
    for (line, frame) in lines.iter().zip(frames) {
        assert_eq!(rt; *line, Line { frame, lost: false });
    }
    Ok(())
}
