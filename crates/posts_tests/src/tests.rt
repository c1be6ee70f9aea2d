// Posts with any content in their memory, a turn of one post step by step, and the bytes of a memory.
use frames::{Fault, Settings, read_settings};
use posts::*;
use std::test::Fail;
use turns::Turn;

// Two posts, K = 64, turns of 3 and 2 ticks.
const TWO_POSTS: [u8; 8] = [2, 2, 0, 64, 0, 3, 0, 2];

// Number, number heard, turn and ticks to sending before and after a tick, and what is done in it.
struct Row {
    place: u8,
    button: bool,
    before: [u16; 4],
    after: [u16; 4],
    deeds: Deeds,
}

const NOTHING: Deeds = Deeds {
    speaks: false,
    moves: false,
    sends: false,
};

const SPEAKS: Deeds = Deeds {
    speaks: true,
    ..NOTHING
};

const SENDS: Deeds = Deeds {
    sends: true,
    ..NOTHING
};

const SPEAKS_AND_SENDS: Deeds = Deeds {
    speaks: true,
    ..SENDS
};

const MOVES: Deeds = Deeds {
    moves: true,
    ..SENDS
};

const ROWS: [Row; 8] = [
    Row {
        place: 0,
        button: false,
        before: [65_535, 65_535, 0, 1],
        after: [1, 0, 0, 3],
        deeds: MOVES,
    },
    Row {
        place: 0,
        button: false,
        before: [63, 63, 0, 3],
        after: [0, 63, 0, 3],
        deeds: MOVES,
    },
    Row {
        place: 0,
        button: true,
        before: [5, 5, 1001, 3],
        after: [6, 5, 0, 3],
        deeds: MOVES,
    },
    Row {
        place: 0,
        button: true,
        before: [5, 5, 1000, 3],
        after: [5, 5, 999, 2],
        deeds: SPEAKS,
    },
    Row {
        place: 0,
        button: false,
        before: [5, 5, 7, 3],
        after: [6, 5, 0, 3],
        deeds: MOVES,
    },
    Row {
        place: 0,
        button: true,
        before: [5, 6, 1001, 65_535],
        after: [5, 6, 1001, 2],
        deeds: NOTHING,
    },
    Row {
        place: 1,
        button: true,
        before: [64, 70, 9, 0],
        after: [0, 0, 9, 3],
        deeds: SENDS,
    },
    Row {
        place: 1,
        button: true,
        before: [0, 7, 1, 0],
        after: [0, 7, 0, 3],
        deeds: SPEAKS_AND_SENDS,
    },
];

fn remembered([number, heard, left, wait]: [u16; 4], moves: u32, since: u32) -> Memory {
    Memory {
        number,
        heard,
        turn: Turn { left },
        wait,
        moves,
        since,
    }
}

#[test]
fn ticks_from_any_content(rt: HostRuntime) -> Result<(), Fail> {
    let settings = read_settings(&TWO_POSTS)?;
    for row in &ROWS {
        let top = u32::MAX;
        let mut post = Post::new(row.place, remembered(row.before, top, top), &settings)?;
        post.button = row.button;
        let (after, act) = post.tick(&settings);
        let since = if row.deeds.moves { 0 } else { top };
        assert_eq!(rt; after.memory, remembered(row.after, top, since));
        let deeds = Deeds {
            speaks: act.speaks,
            moves: act.moves,
            sends: act.sends.is_some(),
        };
        assert_eq!(rt; deeds, row.deeds);
    }
    Ok(())
}

#[test]
fn a_turn_step_by_step(rt: HostRuntime) -> Result<(), Fail> {
    let settings = read_settings(&TWO_POSTS)?;
    let mut post = Post::new(1, remembered([0; 4], 0, 0), &settings)?;
    let quiet = Act {
        speaks: false,
        moves: false,
        sends: None,
        refuses: None,
    };
    assert_eq!(rt; Act::default(), quiet);
    let speaks = Act {
        speaks: true,
        ..quiet
    };
    let sends = |frame: [u8; 6], moves: bool| Act {
        moves,
        sends: Some(frame),
        ..quiet
    };
    let refuses = |fault: Fault| Act {
        refuses: Some(fault),
        ..quiet
    };
    let steps = [
        (Told::Tick, sends([1, 1, 0, 0, 197, 68], false)),
        (Told::Frame(&[1, 0, 0, 7, 130, 147]), quiet),
        (Told::ButtonDown, quiet),
        (Told::Tick, speaks),
        (Told::Tick, speaks),
        (Told::Frame(&[1, 0, 0, 7, 130, 147]), quiet),
        (Told::Tick, sends([1, 1, 0, 7, 181, 163], true)),
        (Told::Tick, quiet),
        (
            Told::Frame(&[1, 0, 0, 8, 130, 147]),
            refuses(Fault::WrongSum),
        ),
        (
            Told::Frame(&[1, 1, 0, 7, 181, 163]),
            refuses(Fault::WrongSender),
        ),
        (Told::ButtonUp, quiet),
        (Told::Tick, quiet),
        (Told::Tick, quiet),
        (Told::Tick, sends([1, 1, 0, 7, 181, 163], false)),
    ];
    for (told, act) in steps {
        let (after, done) = post.step(told, &settings);
        assert_eq!(rt; done, act);
        post = after;
    }
    assert_eq!(rt; post.memory, remembered([7, 7, 0, 3], 1, 4));
    Ok(())
}

#[test]
fn places_and_bytes(rt: HostRuntime) -> Result<(), Fail> {
    let settings = read_settings(&TWO_POSTS)?;
    let bytes = [1, 2, 3, 4, 5, 6, 7, 8, 9, 10, 11, 12, 255, 255, 255, 255];
    let memory = remembered([258, 772, 1286, 1800], 151_653_132, 4_294_967_295);
    assert_eq!(rt; Memory::from_bytes(bytes), memory);
    assert_eq!(rt; memory.to_bytes(), bytes);
    assert_eq!(rt; Post::new(2, memory, &settings), Err(Fault::OutOfRange));
    let mut post = Post::new(1, remembered([0, 7, 1000, 2], 0, 0), &settings)?;
    assert_eq!(rt; post.ticks_to_sending(), 3);
    assert_eq!(rt; post.ticks_to_moving(&settings), Some(0));
    post.button = true;
    assert_eq!(rt; post.ticks_to_moving(&settings), Some(1000));
    Ok(())
}

#[test]
fn counts_are_shown(rt: HostRuntime) -> Result<(), Fail> {
    let settings = read_settings(&TWO_POSTS)?;
    let post = Post::new(1, remembered([0; 4], 4_294_967_295, 7), &settings)?;
    let counts = post.counts();
    let text = format!(in rt.alloc(); "{counts}")?;
    assert_eq!(rt;
        text.as_str(),
        "post 1: 4294967295 goings on, 7 ticks since"
    );
    Ok(())
}
