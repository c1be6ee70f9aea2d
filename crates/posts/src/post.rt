// A post of the ring and its steps, each by value: it gives the new post and what it does. Settings are the ring's, so each step is lent
// them. Assumes nothing.
ghost use Rattle.std.specs.Prelude.{◌≡◌, suc, ◌≤◌, min, MatchOption, OnOk};
ghost use Rattle.posts.specs.Steps.{seated, has_token, deeds_in, frame_of, tick_step, hear_step, with_button, quiet, event_of, step_at};
ghost use Rattle.posts.specs.Promise.{Tidied, Refreshed, CountsStay, Reaches, SendsWithin, MovesAfter, Waits, SameForEver};
ghost use Rattle.posts.specs.Code.{PostLaws};
ghost use Rattle.posts.specs.CountsText.{counts_of};

use crate::rule::in_range;
use crate::seat::Seat;
use crate::{Act, Counts, Deeds, Memory, Told};
use frames::{Fault, Settings, read_frame, write_frame};

#[derive(Clone, Copy, PartialEq, Eq, Debug)]
pub struct Post {
    place: u8,
    pub memory: Memory,
    // whether its button is down
    pub button: bool,
}

impl Post {
    // The post at `place`, with its button up; refused where the ring has no such place.
    pub fn new(place: u8, memory: Memory, settings: &Settings) -> Result<Post, Fault>
        ensures value { result ≡ seated settings.now place memory }
        ensures code { OnOk result (PostLaws settings.now place) }
    {
        if place >= settings.posts {
            return Err(Fault::OutOfRange);
        }
        Ok(Post {
            place,
            memory,
            button: false,
        })
    }

    pub fn place(self) -> u8
        ensures { result ≡ self.place }
    {
        self.place
    }

    pub fn counts(self) -> Counts
        ensures { result ≡ counts_of self }
    {
        Counts {
            post: self.place,
            moves: self.memory.moves,
            since: self.memory.since,
        }
    }

    // Where it stands in the ring of these settings.
    fn seat(self, settings: &Settings) -> Seat
        ensures { result ≡ record { k = settings.now.k; place = self.place } }
    {
        Seat {
            k: settings.k,
            place: self.place,
        }
    }

    // Whether it has the token.
    pub fn may_move(self, settings: &Settings) -> bool
        ensures { result ≡ has_token settings.now self }
    {
        self.memory.may_move(self.seat(settings))
    }

    // What it would do in a tick.
    pub fn deeds(self, settings: &Settings) -> Deeds
        ensures { result ≡ deeds_in settings.now self }
    {
        self.memory.deeds(self.seat(settings), self.button)
    }

    // The frame that it sends, which the post after it hears.
    pub fn frame(self, settings: &Settings) -> [u8; 6]
        ensures value { result ≡ frame_of settings.now self }
        ensures reaches { Reaches settings.now self result }
    {
        write_frame(self.place, in_range(self.memory.number, settings.k))
    }

    // A tick of its clock.
    pub fn tick(self, settings: &Settings) -> (Post, Act)
        ensures value { result ≡ tick_step settings.now self }
        ensures tidied { Tidied settings.now.k self.place self.memory result.0.memory }
        ensures counts { CountsStay self.memory result.0.memory result.1.moves }
    {
        let deeds = self.deeds(settings);
        let memory = self.memory.tick(self.seat(settings), deeds);
        let post = Post { memory, ..self };
        let act = Act {
            speaks: deeds.speaks,
            moves: deeds.moves,
            sends: deeds.sends.then(|| post.frame(settings)),
            refuses: None,
        };
        (post, act)
    }

    // Bytes come to it: it hears a frame of the post before, and refuses anything else.
    pub fn hear(self, bytes: &[u8], settings: &Settings) -> (Post, Act)
        ensures value { result ≡ hear_step settings.now bytes.now self }
        ensures refreshed { MatchOption result.1.refuses (Refreshed settings.now.k self.place self.memory result.0.memory) (λ _. result.0 ≡ self) }
        ensures again { hear_step settings.now bytes.now result.0 ≡ result }
    {
        match read_frame(bytes, settings, self.place) {
            Ok(number) => {
                let ticks = settings.turn(self.place).unwrap_or(0);
                let memory = self.memory.hear(self.seat(settings), number, ticks);
                (Post { memory, ..self }, Act::default())
            }
            Err(fault) => (self, Act::refusing(fault)),
        }
    }

    // Its button goes down or up.
    pub fn press(self, down: bool) -> (Post, Act)
        ensures { result ≡ (with_button down self, quiet) }
    {
        let post = Post {
            button: down,
            ..self
        };
        (post, Act::default())
    }

    // What it does with what it is told, which is one of a closed list. Its counts change nothing of it, now or later.
    pub fn step(self, told: Told<'_>, settings: &Settings) -> (Post, Act)
        ensures value { result ≡ step_at settings.now (event_of told.entry) self }
        ensures counts { SameForEver settings.now self }
    {
        match told {
            Told::Tick => self.tick(settings),
            Told::Frame(bytes) => self.hear(bytes, settings),
            Told::ButtonDown => self.press(true),
            Told::ButtonUp => self.press(false),
        }
    }

    // In how many ticks it sends at the latest.
    pub fn ticks_to_sending(self) -> u16
        ensures value { result ≡ suc (min self.memory.wait 3) }
        ensures bound { result ≤ 4 }
        ensures sends { SendsWithin result self }
    {
        self.memory.wait.min(3) + 1
    }

    // For how many ticks it speaks before the one in which it moves, if it hears nothing and its button stays; `None` where it doesn't have the token.
    pub fn ticks_to_moving(self, settings: &Settings) -> Option<u16>
        ensures { MatchOption result (Waits settings.now self) (λ n. (n ≤ 1000) × MovesAfter settings.now self n) }
    {
        self.may_move(settings)
            .then(|| self.memory.turn.time(self.button))
    }
}
