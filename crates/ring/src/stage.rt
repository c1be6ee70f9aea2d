// All posts and lines of a ring over lent slices, and what happens to them, with the numbers and the tally kept in step. Assumes nothing.
ghost use Rattle.std.specs.Prelude.{◌≡◌, ◌+◌, ◌^◌, ◌<◌, true, false, if◌then◌else◌};
ghost use Rattle.ring.specs.Disturbances.{frame_becomes, memory_becomes};
ghost use Rattle.ring.specs.Lent.{Becomes, KeptInStep, stage_in};
ghost use Rattle.ring.specs.Machine.{hear, lose, press, release, tick};
ghost use Rattle.ring.specs.Numbers.{preceding};
ghost use Rattle.ring.specs.Plays.{begins, happened};

use crate::{Line, Tally};
use frames::Settings;
use posts::{Memory, Post, in_range};

// What each step needs and keeps is `KeptInStep`. It is no ghost field, since it would have to hold after each single write to a lent slice, and no invariant
// behind a model, since `play` would then not know what the slices hold in the end. That a post is `there`, and that there is `room` for more
// moves to be counted, is asked of the arguments and the script, not of the stage. Posts and lines are the caller's slices, so they stay two.
#[derive(Drop)]
pub(crate) struct Stage<'a> {
    pub settings: &'a Settings,
    pub posts: &'a mut [Post],
    pub lines: &'a mut [Line],
    // the number of each member
    pub numbers: &'a mut [u16],
    pub tally: Tally,
}

#[tactic(auto, using(crate::proofs::StageLaws::step_length, crate::proofs::StageLaws::step_numbers))]
impl Stage<'_> {
    // The post whose line leads to post `i`.
    fn sender(&self, i: usize) -> usize
        requires in_step { KeptInStep self.now }
        requires there { i < self.now.settings.now.posts }
        ensures value { result ≡ preceding self.now.settings.now.posts i }
        ensures below { result < self.now.settings.now.posts }
    {
        usize::from(self.settings.sender(self.posts[i].place()))
    }

    // A tick of post `i`.
    pub(crate) fn tick(&mut self, i: usize)
        requires in_step { KeptInStep self.old }
        requires there { i < self.old.settings.now.posts }
        requires room { self.old.tally.moves + 2 < 2 ^ 64 }
        ensures { Becomes self.old self.new (happened self.old.settings.now (tick i) (stage_in self.old)) }
    {
        let (post, act) = self.posts[i].tick(self.settings);
        self.posts[i] = post;
        let number = post.memory.number;
        self.tally.note(self.numbers, 3 * i, number);
        if let Some(frame) = act.sends {
            self.lines[i] = Line { frame, lost: false };
            self.tally.note(self.numbers, 3 * i + 1, number);
        }
    }

    // Post `i` hears the line before it.
    pub(crate) fn hear(&mut self, i: usize)
        requires in_step { KeptInStep self.old }
        requires there { i < self.old.settings.now.posts }
        requires room { self.old.tally.moves + 1 < 2 ^ 64 }
        ensures { Becomes self.old self.new (happened self.old.settings.now (hear i) (stage_in self.old)) }
    {
        let before = self.sender(i);
        let line = self.lines[before];
        if line.lost {
            return;
        }
        let (post, act) = self.posts[i].hear(&line.frame, self.settings);
        self.posts[i] = post;
        if act.refuses.is_none() {
            let heard = post.memory.heard;
            self.tally.note(self.numbers, 3 * before + 2, heard);
        }
    }

    // The frame on the line from post `i` is lost. No number changes.
    pub(crate) fn lose(&mut self, i: usize)
        requires in_step { KeptInStep self.old }
        requires there { i < self.old.settings.now.posts }
        ensures { Becomes self.old self.new (happened self.old.settings.now (lose i) (stage_in self.old)) }
    {
        self.lines[i].lost = true;
    }

    // The button of post `i` goes down or up. No number changes.
    pub(crate) fn press(&mut self, i: usize, down: bool)
        requires in_step { KeptInStep self.old }
        requires there { i < self.old.settings.now.posts }
        ensures { Becomes self.old self.new (happened self.old.settings.now (if down then press i else release i) (stage_in self.old)) }
    {
        self.posts[i].button = down;
    }

    // The memory of post `i` becomes another: its number and the end of the line to it may change.
    pub(crate) fn disturb_memory(&mut self, i: usize, memory: Memory)
        requires in_step { KeptInStep self.old }
        requires there { i < self.old.settings.now.posts }
        ensures { Becomes self.old self.new (begins self.old.settings.now (memory_becomes i memory (stage_in self.old).machine)) }
    {
        let before = self.sender(i);
        let number = in_range(memory.number, self.settings.k);
        let heard = in_range(memory.heard, self.settings.k);
        self.posts[i].memory = memory;
        self.tally.disturb(self.numbers, 3 * i, number);
        self.tally.disturb(self.numbers, 3 * before + 2, heard);
    }

    // The frame on the line from post `i` becomes another, which isn't lost: its number may change.
    pub(crate) fn disturb_frame(&mut self, i: usize, frame: [u8; 6])
        requires in_step { KeptInStep self.old }
        requires there { i < self.old.settings.now.posts }
        ensures { Becomes self.old self.new (begins self.old.settings.now (frame_becomes i frame (stage_in self.old).machine)) }
    {
        let line = Line { frame, lost: false };
        self.lines[i] = line;
        self.tally
            .disturb(self.numbers, 3 * i + 1, line.number(self.settings.k));
    }
}
