// A turn: for how many ticks a post that has the token may still speak. Assumes nothing.
ghost use Rattle.std.specs.Prelude.{◌≡◌, suc, ◌<◌, ◌≤◌};
ghost use Rattle.turns.specs.Speaking.{after_hearing, lasting, spoken_once, time_left, time_to_speak};

#[derive(Clone, Copy, PartialEq, Eq, Debug)]
pub struct Turn {
    // may be anything: more than 1,000 count as 0
    pub left: u16,
}

impl Turn {
    // The turn of a post that has moved; no `Default`, since its name says when.
    pub fn over() -> Turn
        ensures { result ≡ lasting 0 }
    {
        Turn { left: 0 }
    }

    // The ticks for which a post may still speak.
    pub fn time(self, button: bool) -> u16
        ensures value { result ≡ time_to_speak button self }
        ensures bound { result ≤ 1000 }
    {
        if button && self.left <= 1000 {
            self.left
        } else {
            0
        }
    }

    // The turn after a tick of speaking.
    pub fn spoken(self) -> Turn
        ensures value { result ≡ spoken_once self }
        ensures falls { 0 < time_left self → suc (time_left result) ≡ time_left self }
    {
        Turn {
            left: self.left.saturating_sub(1),
        }
    }

    // The turn after a frame was heard, by whether the post had the token before and has it now, and the ticks that it is set to.
    pub fn heard(self, had: bool, has: bool, ticks: u16) -> Turn
        ensures { result ≡ after_hearing had has ticks self }
    {
        if !had && has {
            Turn { left: ticks }
        } else {
            self
        }
    }
}
