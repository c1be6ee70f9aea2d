// The rule of one post over its memory, in parts. Assumes nothing.
ghost use Rattle.std.specs.Prelude.{◌≡◌, ◌<◌};
ghost use Rattle.posts.specs.Rule.{norm, may_move, deeds_of, begun, speak_if, move_if, send_if, tick_doing, heard_from};

use crate::seat::Seat;
use crate::{Deeds, Memory};
use turns::Turn;

// The number that `number` counts as.
pub fn in_range(number: u16, k: u16) -> u16
    ensures { result ≡ norm k number }
{
    if number < k { number } else { 0 }
}

impl Memory {
    pub(crate) fn may_move(self, seat: Seat) -> bool
        ensures { result ≡ may_move seat.k seat.place self }
    {
        seat.guard_holds(in_range(self.heard, seat.k), in_range(self.number, seat.k))
    }

    pub(crate) fn deeds(self, seat: Seat, button: bool) -> Deeds
        ensures { result ≡ deeds_of seat.k seat.place button self }
    {
        let may = self.may_move(seat);
        let time = self.turn.time(button);
        let moves = may && time == 0;
        Deeds {
            speaks: may && time > 0,
            moves,
            sends: moves || self.wait == 0,
        }
    }

    fn begin(self, k: u16) -> Memory
        ensures { result ≡ begun k self }
    {
        Memory {
            number: in_range(self.number, k),
            heard: in_range(self.heard, k),
            wait: self.wait.min(3),
            since: self.since.saturating_add(1),
            ..self
        }
    }

    // The parts of a tick, each with its test, as the definitions that they are proved against.
    fn speak_if(self, speaks: bool) -> Memory
        ensures { result ≡ speak_if speaks self }
    {
        if !speaks {
            return self;
        }
        Memory {
            turn: self.turn.spoken(),
            ..self
        }
    }

    fn move_if(self, moves: bool, seat: Seat) -> Memory
        ensures { result ≡ move_if moves seat.k seat.place self }
    {
        if !moves {
            return self;
        }
        Memory {
            number: seat.number_taken(self.heard, self.number),
            turn: Turn::over(),
            moves: self.moves.saturating_add(1),
            since: 0,
            ..self
        }
    }

    fn send_if(self, sends: bool) -> Memory
        ensures { result ≡ send_if sends self }
    {
        let wait = if sends {
            3
        } else {
            self.wait.saturating_sub(1)
        };
        Memory { wait, ..self }
    }

    // A tick in which it does `deeds`.
    pub(crate) fn tick(self, seat: Seat, deeds: Deeds) -> Memory
        ensures { result ≡ tick_doing seat.k seat.place deeds self }
    {
        self.begin(seat.k)
            .speak_if(deeds.speaks)
            .move_if(deeds.moves, seat)
            .send_if(deeds.sends)
    }

    // Hears `number` from the post before; a turn is set to `ticks`.
    pub(crate) fn hear(self, seat: Seat, number: u16, ticks: u16) -> Memory
        ensures { result ≡ heard_from seat.k seat.place ticks number self }
    {
        let own = in_range(self.number, seat.k);
        let had = self.may_move(seat);
        let has = seat.guard_holds(number, own);
        Memory {
            number: own,
            heard: number,
            turn: self.turn.heard(had, has, ticks),
            ..self
        }
    }
}
