// An order that is obeyed. Assumes nothing.
ghost use Rattle.std.specs.Prelude.{◌+◌, ◌^◌, ◌<◌};
ghost use Rattle.ring.specs.Lent.{Becomes, KeptInStep, stage_in};
ghost use Rattle.ring.specs.Plays.{obeyed};

use crate::stage::Stage;
use commands::Order;
use posts::Memory;

impl Stage<'_> {
    // Obeys an order to post `i`. Orders are a closed list, so a match on all of them is plainest.
    #[tactic(auto, unfolding(crate::specs::Plays::obeyed))]
    pub(crate) fn obey(&mut self, i: usize, order: Order)
        requires in_step { KeptInStep self.old }
        requires there { i < self.old.settings.now.posts }
        requires room { self.old.tally.moves + 2 < 2 ^ 64 }
        ensures { Becomes self.old self.new (obeyed self.old.settings.now i order (stage_in self.old)) }
    {
        match order {
            Order::Tick => self.tick(i),
            Order::Hear => self.hear(i),
            Order::Lose => self.lose(i),
            Order::Memory(bytes) => self.disturb_memory(i, Memory::from_bytes(bytes)),
            Order::Frame(frame) => self.disturb_frame(i, frame),
            Order::ButtonDown => self.press(i, true),
            Order::ButtonUp => self.press(i, false),
            Order::Show => {}
        }
    }
}
