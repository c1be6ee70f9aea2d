// From the numbers of a ring of posts to what is told of it.
ghost use Rattle.std.specs.Prelude.{◌*◌, ◌<◌, IfOk};
ghost use Rattle.members.specs.Answers.{ring_of};
ghost use Rattle.members.specs.Ring.{Healed};
ghost use Rattle.members.specs.Turns.{TurnAfter};
ghost use Rattle.order.specs.Tidings.{Numbered, Right};

use crate::tidings::Tidings;
use frames::Settings;
use members::{Holders, moves_until, who_may};
use std::alloc::{AllocError, Global};

// After how many moves a post of a healed ring has its turn.
fn wait_of(settings: &Settings, numbers: &[u16], post: u8) -> usize
    requires numbered { Numbered settings.now numbers.now }
    requires healed { Healed (ring_of settings.now.k numbers.now) numbers.now }
    requires there { post < settings.now.posts }
    ensures { TurnAfter (ring_of settings.now.k numbers.now) numbers.now result (3 * post) }
{
    match moves_until(numbers, settings.k, 3 * usize::from(post)) {
        Ok(Some(moves)) => moves,
        Ok(None) => unreachable(),
        Err(_) => unreachable(),
    }
}

// Tells who has the token in a ring with these settings and numbers, and when each post has its turn.
pub fn tell(heap: Global, settings: &Settings, numbers: &[u16]) -> Result<Tidings, AllocError>
    requires { Numbered settings.now numbers.now }
    ensures { IfOk result (Right (ring_of settings.now.k numbers.now) numbers.now settings.now.posts) }
{
    let Ok(holders) = who_may(numbers, settings.k) else {
        unreachable()
    };
    let holder = match holders {
        Holders::One(holder) => holder,
        Holders::Several(first, second) => return Ok(Tidings::Several(first, second)),
    };
    let mut waits = Vec::new(heap);
    // not collected: its proof goes post by post, by what each wait is and not by a value
    for post in 0..settings.posts {
        waits.push(wait_of(settings, numbers, post))?;
    }
    Ok(Tidings::One(holder, waits))
}
