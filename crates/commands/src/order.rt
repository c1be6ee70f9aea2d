// Orders to the posts of a ring. Assumes nothing.
ghost use Rattle.std.specs.Prelude.{◌≡◌, ◌<◌, ◌∷◌, IfOk, slice_index};
ghost use Rattle.std.specs.Result.{result_err};
ghost use Rattle.lines.specs.Checks.{first_fault, IsFirstFault};
ghost use Rattle.lines.specs.Units.{reading_fault};
ghost use Rattle.commands.specs.OrderUnit.{what_of, content_of, order_bytes, what_fields, order_checks, AcceptsOrders};

use frames::Settings;
use lines::Fault;

// The first byte of an order.
pub(crate) const KIND: u8 = 3;

// What is to be done at a post, or at its line.
#[derive(Clone, Copy, PartialEq, Eq, Debug)]
pub enum Order {
    Tick,
    // the frame on the line before it is heard
    Hear,
    // the frame on its line is lost
    Lose,
    // its memory becomes this
    Memory([u8; 16]),
    // the frame on its line becomes this
    Frame([u8; 6]),
    ButtonDown,
    ButtonUp,
    Show,
}

// An order, and the post that it is for.
#[derive(Clone, Copy, PartialEq, Eq, Debug)]
pub struct Command {
    pub post: u8,
    pub order: Order,
}

// What is to be done, by its number and what follows.
fn read_what(bytes: &[u8]) -> Result<Order, Fault>
    ensures fault { result_err result ≡ reading_fault (what_fields (slice_index bytes.now 0)) bytes.now }
    ensures value { IfOk result (λ o. what_of o ∷ content_of o ≡ bytes.now) }
{
    match bytes {
        [1] => Ok(Order::Tick),
        [2] => Ok(Order::Hear),
        [3] => Ok(Order::Lose),
        [4, memory @ ..] => memory
            .try_into()
            .map(Order::Memory)
            .map_err(|_| Fault::Malformed),
        [5, frame @ ..] => frame
            .try_into()
            .map(Order::Frame)
            .map_err(|_| Fault::Malformed),
        [6] => Ok(Order::ButtonDown),
        [7] => Ok(Order::ButtonUp),
        [8] => Ok(Order::Show),
        _ => Err(Fault::Malformed),
    }
}

// The unit is 3, the post, the number of what is to be done, and for a memory or a frame its bytes.
pub fn read_order(bytes: &[u8], settings: &Settings) -> Result<Command, Fault>
    ensures fault { result_err result ≡ first_fault (order_checks settings.now.posts bytes.now) }
    ensures first { IsFirstFault (order_checks settings.now.posts bytes.now) (result_err result) }
    ensures value { IfOk result (λ o. order_bytes o ≡ bytes.now) }
    ensures below { IfOk result (λ o. o.post < settings.now.posts) }
    ensures complete { AcceptsOrders settings.now.posts bytes.now (result_err result) }
{
    let [KIND, post, rest @ ..] = bytes else {
        return Err(Fault::Malformed);
    };
    if *post >= settings.posts {
        return Err(Fault::OutOfRange);
    }
    let order = read_what(rest)?;
    Ok(Command { post: *post, order })
}
