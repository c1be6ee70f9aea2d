// What the program of one post reads: its place, and the orders to it. Assumes nothing.
ghost use Rattle.std.specs.Prelude.{◌≡◌, ◌<◌, [], ◌∷◌, IfOk};
ghost use Rattle.std.specs.Result.{result_err};
ghost use Rattle.lines.specs.Checks.{first_fault, IsFirstFault};
ghost use Rattle.lines.specs.Units.{reading_fault};
ghost use Rattle.commands.specs.PostUnit.{place_checks, post_what, post_order_bytes, post_what_field, post_order_checks};

use crate::order::KIND;
use frames::Settings;
use lines::Fault;

// What one post is told, besides the frames that come to it: half of the orders to a ring. By `Order` it would have cases that can't come.
#[derive(Clone, Copy, PartialEq, Eq, Debug)]
pub enum PostOrder {
    Tick,
    ButtonDown,
    ButtonUp,
    Show,
}

// The unit is one byte, the post's place in the ring.
pub fn read_place(bytes: &[u8], settings: &Settings) -> Result<u8, Fault>
    ensures fault { result_err result ≡ first_fault (place_checks settings.now.posts bytes.now) }
    ensures first { IsFirstFault (place_checks settings.now.posts bytes.now) (result_err result) }
    ensures value { IfOk result (λ p. p ∷ [] ≡ bytes.now) }
    ensures below { IfOk result (λ p. p < settings.now.posts) }
{
    let [place, rest @ ..] = bytes else {
        return Err(Fault::Malformed);
    };
    if *place >= settings.posts {
        return Err(Fault::OutOfRange);
    }
    if rest.is_empty() {
        Ok(*place)
    } else {
        Err(Fault::Malformed)
    }
}

// What is to be done, by its number, which is that of the same order to a ring.
fn read_post_what(bytes: &[u8]) -> Result<PostOrder, Fault>
    ensures fault { result_err result ≡ reading_fault (post_what_field ∷ []) bytes.now }
    ensures value { IfOk result (λ o. post_what o ∷ [] ≡ bytes.now) }
{
    match bytes {
        [1] => Ok(PostOrder::Tick),
        [6] => Ok(PostOrder::ButtonDown),
        [7] => Ok(PostOrder::ButtonUp),
        [8] => Ok(PostOrder::Show),
        _ => Err(Fault::Malformed),
    }
}

// The unit is 3, the post's place, and the number of what is to be done.
pub fn read_post_order(bytes: &[u8], place: u8) -> Result<PostOrder, Fault>
    ensures fault { result_err result ≡ first_fault (post_order_checks place bytes.now) }
    ensures first { IsFirstFault (post_order_checks place bytes.now) (result_err result) }
    ensures value { IfOk result (λ o. post_order_bytes place o ≡ bytes.now) }
{
    let [KIND, post, rest @ ..] = bytes else {
        return Err(Fault::Malformed);
    };
    if *post != place {
        return Err(Fault::OutOfRange);
    }
    read_post_what(rest)
}
