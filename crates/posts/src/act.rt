// What a post does at one thing that it is told. `Act::default()` is nothing. Assumes nothing.
ghost use Rattle.std.specs.Prelude.{◌≡◌};
ghost use Rattle.posts.specs.Steps.{refusal};

use frames::Fault;

#[derive(Clone, Copy, PartialEq, Eq, Debug, Default)]
pub struct Act {
    pub speaks: bool,
    pub moves: bool,
    // the frame that it sends
    pub sends: Option<[u8; 6]>,
    // why it refuses the bytes that came; no `Err`, since to refuse is one of the things that a post does
    pub refuses: Option<Fault>,
}

impl Act {
    pub(crate) fn refusing(fault: Fault) -> Act
        ensures { result ≡ refusal fault }
    {
        Act {
            refuses: Some(fault),
            ..Act::default()
        }
    }
}
