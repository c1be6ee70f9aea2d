// Why a question about a ring is refused.

#[derive(Clone, Copy, PartialEq, Eq, Debug)]
pub enum Refusal {
    TooFewMembers,
    TooFewNumbers,
    NoSuchMember,
    NumberTooLarge,
}
