// Numbers of two bytes. Assumes nothing.
ghost use Rattle.std.specs.Prelude.{◌≡◌, ◌+◌, ◌*◌, ◌<◌, ◌≤◌, length, drop, IfOk, MatchResult, slice_index};
ghost use Rattle.lines.specs.declared.fault.Fault.TheVariants.{Malformed};

use crate::Fault;

// The number that bytes begin with, its high byte first, and the bytes after it.
pub fn read_word(bytes: &[u8]) -> Result<(u16, &[u8]), Fault>
    ensures cases { MatchResult result (λ _. 2 ≤ length bytes.now) (λ f. (length bytes.now < 2) × (f ≡ Malformed)) }
    ensures number { IfOk result (λ p. p.0 ≡ slice_index bytes.now 0 * 256 + slice_index bytes.now 1) }
    ensures rest { IfOk result (λ p. p.1.now ≡ drop 2 bytes.now) }
{
    let [high, low, rest @ ..] = bytes else {
        return Err(Fault::Malformed);
    };
    Ok((u16::from_be_bytes([*high, *low]), rest))
}
