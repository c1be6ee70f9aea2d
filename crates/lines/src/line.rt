// Lines of bytes in hexadecimal. Assumes nothing.
ghost use Rattle.std.specs.Prelude.{◌≡◌, ℕ, ◌+◌, ◌*◌, ◌<◌, true, false, List, ◌++◌, length, drop, IfOk, MatchOption, OnErr, OnOk, ◌≢◌, slice_index};
ghost use Rattle.std.specs.Result.{result_err};
ghost use Rattle.std.specs.Char.{digit_value};
ghost use Rattle.lines.specs.declared.fault.Fault.TheVariants.{Malformed};
ghost use Rattle.lines.specs.Checks.{first_fault};
ghost use Rattle.lines.specs.Units.{Field, Laid, unit_checks};
ghost use Rattle.lines.specs.declared.line.Ending.TheVariants.{Whole};
ghost use Rattle.lines.specs.declared.line.Symbol.TheVariants.{Digit, Stray};
ghost use Rattle.lines.specs.Hex.{symbol_of, nothing, line_of, is_blank, line_checks, settled, without_return, IsFirstLine, WholeBySpelling, are_digits, is_three};
ghost use Rattle.lines.specs.Text.{first_line, after_line};

use crate::{Fault, first_line};
use std::alloc::AllocError;

// How a line ended: as a line does, or with a stray character or half a byte, after which nothing is read.
#[derive(Clone, Copy, PartialEq, Eq, Debug)]
pub enum Ending {
    Whole,
    Damaged,
}

// What a character is on a line of bytes.
#[derive(Clone, Copy)]
enum Symbol {
    Digit(u8),
    Blank,
    Comment,
    Stray,
}

impl From<u8> for Symbol {
    ghost from_gives = { λ c s. s ≡ symbol_of c };

    fn from(c: u8) -> Symbol {
        match char::from(c).to_digit(16) {
            Some(digit) => Symbol::Digit(digit as u8),
            None => match c {
                b' ' | b'\t' => Symbol::Blank,
                b'#' => Symbol::Comment,
                _ => Symbol::Stray,
            },
        }
    }
}

impl Ending {
    // The answer of a reader of the bytes on a line that ended so, with the damage as a fault of its own. The answer comes in and not the
    // reader, so that contracts say which bytes it was given.
    pub fn settle<T: Drop>(self, answer: Result<T, Fault>) -> Result<T, Fault>
        ensures value { result ≡ settled Malformed self answer }
        ensures fault { (bs : List ℕ) (fs : List Field) → Laid fs → result_err answer ≡ first_fault (unit_checks bs fs) → result_err result ≡ first_fault (line_checks record { bytes = bs; ending = self } fs) }
    {
        self.or_damage(answer, Fault::Malformed)
    }

    // The answer, where a whole line or an earlier fault gave it, or else the damage.
    pub(crate) fn or_damage<T: Drop, E: Drop>(self, answer: Result<T, E>, damage: E) -> Result<T, E>
        ensures { result ≡ settled damage self answer }
    {
        match self {
            Ending::Whole => answer,
            Ending::Damaged => answer.and(Err(damage)),
        }
    }
}

// The line without a carriage return as its very last character.
fn without_return(text: &[u8]) -> &[u8]
    ensures { result.now ≡ without_return text.now }
{
    if let [front @ .., b'\r'] = text {
        front
    } else {
        text
    }
}

// The bytes of a line, which is text without a newline at its end. Where memory fails, `bytes` has the first of them.
pub fn read_line(text: &[u8], bytes: &mut Vec<u8>) -> Result<Ending, AllocError>
    ensures ending { IfOk result (λ e. e ≡ (line_of text.now).ending) }
    ensures bytes { OnOk result (bytes.new.items ≡ (line_of text.now).bytes) }
    ensures whole { IfOk result (λ e. WholeBySpelling (without_return text.now) e bytes.new.items) }
    ensures first { OnErr result ((rest : List ℕ) × (bytes.new.items ++ rest ≡ (line_of text.now).bytes)) }
{
    bytes.clear();
    let mut rest = without_return(text);
    // from its front by pairs of digits: digit by digit takes up to half as long again
    while let [c, after @ ..] = rest {
        match Symbol::from(*c) {
            Symbol::Digit(high) => {
                let [d, after @ ..] = after else {
                    return Ok(Ending::Damaged);
                };
                let Symbol::Digit(low) = Symbol::from(*d) else {
                    return Ok(Ending::Damaged);
                };
                bytes.push(16 * high + low)?;
                rest = after;
            }
            Symbol::Blank => rest = after,
            Symbol::Comment => return Ok(Ending::Whole),
            Symbol::Stray => return Ok(Ending::Damaged),
        }
    }
    Ok(Ending::Whole)
}

// The bytes of the first line of a text, how it ended, and the text after it. Where memory fails, `bytes` has the first of them.
pub fn read_first_line<'a>(
    text: &'a [u8],
    bytes: &mut Vec<u8>,
) -> Result<(Ending, &'a [u8]), AllocError>
    ensures line { IfOk result (λ p. IsFirstLine text.now bytes.new.items p.0 p.1.now) }
    ensures first { OnErr result ((rest : List ℕ) × (bytes.new.items ++ rest ≡ (line_of (first_line text.now)).bytes)) }
{
    let (line, after) = first_line(text);
    Ok((read_line(line, bytes)?, after))
}

// The byte that two digits write.
fn byte_of(high: u8, low: u8) -> Option<u8>
    ensures { MatchOption result (are_digits high low ≡ false) (λ b. (are_digits high low ≡ true) × (b ≡ 16 * digit_value high + digit_value low)) }
{
    let Symbol::Digit(high) = Symbol::from(high) else {
        return None;
    };
    let Symbol::Digit(low) = Symbol::from(low) else {
        return None;
    };
    Some(16 * high + low)
}

// The bytes of a first line that is three of them, with one blank between and a newline: the nine first characters of the text.
pub fn read_three(text: &[u8]) -> Option<[u8; 3]>
    ensures { MatchOption result (is_three text.now ≡ false) (λ bytes. (is_three text.now ≡ true) × IsFirstLine text.now bytes Whole (drop 9 text.now)) }
{
    let [a, b, b' ', c, d, b' ', e, f, b'\n', ..] = text else {
        return None;
    };
    Some([byte_of(*a, *b)?, byte_of(*c, *d)?, byte_of(*e, *f)?])
}
