// Numbers of two bytes, the high byte first, one after the other. Assumes nothing.
ghost use Rattle.std.specs.Prelude.{◌≡◌, ℕ, ◌≤◌, List, ◌++◌, length, take, drop, replicate, OnErr, OnOk};
ghost use Rattle.std.specs.Result.{result_err};
ghost use Rattle.std.specs.List.{AllByRecursion};
ghost use Rattle.lines.specs.Units.{reading_fault};
ghost use Rattle.lines.specs.Words.{word_up_to, words_bytes};

use crate::{Fault, read_word};

// Reads as many numbers as `words` has places for, each at most `largest`. At a fault the numbers before it are read.
pub fn read_words(bytes: &[u8], words: &mut [u16], largest: u16, fault: Fault) -> Result<(), Fault>
    ensures fault { result_err result ≡ reading_fault (replicate (length words.old) (word_up_to fault largest)) bytes.now }
    ensures value { OnOk result (words_bytes words.new ≡ bytes.now) }
    ensures bound { OnOk result (AllByRecursion (λ x. x ≤ largest) words.new) }
    ensures first { OnErr result ((i : ℕ) × (rest : List ℕ) × (words_bytes (take i words.new) ++ rest ≡ bytes.now) × (drop i words.new ≡ drop i words.old)) }
{
    let mut rest = bytes;
    for word in words.iter_mut() {
        let (value, more) = read_word(rest)?;
        if value > largest {
            return Err(fault);
        }
        *word = value;
        rest = more;
    }
    if rest.is_empty() {
        Ok(())
    } else {
        Err(Fault::Malformed)
    }
}
