// The units of an input, line by line. Assumes nothing.
ghost use Rattle.std.specs.Prelude.{◌≡◌, false, [], IfSome, IfOk, IfErr, vec_len};
ghost use Rattle.lines.specs.UnitLines.{line_in};
ghost use Rattle.lines.specs.Hex.{is_blank};
ghost use Rattle.std.specs.Io.{StopsAt as EndsAt};
ghost use Rattle.inputs.specs.Stops.{StopsAt, StopsOrEnds};
ghost use Rattle.inputs.specs.Taken.{one_more, GoesUp, Takes, Gives};

use crate::Stop;
use lines::{Ending, Fault, Unit, read_line};
use std::alloc::{AllocError, Global};
use std::io::BufRead;

#[derive(Drop)]
pub struct Units<R> {
    pub input: R,
    // what was read last
    pub text: Vec<u8>,
    // the bytes of the line in it
    pub bytes: Vec<u8>,
    // how many lines were read
    pub lines: u64,
}

impl<R: BufRead> Units<R> {
    pub fn new(heap: Global, input: R) -> Units<R>
        ensures input { result.input ≡ input }
        ensures text { result.text.items ≡ [] }
        ensures bytes { result.bytes.items ≡ [] }
        ensures lines { result.lines ≡ 0 }
    {
        Units {
            input,
            text: Vec::new(heap),
            bytes: Vec::new(heap),
            lines: 0,
        }
    }

    // The unit that was read last, on a line that ended so. The ending comes from the caller, since a unit given out by `next_unit` would keep
    // the input lent.
    pub fn unit(&self, ending: Ending) -> Unit<'_>
        ensures { line_in result ≡ record { bytes = self.now.bytes.items; ending = ending } }
    {
        Unit {
            bytes: self.bytes.as_slice(),
            ending,
        }
    }

    // Takes the line in the text, in which a newline stands at the end only: how it ended, or `None` where it is passed over.
    fn take_line(&mut self) -> Result<Option<Ending>, AllocError>
        requires { EndsAt self.old.text.items 10 }
        ensures unit { IfOk result (λ o. Takes self.old.text.items self.new.bytes.items o) }
        ensures text { self.new.text ≡ self.old.text }
        ensures input { self.new.input ≡ self.old.input }
        ensures count { self.new.lines ≡ one_more self.old.lines }
    {
        self.lines = self.lines.saturating_add(1);
        let text = self.text.as_slice();
        let line = text.strip_suffix(b"\n").unwrap_or(text);
        let ending = read_line(line, &mut self.bytes)?;
        if self.unit(ending).is_blank() {
            Ok(None)
        } else {
            Ok(Some(ending))
        }
    }

    // Reads the next line that isn't passed over, and says how it ended; `None` at the end of the input.
    pub fn next_unit(&mut self) -> Result<Option<Ending>, Stop>
        ensures unit { IfOk result (λ o. Gives (vec_len self.new.text) self.new.text.items self.new.bytes.items self.old.lines self.new.lines o) }
        ensures held { IfOk result (λ o. IfSome o (λ e. is_blank record { bytes = self.new.bytes.items; ending = e } ≡ false)) }
        ensures stop { IfErr result (StopsAt (vec_len self.new.text)) }
        ensures count { GoesUp self.old.lines self.new.lines }
    {
        // an input may have no end, but a loop has to
        for _turn in 0..u64::MAX {
            self.text.clear();
            if self.input.read_until(b'\n', &mut self.text)? == 0 {
                return Ok(None);
            }
            if let Some(ending) = self.take_line()? {
                return Ok(Some(ending));
            }
        }
        Ok(None)
    }

    // As `next_unit`, of an input that has to go on: its end is a fault.
    pub fn required(&mut self) -> Result<Ending, Stop>
        ensures unit { IfOk result (λ e. Gives (vec_len self.new.text) self.new.text.items self.new.bytes.items self.old.lines self.new.lines (Some e)) }
        ensures stop { IfErr result (StopsOrEnds (vec_len self.new.text) self.new.lines) }
        ensures count { GoesUp self.old.lines self.new.lines }
    {
        Ok(self.next_unit()?.ok_or(Fault::Malformed)?)
    }
}
