// A report in text, written piece by piece as it is gone through.
ghost use Rattle.std.specs.Iterator.{IsFinite};

use frames::{Member, Settings};
use inputs::Stop;
use members::has_token;
use posts::Counts;
use ring::{Report, Said, Tally};
use std::io::Write;

#[derive(Drop)]
pub struct Printer<W> {
    pub out: W,
    // how many lines of the input stood before the script
    pub lines_before: u64,
    // the ring's, which say how many numbers and speakers a show has
    pub settings: Settings,
    // the most moves until the ring is healed
    pub bound: u64,
}

impl<W: Write> Printer<W> {
    // For each post its own number, its frame's and its end's.
    fn print_numbers(&mut self, numbers: &[u16]) -> Result<(), Stop> {
        for (place, number) in numbers.iter().enumerate() {
            let before = match Member::from(place) {
                Member::Post(0) => "",
                Member::Post(_) => " | ",
                Member::Frame(_) | Member::End(_) => " ",
            };
            write!(self.out, "{before}{number}")?;
        }
        Ok(())
    }

    // Members with a comma between them. By a flag: of a separator that changes it isn't proved that it is text.
    fn print_members<I: Iterator<Item = Member> + Drop>(&mut self, members: I) -> Result<(), Stop>
        requires can { I.can_next members }
        requires ends { IsFinite (I.remaining members) }
    {
        let mut several = false;
        for member in members {
            if several {
                write!(self.out, ", ")?;
            }
            write!(self.out, "{member}")?;
            several = true;
        }
        Ok(())
    }

    // The members that may move.
    fn print_holders(&mut self, numbers: &[u16]) -> Result<(), Stop> {
        let holders = (0..numbers.len()).filter(|place| has_token(numbers, *place).unwrap_or(
            false,
        ));
        self.print_members(holders.map(|place| Member::from(place)))
    }

    // The posts that would speak, or `-`.
    fn print_speakers(&mut self, speakers: &[bool]) -> Result<(), Stop> {
        if !speakers.contains(&true) {
            write!(self.out, "-")?;
        }
        let speaking = speakers.iter().enumerate().filter(|(_, speaks)| **speaks);
        self.print_members(speaking.map(|(post, _)| Member::Post(post)))
    }

    // A show of one post, with these numbers and speakers.
    fn print_show(
        &mut self,
        numbers: &[u16],
        speakers: &[bool],
        counts: Counts,
    ) -> Result<(), Stop> {
        write!(self.out, "show: ")?;
        self.print_numbers(numbers)?;
        write!(self.out, "; word: ")?;
        self.print_holders(numbers)?;
        write!(self.out, "; speaks: ")?;
        self.print_speakers(speakers)?;
        writeln!(self.out, "; {counts}")?;
        Ok(())
    }

    fn print_summary(&mut self, tally: Tally) -> Result<(), Stop> {
        let bound = self.bound;
        match tally.healed {
            Some(count) => writeln!(self.out, "healed after {count} goings on, at most {bound}")?,
            None => {
                let count = tally.moves;
                writeln!(
                    self.out,
                    "not healed after {count} goings on, at most {bound}"
                )?;
            }
        }
        Ok(())
    }

    // A show or a refused line, the whole list of what is said: each show has its numbers and speakers from the front of those of all.
    pub fn print(&mut self, report: &Report) -> Result<(), Stop> {
        let mut numbers = report.numbers.as_slice();
        let mut speakers = report.speakers.as_slice();
        for said in &report.said {
            match *said {
                Said::Shown(counts) => {
                    let (shown, more) = numbers.split_at(
                        numbers.len().min(self.settings.members()),
                    );
                    let (speaking, others) = speakers.split_at(
                        speakers.len().min(usize::from(self.settings.posts)),
                    );
                    self.print_show(shown, speaking, counts)?;
                    numbers = more;
                    speakers = others;
                }
                Said::Refused { line, fault } => {
                    let line = line.saturating_add(self.lines_before);
                    writeln!(self.out, "line {line}: {fault}")?;
                }
            }
        }
        self.print_summary(report.tally)?;
        self.out.flush()?;
        Ok(())
    }
}
