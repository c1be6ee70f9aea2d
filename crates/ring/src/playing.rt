// Playing a script of orders on a ring of posts and lines. Assumes nothing.
ghost use Rattle.std.specs.Prelude.{◌≡◌, ◌+◌, ◌^◌, ◌<◌, ◌≤◌, is_ok, if◌then◌else◌, MatchOption, OnOk};
ghost use Rattle.lines.specs.UnitLines.{line_in};
ghost use Rattle.ring.specs.Examples.{Examples};
ghost use Rattle.ring.specs.Lent.{Becomes, KeptInStep, stage_in};
ghost use Rattle.ring.specs.Plays.{says_of_line, stage_of_line};
ghost use Rattle.ring.specs.Promise.{Heals, Progress, Refines, SpeaksAlone};
ghost use Rattle.ring.specs.Reports.{Adds, Outcome};

use crate::stage::Stage;
use crate::start::start;
use crate::{Line, PlayError, Report, Said};
use commands::{Order, read_order};
use frames::Settings;
use lines::{Ending, Unit, read_first_line, read_three};
use posts::Post;
use std::alloc::{AllocError, Global};

impl Stage<'_> {
    // Plays line `line` of a script, with this unit on it, and adds what is said of it. Where memory fails the ring is as before the line.
    fn play_line(
        &mut self,
        report: &mut Report,
        unit: Unit<'_>,
        line: u64,
    ) -> Result<(), AllocError>
        requires in_step { KeptInStep self.old }
        requires room { self.old.tally.moves + 2 < 2 ^ 64 }
        ensures stage { Becomes self.old self.new (if is_ok result then stage_of_line self.old.settings.now (line_in unit.entry) (stage_in self.old) else stage_in self.old) }
        ensures says { OnOk result (Adds report.old report.new (says_of_line self.old.settings.now line (line_in unit.entry) (stage_in self.old).machine)) }
        ensures moves { self.new.tally.moves ≤ self.old.tally.moves + 2 }
    {
        if unit.is_blank() {
            return Ok(());
        }
        let command = match unit.ending.settle(read_order(unit.bytes, self.settings)) {
            Ok(command) => command,
            Err(fault) => {
                report.said.push(Said::Refused { line, fault })?;
                return Ok(());
            }
        };
        match command.order {
            Order::Show => self.show(report, command.post),
            order => {
                self.obey(usize::from(command.post), order);
                Ok(())
            }
        }
    }
}

// The bytes of a line: the three, or else those that were read.
fn bytes_read<'a>(three: &'a Option<[u8; 3]>, bytes: &'a [u8]) -> &'a [u8]
    ensures { MatchOption three.now (result.now ≡ bytes.now) (λ found. result.now ≡ found) }
{
    match three {
        Some(three) => three.as_slice(),
        None => bytes,
    }
}

// Plays the whole script: each line that holds an order is obeyed, one with nothing on it is passed over, and any other is refused.
// `numbers` takes the number of each member, whatever it held before, and they are kept in step.
// Whatever stands in the posts and on the lines, nothing stops the ring; it heals within the bound and stays healed, and then one post speaks at a time.
#[tactic(auto, using(crate::proofs::Refine::refines, crate::proofs::Going::progress, crate::proofs::Healing::heals, crate::proofs::Healing::speaks_alone, crate::proofs::Examples::examples))]
pub fn play(
    heap: Global,
    settings: &Settings,
    script: &[u8],
    numbers: &mut [u16],
    posts: &mut [Post],
    lines: &mut [Line],
) -> Result<Report, PlayError>
    ensures outcome { Outcome settings.now script.now posts.old lines.old numbers.old posts.new lines.new numbers.new result }
    ensures refines { Refines }
    ensures progress { Progress }
    ensures heals { Heals }
    ensures speaks { SpeaksAlone }
    ensures examples { Examples }
{
    let tally = start(settings, posts, lines, numbers)?;
    let mut stage = Stage {
        settings,
        posts,
        lines,
        numbers,
        tally,
    };
    let mut report = Report {
        said: Vec::new(heap),
        numbers: Vec::new(heap),
        speakers: Vec::new(heap),
        tally,
    };
    let mut bytes = Vec::new(heap);
    let mut line = 0;
    let mut rest = script;
    // from its front: a line of three bytes, as nearly all are, goes into an array before its end is looked for
    while !rest.is_empty() {
        line += 1;
        let three = read_three(rest);
        let (ending, after) = match three {
            Some(_) => (Ending::Whole, &rest[9..]),
            None => read_first_line(rest, &mut bytes)?,
        };
        let unit = Unit {
            bytes: bytes_read(&three, &bytes),
            ending,
        };
        stage.play_line(&mut report, unit, line)?;
        rest = after;
    }
    report.tally = stage.tally;
    Ok(report)
}
