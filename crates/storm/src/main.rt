// storm: plays all posts and lines of a ring by a script of orders, and prints what each show saw, each refused line, and when the ring was healed.
#![tactic(auto)]

mod help;
mod printing;

use frames::{Fault, read_settings};
use help::HELP;
use inputs::{Stop, Units, answer_help, end};
use members::most_moves;
use printing::Printer;
use ring::{PlayError, first_lines, first_posts, play};
use std::io::{BufReader, BufWriter, Read};
use std::process::ExitCode;

fn run(rt: &HostRuntime) -> Result<(), Stop> {
    if answer_help(rt, &HELP)? {
        return Ok(());
    }
    let heap = rt.alloc();
    let mut units = Units::new(heap, BufReader::new(heap, rt.stdin())?);
    let ending = units.required()?;
    let settings = ending.settle(read_settings(units.unit(ending).bytes))?;
    let mut script = Vec::new(heap);
    units.input.read_to_end(&mut script)?;
    let mut posts = first_posts(heap, &settings)?;
    let mut lines = first_lines(heap, &settings)?;
    let mut numbers = vec![in heap; 0u16; settings.members()]?;
    // both error types are of other crates, so no `From` leads from the one to the other
    let report = match play(
        heap,
        &settings,
        script.as_slice(),
        &mut numbers,
        &mut posts,
        &mut lines,
    ) {
        Ok(report) => report,
        Err(PlayError::Memory) => return Err(Stop::Memory),
        Err(PlayError::Unfit) => return Err(Stop::Refused(Fault::OutOfRange)),
    };
    let mut printer = Printer {
        out: BufWriter::new(heap, rt.stdout())?,
        lines_before: units.lines,
        settings,
        bound: most_moves(3 * u16::from(settings.posts)),
    };
    printer.print(&report)
}

fn main(rt: HostRuntime) -> ExitCode {
    end(&rt, "storm", run(&rt))
}
