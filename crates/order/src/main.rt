// order: reads settings and the numbers of all members, and prints whether one only may move, and if so after how many moves each post may.
#![tactic(auto)]

mod help;
mod telling;
mod tidings;

use frames::{Member, read_numbers, read_settings};
use help::HELP;
use inputs::{Stop, Units, answer_help, end};
use std::io::BufReader;
use std::process::ExitCode;
use telling::tell;
use tidings::Tidings;

// Tidings have no text of their own: it would be of many lines, and `tell` is what is proved of them.
fn print(rt: &HostRuntime, tidings: &Tidings) -> Result<(), Stop> {
    match tidings {
        Tidings::One(holder, waits) => {
            let holder = Member::from(*holder);
            println!(rt; "one may: {holder}")?;
            for (post, moves) in waits.iter().enumerate() {
                println!(rt; "post {post} after {moves}")?;
            }
        }
        Tidings::Several(first, second) => {
            let first = Member::from(*first);
            let second = Member::from(*second);
            println!(rt; "several may: {first}, {second}")?;
        }
    }
    Ok(())
}

fn run(rt: &HostRuntime) -> Result<(), Stop> {
    if answer_help(rt, &HELP)? {
        return Ok(());
    }
    let heap = rt.alloc();
    let mut units = Units::new(heap, BufReader::new(heap, rt.stdin())?);
    let ending = units.required()?;
    let settings = ending.settle(read_settings(units.unit(ending).bytes))?;
    let ending = units.required()?;
    let numbers = ending.settle_read(read_numbers(heap, units.unit(ending).bytes, &settings))?;
    print(rt, &tell(heap, &settings, numbers.as_slice())?)
}

fn main(rt: HostRuntime) -> ExitCode {
    end(&rt, "order", run(&rt))
}
