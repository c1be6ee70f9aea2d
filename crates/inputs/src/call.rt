// What a program is called with, and how it ends. Assumes nothing.
ghost use Rattle.std.specs.Prelude.{◌≡◌, is_err, if◌then◌else◌};
ghost use Rattle.std.specs.Process.{exit_status};

use crate::Stop;
use std::env;
use std::process::ExitCode;
use std::rt::Env;

// Whether a program is asked what it does. Any other argument says nothing, nor do arguments that can't be read.
fn asks_for_help<R: Env + Alloc>(rt: &R) -> bool {
    let Ok(mut arguments) = env::args(rt) else {
        return false;
    };
    arguments
        .skip(1)
        .any(|argument| matches!(argument.as_str(), "--help" | "-h"))
}

// Prints what a program does, where it is asked that, and says whether it was.
pub fn answer_help<R: Env + Alloc + Print>(rt: &R, help: &[&str]) -> Result<bool, Stop> {
    if !asks_for_help(rt) {
        return Ok(false);
    }
    for line in help {
        println!(rt; "{line}")?;
    }
    Ok(true)
}

// Ends a program: where it stopped before its end it says why, by its name, and fails.
pub fn end<R: Eprint>(rt: &R, program: &str, outcome: Result<(), Stop>) -> ExitCode
    ensures { exit_status result ≡ (if is_err outcome then 1 else 0) }
{
    match outcome {
        Ok(()) => ExitCode::SUCCESS,
        Err(stop) => {
            let _ = eprintln!(rt; "{program}: {stop}");
            ExitCode::FAILURE
        }
    }
}
