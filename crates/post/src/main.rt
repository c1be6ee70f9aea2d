// post: one post of a ring. It reads settings, its place, and then frames and orders line by line, and answers each before it reads the next.
#![tactic(auto)]

mod answering;
mod help;
mod reply;

use answering::reply;
use commands::read_place;
use frames::{read_settings, write_line};
use help::HELP;
use inputs::{Stop, Units, answer_help, end};
use posts::{Act, Memory, Post};
use reply::Reply;
use std::io::BufReader;
use std::process::ExitCode;

// An act has no text of its own, since that of its frame needs memory.
fn print_act(rt: &HostRuntime, act: Act) -> Result<(), Stop> {
    if act.speaks {
        println!(rt; "speaks")?;
    }
    if let Some(frame) = act.sends {
        let mut text = String::new(rt.alloc());
        write_line(&frame, &mut text)?;
        println!(rt; "{text}")?;
    }
    Ok(())
}

fn print(rt: &HostRuntime, reply: Reply) -> Result<(), Stop> {
    match reply {
        Reply::Acted(act) => print_act(rt, act)?,
        Reply::Shown(counts) => println!(rt; "{counts}")?,
    }
    Ok(())
}

fn run(rt: &HostRuntime) -> Result<(), Stop> {
    if answer_help(rt, &HELP)? {
        return Ok(());
    }
    let heap = rt.alloc();
    let mut units = Units::new(heap, BufReader::new(heap, rt.stdin())?);
    let ending = units.required()?;
    let settings = ending.settle(read_settings(units.unit(ending).bytes))?;
    let ending = units.required()?;
    let place = ending.settle(read_place(units.unit(ending).bytes, &settings))?;
    let mut post = Post::new(place, Memory::from_bytes([0; 16]), &settings)?;
    // an input may have no end, but a loop has to
    for _ in 0..u64::MAX {
        let Some(ending) = units.next_unit()? else {
            break;
        };
        let (next, answer) = reply(post, &settings, units.unit(ending));
        post = next;
        match answer {
            Ok(answer) => print(rt, answer)?,
            Err(fault) => println!(rt; "{fault}")?,
        }
    }
    Ok(())
}

fn main(rt: HostRuntime) -> ExitCode {
    end(&rt, "post", run(&rt))
}
