//! Reads confs and questions from the standard input, and prints the answers.
//!
//! - `stop`: why the program ends early;
//! - `words`: the words of a line;
//! - `commands`: what a line changes of what is asked;
//! - `questions`: what a line asks;
//! - `names`: names of users and repositories;
//! - `state`: the conf that is asked of, and the roles in its repositories;
//! - `conf_answers`: answers on files, lines and groups;
//! - `rule_answers`: answers on all rules together, and on those of a repository;
//! - `verdicts`: answers on what a user may do;
//! - `listing`: what a user sees of the repositories;
//! - `session`: one line after another.
#![tactic(auto)]

mod commands;
mod conf_answers;
mod listing;
mod names;
mod questions;
mod rule_answers;
mod session;
mod state;
mod stop;
mod verdicts;
mod words;

use session::answer_lines;
use std::alloc::Global;
use std::io::{BufReader, Read, Write};
use std::process::ExitCode;
use stop::Stop;

fn read_all(rt: &HostRuntime, alloc: Global) -> Result<Vec<u8>, Stop> {
    let Ok(mut reader) = BufReader::new(alloc, rt.stdin()) else {
        return Err(Stop::OutOfMemory);
    };
    let mut input = Vec::new(alloc);
    match reader.read_to_end(&mut input) {
        Ok(_) => Ok(input),
        Err(_) => Err(Stop::NoInput),
    }
}

fn run(rt: &HostRuntime, alloc: Global) -> Result<(), Stop> {
    let input = read_all(rt, alloc)?;
    let mut out = Vec::new(alloc);
    let ended = answer_lines(alloc, &input, &mut out);
    let _ = rt.stdout().write_all(&out);
    ended
}

fn print_stop(rt: &HostRuntime, stop: &Stop) {
    let _ = match stop {
        Stop::OutOfMemory => eprintln!(rt; "out of memory"),
        Stop::NoInput => eprintln!(rt; "the input can't be read"),
        Stop::NoForm => eprintln!(rt; "a line has no form that the README names"),
    };
}

/// Ends with status 1 where memory is out, the input can't be read, or a line has none of the forms.
fn main(rt: HostRuntime) -> ExitCode {
    match run(&rt, rt.alloc()) {
        Ok(()) => ExitCode::from(0),
        Err(stop) => {
            print_stop(&rt, &stop);
            ExitCode::from(1)
        }
    }
}
