//! Trials of a port that no script can say: what threads share under its lock, a history that has no room left, and steps
//! that are refused memory.
#![tactic(auto)]

mod crossing;
mod error;
mod full;
mod locked;
mod ports;
mod receipts;
mod refusals;
mod refused;
mod script;
mod tags;

use crate::error::SweepError;
use crate::locked::{Trial, is_right};
use crate::receipts::whole_lists_pass_alone;
use crate::refused::played;
use crate::script::script_in;
use crate::tags::are_claimed;
use std::alloc::Global;
use std::io;
use std::process::ExitCode;
use std::sync::Wait;
use std::thread::Threads;

/// What is tried.
#[derive(Clone, Copy)]
enum Topic {
    Tags,
    Receipts,
    Locked(Trial),
}

/// Without a word of the command line.
const TOPICS: [(&str, Topic); 4] = [
    ("tags", Topic::Tags),
    ("receipts", Topic::Receipts),
    ("crossing", Topic::Locked(Trial::Crossing)),
    ("refusals", Topic::Locked(Trial::Refusals)),
];

const FULL: [(&str, Topic); 1] = [("full", Topic::Locked(Trial::Full))];

impl Topic {
    /// Whether all came of it that should.
    fn is_right<T: Threads + Wait + Sync>(self, threads: &T, alloc: Global) -> bool {
        match self {
            Topic::Tags => are_claimed(threads, alloc),
            Topic::Receipts => whole_lists_pass_alone(alloc),
            Topic::Locked(trial) => is_right(threads, alloc, trial),
        }
    }
}

/// Tries topics, and prints a line for each. The status is 1 where something else came of one.
fn try_topics<T: Threads + Wait + Sync>(
    rt: &HostRuntime,
    threads: &T,
    topics: &[(&str, Topic)],
) -> Result<u8, SweepError> {
    let mut status = 0;
    for (name, topic) in topics {
        let word = if topic.is_right(threads, rt.alloc()) {
            "right"
        } else {
            status = 1;
            "wrong"
        };
        println!(rt; "{name} {word}").map_err(SweepError::of_stream)?;
    }
    Ok(status)
}

/// Plays the script of the standard input on two ports, and prints what came of it. The status is 1 where that is not the
/// same.
fn play(rt: &HostRuntime) -> Result<u8, SweepError> {
    let text = io::read_to_string(rt.alloc(), rt.stdin()).map_err(SweepError::of_stream)?;
    let script = script_in(rt.alloc(), text.as_str())?;
    let played = played(rt.alloc(), &script).map_err(SweepError::of_port)?;
    let (steps, denials, times) = (played.steps, played.denials, played.times);
    let word = if played.is_same { "same" } else { "another" };
    println!(rt;
        "{steps} steps, {denials} denials, the {word} again\nrefused memory {times} times"
    ).map_err(SweepError::of_stream)?;
    Ok(if played.is_same { 0 } else { 1 })
}

/// Does what the words of the command line ask for, and gives the status.
fn status<T: Threads + Wait + Sync>(rt: &HostRuntime, threads: &T) -> Result<u8, SweepError> {
    let words: Vec<String> = std::env::args(rt)
        .map_err(SweepError::of_stream)?
        .collect(rt.alloc())?;
    match words.as_slice() {
        [_] => try_topics(rt, threads, &TOPICS),
        [_, word] if word.as_str() == "full" => try_topics(rt, threads, &FULL),
        [_, word] if word.as_str() == "refused" => play(rt),
        _ => Err(SweepError::Usage),
    }
}

fn main(rt: HostRuntime) -> ExitCode {
    let status = match status(&rt, &rt) {
        Ok(status) => status,
        Err(error) => {
            let _ = eprintln!(rt; "error: {error}");
            2
        }
    };
    ExitCode::from(status)
}
