//! `opalport`: the command line over the library `tool`.
#![tactic(auto)]

mod command_line;
mod controller;
mod controller_help;
mod decode_help;
mod error;
mod exploration;
mod explore_help;
mod judge_help;
mod program;

use crate::program::ends;
use anyhow::Result;
use std::fs::Files;
use std::process::ExitCode;
use std::sync::Wait;
use std::thread::Threads;

/// Does what the words of the command line ask for, and gives the status.
fn status<T: Threads + Wait + Sync + Files>(rt: &HostRuntime, threads: &T) -> Result<u8> {
    let words: Vec<String> = std::env::args(rt)?.collect(rt.alloc())?;
    let status = ends(
        threads,
        rt.alloc(),
        &words,
        rt.stdin(),
        &mut rt.stdout(),
        &mut rt.stderr(),
    )?;
    Ok(status)
}

fn main(rt: HostRuntime) -> ExitCode {
    let status = match status(&rt, &rt) {
        Ok(status) => status,
        Err(error) => {
            let _ = eprintln!(rt; "error: {error}");
            2
        }
    };
    ExitCode::from(status)
}
