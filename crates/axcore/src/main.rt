//! The accessibility core as a program: it does what the words say, and ends with the status number.
#![tactic(auto)]

use ax_edge::{OpenGate, ScopeSpawner, StdSink, StdSource};
use ax_session::axcore;
use std::alloc::Global;
use std::process::ExitCode;
use std::rt::Env;
use std::{env, io};

/// The words after the program's name.
fn words_of(rt: &(impl Env + AllocGlobal)) -> io::Result<Vec<String>> {
    let mut words = Vec::new(rt.alloc());
    for (at, word) in env::args(rt)?.enumerate() {
        if at > 0 {
            words.push(word)?;
        }
    }
    Ok(words)
}

fn main(rt: HostRuntime) -> ExitCode {
    let Ok(words) = words_of(&rt) else {
        // Status 1: the words cannot be had from the system.
        return ExitCode::FAILURE;
    };
    let mut source = StdSource::new(rt.reader());
    let mut sink = StdSink::new(io::writer(&rt));
    let status = axcore(
        &rt,
        rt.alloc(),
        &words,
        &mut source,
        &mut sink,
        &OpenGate,
        &mut ScopeSpawner,
    );
    ExitCode::from(status.number())
}

#[cfg(test)]
mod meeting;
#[cfg(test)]
mod tests;
