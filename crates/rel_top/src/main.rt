//! The verifier: reads a bundle and a proof file, and says yes or refuses.
#![tactic(auto)]

mod check;
mod proof_file;
mod report;
mod run;
mod show;
mod status;
#[cfg(test)]
mod tests;

use rel_io::{HostFiles, HostSink};
use run::run;
use status::Status;
use std::process::ExitCode;
use std::{env, io};

/// The words of the command line, without the program's name.
fn words(rt: &HostRuntime) -> io::Result<Vec<String>> {
    let mut words = Vec::new(rt.alloc());
    for word in env::args(rt)?.skip(1) {
        words.push(word)?;
    }
    Ok(words)
}

fn run_on(rt: &HostRuntime, words: &[String]) -> Status {
    run(
        rt.alloc(),
        words,
        &mut HostFiles::new(rt),
        &mut HostSink::new(rt),
    )
}

fn main(rt: HostRuntime) -> ExitCode {
    let status = match words(&rt) {
        Ok(words) => run_on(&rt, words.as_slice()),
        Err(error) if error.kind() == io::ErrorKind::OutOfMemory => Status::Memory,
        // Words that aren't text are those of no command.
        Err(_) => run_on(&rt, &[]),
    };
    ExitCode::from(status as u8)
}
