//! Real files and the standard output. Of what they hold nothing is told.
ghost use Rattle.std.specs.Prelude.{◌≡◌, ◌≤◌, length, None, IfOk};
ghost use Rattle.rel_io.specs.Told.{untold, Rose};
ghost use Rattle.rel_io.specs.Answers.{IfFailed, UnlessFailed, IfTooLong};

use crate::calls::one_more;
use crate::files::{FileFault, Files};
use crate::sink::{Sink, SinkFault};
use crate::streams::{fault_of, read_within, write_whole};
use std::alloc::Global;
use std::rt::Files as RuntimeFiles;
use std::{fs, io};

/// The files of the system, and how many reads and writes of them failed.
#[derive(Drop)]
pub struct HostFiles<R> {
    runtime: R,
    faults: u64,
}

/// The standard output, and how many pieces it did not take.
#[derive(Drop)]
pub struct HostSink<P> {
    output: P,
    faults: u64,
}

fn read_file<R: RuntimeFiles>(
    runtime: &R,
    alloc: Global,
    name: &str,
    limit: u64,
) -> Result<Vec<u8>, FileFault>
    ensures { IfOk result (λ content. length content.items ≤ limit) }
{
    match fs::open(runtime, name) {
        Ok(mut file) => read_within(&mut file, alloc, limit),
        Err(error) => Err(fault_of(&error)),
    }
}

fn write_file<R: RuntimeFiles>(runtime: &R, name: &str, content: &[u8]) -> Result<(), FileFault>
    ensures { IfTooLong result ⊥ }
{
    match fs::create(runtime, name) {
        Ok(mut file) => write_whole(&mut file, content),
        Err(error) => Err(fault_of(&error)),
    }
}

/// The count after this answer.
fn count_after<T>(faults: u64, answer: &Result<T, FileFault>) -> u64
    ensures failed { IfFailed answer.now (Rose faults result) }
    ensures stays { UnlessFailed answer.now (result ≡ faults) }
    ensures grows { faults ≤ result }
{
    match answer {
        Err(FileFault::Failed) => one_more(faults),
        _ => faults,
    }
}

impl<R: RuntimeFiles> HostFiles<R> {
    /// Takes the runtime, or a reference to it.
    pub fn new(runtime: R) -> HostFiles<R>
        ensures { result.faults ≡ 0 }
    {
        HostFiles { runtime, faults: 0 }
    }
}

impl<R: RuntimeFiles> Files for HostFiles<R> {
    ghost told = { λ _ _. untold };

    ghost faults = { λ it. it.faults };

    ghost read_faults = { λ it _. it.faults };

    ghost write_faults = { λ it _. it.faults };

    fn read(&mut self, alloc: Global, name: &str, limit: u64) -> Result<Vec<u8>, FileFault> {
        let answer = read_file(&self.runtime, alloc, name, limit);
        self.faults = count_after(self.faults, &answer);
        answer
    }

    fn write(&mut self, _alloc: Global, name: &str, content: &[u8]) -> Result<(), FileFault> {
        let answer = write_file(&self.runtime, name, content);
        self.faults = count_after(self.faults, &answer);
        answer
    }
}

impl<P: Print> HostSink<P> {
    /// Takes the runtime, or a reference to it.
    pub fn new(output: P) -> HostSink<P>
        ensures { result.faults ≡ 0 }
    {
        HostSink { output, faults: 0 }
    }
}

impl<P: Print> Sink for HostSink<P> {
    ghost written = { λ _. None };

    ghost faults = { λ it. it.faults };

    fn put(&mut self, piece: &[u8]) -> Result<(), SinkFault> {
        let answer = write_whole(&mut io::writer(&self.output), piece);
        match answer {
            Ok(()) => Ok(()),
            Err(_) => {
                self.faults = one_more(self.faults);
                Err(SinkFault::Failed)
            }
        }
    }
}
