//! Files by name: what a read and a write may answer, and what they change.
ghost use Rattle.std.specs.Prelude.{◌≡◌, ℕ, ◌≤◌, List, length, IfOk, OnOk};
ghost use Rattle.rel_io.specs.Told.{Told, Rose, IsToldAs, IsLonger, Replaces};
ghost use Rattle.rel_io.specs.Answers.{IfFailed, UnlessFailed, IfTooLong};

use rel_list::Memory;
use std::alloc::{AllocError, AllocFailed, Global};

/// Why a read or a write gave nothing.
#[derive(Clone, Copy, Debug, PartialEq, Eq, Drop)]
pub enum FileFault {
    /// The file is missing, or the system refused. The counts of faults rise.
    Failed,
    /// More bytes stand there than the limit allows.
    TooLong,
    /// There was no memory.
    Memory,
}

impl From<Memory> for FileFault {
    ghost use Rattle.rel_io.specs.declared.files.FileFault.TheVariants.{Memory as no_memory};

    ghost from_gives = { λ _ fault. fault ≡ no_memory };

    fn from(_: Memory) -> FileFault {
        FileFault::Memory
    }
}

impl From<AllocError> for FileFault {
    ghost use Rattle.rel_io.specs.declared.files.FileFault.TheVariants.{Memory as no_memory};

    ghost from_gives = { λ _ fault. fault ≡ no_memory };

    fn from(_: AllocError) -> FileFault {
        FileFault::Memory
    }
}

impl<T: Drop> From<AllocFailed<T>> for FileFault {
    ghost use Rattle.rel_io.specs.declared.files.FileFault.TheVariants.{Memory as no_memory};

    ghost from_gives = { λ _ fault. fault ≡ no_memory };

    fn from(_: AllocFailed<T>) -> FileFault {
        FileFault::Memory
    }
}

/// Files, each under a name. An implementation may keep one number for all of its counts.
pub trait Files {
    /// What is told of the bytes under a name.
    ghost told: { Self → List ℕ → Told };

    /// The faults so far, of reads and of writes at any name.
    ghost faults: { Self → ℕ };

    /// The faults so far of reads at a name.
    ghost read_faults: { Self → List ℕ → ℕ };

    /// The faults so far of writes at a name.
    ghost write_faults: { Self → List ℕ → ℕ };

    /// The bytes under the name, of which there may be at most `limit`. A missing file is a failure.
    fn read(&mut self, alloc: Global, name: &str, limit: u64) -> Result<Vec<u8>, FileFault>
        ensures contents_stay { told self.new ≡ told self.old }
        ensures value { IfOk result (λ content. IsToldAs (told self.old name.now) content.items) }
        ensures within { IfOk result (λ content. length content.items ≤ limit) }
        ensures too_long { IfTooLong result (IsLonger (told self.old name.now) limit) }
        ensures failed { IfFailed result (Rose (faults self.old) (faults self.new)) }
        ensures failed_here { IfFailed result
            (Rose (read_faults self.old name.now) (read_faults self.new name.now)) }
        ensures faults_stay { UnlessFailed result (faults self.new ≡ faults self.old) }
        ensures read_faults_stay { UnlessFailed result (read_faults self.new ≡ read_faults self.old) }
        ensures write_faults_stay { UnlessFailed result (write_faults self.new ≡ write_faults self.old) }
        ensures faults_grow { faults self.old ≤ faults self.new }
        ensures read_faults_grow { (any : List ℕ) → read_faults self.old any ≤ read_faults self.new any }
        ensures write_faults_grow { (any : List ℕ) → write_faults self.old any ≤ write_faults self.new any };

    /// Puts the content in place of what stood under the name. After any other answer than `Ok`
    /// nothing is said of the bytes under that name.
    fn write(&mut self, alloc: Global, name: &str, content: &[u8]) -> Result<(), FileFault>
        ensures others_stay { (other : List ℕ) → ¬ (other ≡ name.now) →
            told self.new other ≡ told self.old other }
        ensures replaced { OnOk result
            (Replaces (told self.old name.now) (told self.new name.now) content.now) }
        ensures never_too_long { IfTooLong result ⊥ }
        ensures failed { IfFailed result (Rose (faults self.old) (faults self.new)) }
        ensures failed_here { IfFailed result
            (Rose (write_faults self.old name.now) (write_faults self.new name.now)) }
        ensures faults_stay { UnlessFailed result (faults self.new ≡ faults self.old) }
        ensures read_faults_stay { UnlessFailed result (read_faults self.new ≡ read_faults self.old) }
        ensures write_faults_stay { UnlessFailed result (write_faults self.new ≡ write_faults self.old) }
        ensures faults_grow { faults self.old ≤ faults self.new }
        ensures read_faults_grow { (any : List ℕ) → read_faults self.old any ≤ read_faults self.new any }
        ensures write_faults_grow { (any : List ℕ) → write_faults self.old any ≤ write_faults self.new any };
}
