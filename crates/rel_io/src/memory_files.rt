//! Files in memory.
ghost use Rattle.std.specs.Prelude.{◌≡◌, ◌+◌, ◌-◌, ◌^◌, ◌<◌, ◌≤◌, ◌⊎◌, ◌↔◌};
ghost use Rattle.std.specs.Prelude.{ℕ, true, false, min, List as Listed, length};
ghost use Rattle.std.specs.Prelude.{IfOk, IfSome, IfNone, OnOk, OnErr, IsTrue};
ghost use Rattle.rel_io.specs.Told.{absent, bytes as standing, IsLonger, Rose};
ghost use Rattle.rel_io.specs.Answers.{IfFailed, UnlessFailed, IfTooLong};
ghost use Rattle.rel_io.specs.Memory.{told_in, HaveDistinctNames, AreTold, IsPlace, is_to_fail};

use crate::calls::Calls;
use crate::files::{FileFault, Files};
use rel_list::{List, Memory, Name};
use std::alloc::Global;

/// Files by name. A call fails where its number is named when the files are made, and a read also where the
/// file is missing.
#[derive(Debug, Drop)]
pub struct MemFiles {
    files: List<(Name, List<u8>)>,
    calls: Calls,
}

/// The place of the first file under the name.
#[tactic(auto, using(crate::proofs::Places::none_so_far, crate::proofs::Places::place_at))]
fn place(files: &List<(Name, List<u8>)>, name: &str) -> Option<usize>
    ensures found { IfSome result (λ i. IsPlace files.now name.now i) }
    ensures missing { IfNone result (told_in files.now name.now ≡ absent) }
{
    for i in 0..files.len() {
        if files.at(i).0.is_text(name) {
            return Some(i);
        }
    }
    None
}

/// The bytes under the name.
#[tactic(auto, using(crate::proofs::Places::told_at))]
fn content_of<'a>(files: &'a List<(Name, List<u8>)>, name: &str) -> Option<&'a [u8]>
    ensures found { IfSome result (λ content. told_in files.now name.now ≡ standing content.now) }
    ensures missing { IfNone result (told_in files.now name.now ≡ absent) }
{
    match place(files, name) {
        Some(i) => Some(files.at(i).1.as_slice()),
        None => None,
    }
}

/// Puts the file in place of the one under its name, or at the end.
#[tactic(auto, using(crate::proofs::Places::put_lemmas))]
fn put_file(files: &mut List<(Name, List<u8>)>, file: (Name, List<u8>)) -> Result<(), Memory>
    ensures here { OnOk result (told_in files.new file.0 ≡ standing file.1) }
    ensures others { OnOk result ((other : Listed ℕ) → ¬ (other ≡ file.0) →
        told_in files.new other ≡ told_in files.old other) }
    ensures unchanged { OnErr result (files.new ≡ files.old) }
{
    match place(files, file.0.as_str()) {
        Some(i) => {
            files.items[i] = file;
            Ok(())
        }
        None => {
            files.push(file)?;
            Ok(())
        }
    }
}

/// A copy of the content, where it has at most `limit` bytes.
fn copy_within(alloc: Global, content: &[u8], limit: u64) -> Result<Vec<u8>, FileFault>
    ensures value { IfOk result (λ copy. standing content.now ≡ standing copy.items) }
    ensures within { IfOk result (λ copy. length copy.items ≤ limit) }
    ensures too_long { IfTooLong result (limit < length content.now) }
    ensures never_failed { IfFailed result ⊥ }
{
    if content.len() as u64 > limit {
        return Err(FileFault::TooLong);
    }
    Ok(Vec::from_slice(alloc, content)?)
}

fn new_file(alloc: Global, name: &str, content: &[u8]) -> Result<(Name, List<u8>), Memory>
    ensures named { IfOk result (λ file. file.0 ≡ name.now) }
    ensures filled { IfOk result (λ file. file.1 ≡ content.now) }
{
    let name = Name::new(alloc, name)?;
    let items = Vec::from_slice(alloc, content)?;
    Ok((name, List { items }))
}

impl MemFiles {
    pub fn new(files: List<(Name, List<u8>)>, fails: List<u64>) -> MemFiles
        requires { HaveDistinctNames files }
        ensures files { result.files ≡ files }
        ensures told { AreTold result.files }
        ensures fails { result.calls.fails ≡ fails }
        ensures made { result.calls.made ≡ 0 }
        ensures faults { result.calls.faults ≡ 0 }
    {
        MemFiles {
            files,
            calls: Calls::new(fails),
        }
    }

    /// The bytes under the name.
    pub fn bytes(&self, name: &str) -> Option<&[u8]>
        ensures found { IfSome result (λ content. told_in self.now.files name.now ≡ standing content.now) }
        ensures missing { IfNone result (told_in self.now.files name.now ≡ absent) }
    {
        content_of(&self.files, name)
    }
}

impl Files for MemFiles {
    ghost told = { λ it. told_in it.files };

    ghost faults = { λ it. it.calls.faults };

    ghost read_faults = { λ it _. it.calls.faults };

    ghost write_faults = { λ it _. it.calls.faults };

    fn read(&mut self, alloc: Global, name: &str, limit: u64) -> Result<Vec<u8>, FileFault>
        ensures contents_stay { self.new.files ≡ self.old.files }
        ensures value { IfOk result (λ content. told_in self.old.files name.now ≡ standing content.items) }
        ensures within { IfOk result (λ content. length content.items ≤ limit) }
        ensures too_long { IfTooLong result (IsLonger (told_in self.old.files name.now) limit) }
        ensures failed { IfFailed result (Rose self.old.calls.faults self.new.calls.faults) }
        // It fails exactly where the call is to fail or the file is missing.
        ensures cause { IfFailed result (IsTrue (is_to_fail self.old.calls.fails self.old.calls.made)
            ⊎ (told_in self.old.files name.now ≡ absent)) }
        ensures not_to_fail { UnlessFailed result
            (is_to_fail self.old.calls.fails self.old.calls.made ≡ false) }
        ensures not_missing { UnlessFailed result (¬ (told_in self.old.files name.now ≡ absent)) }
        ensures faults_stay { UnlessFailed result (self.new.calls.faults ≡ self.old.calls.faults) }
        ensures faults_grow { self.old.calls.faults ≤ self.new.calls.faults }
        ensures counted { self.new.calls.made ≡ min (self.old.calls.made + 1) (2 ^ 64 - 1) }
        ensures fails_stay { self.new.calls.fails ≡ self.old.calls.fails }
    {
        if self.calls.is_failing() {
            self.calls.count_fault();
            return Err(FileFault::Failed);
        }
        match content_of(&self.files, name) {
            Some(content) => copy_within(alloc, content, limit),
            None => {
                self.calls.count_fault();
                Err(FileFault::Failed)
            }
        }
    }

    fn write(&mut self, alloc: Global, name: &str, content: &[u8]) -> Result<(), FileFault>
        ensures replaced { OnOk result (told_in self.new.files name.now ≡ standing content.now) }
        ensures others_stay { (other : Listed ℕ) → ¬ (other ≡ name.now) →
            told_in self.new.files other ≡ told_in self.old.files other }
        ensures unchanged { OnErr result (self.new.files ≡ self.old.files) }
        ensures never_too_long { IfTooLong result ⊥ }
        ensures failed { IfFailed result (Rose self.old.calls.faults self.new.calls.faults) }
        // It fails exactly where the call is to fail.
        ensures cause { IfFailed result
            (is_to_fail self.old.calls.fails self.old.calls.made ≡ true) }
        ensures not_to_fail { UnlessFailed result
            (is_to_fail self.old.calls.fails self.old.calls.made ≡ false) }
        ensures faults_stay { UnlessFailed result (self.new.calls.faults ≡ self.old.calls.faults) }
        ensures faults_grow { self.old.calls.faults ≤ self.new.calls.faults }
        ensures counted { self.new.calls.made ≡ min (self.old.calls.made + 1) (2 ^ 64 - 1) }
        ensures fails_stay { self.new.calls.fails ≡ self.old.calls.fails }
    {
        if self.calls.is_failing() {
            self.calls.count_fault();
            return Err(FileFault::Failed);
        }
        let file = new_file(alloc, name, content)?;
        put_file(&mut self.files, file)?;
        Ok(())
    }
}
