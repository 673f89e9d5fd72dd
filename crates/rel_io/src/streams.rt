//! Whole contents through readers and writers that take and give a part at a time.
ghost use Rattle.std.specs.Prelude.{◌≡◌, ◌↔◌, ◌+◌, ◌<◌, ◌≤◌, ◌≢◌, ◌++◌};
ghost use Rattle.std.specs.Prelude.{ℕ, List, length, take, IfOk, IfSome, OnOk, OnErr, IsTrue};
ghost use Rattle.std.specs.Io.KnownBytes.{Appends, Consumes, IsAtEnd, Keeps};
ghost use Rattle.std.specs.IoError.{error_kind};
ghost use Rattle.std.specs.declared.io.ErrorKind.TheVariants.{OutOfMemory};
ghost use Rattle.rel_io.specs.Answers.{IfTooLong};

use crate::files::FileFault;
use std::alloc::Global;
use std::cmp;
use std::io::{Error, ErrorKind, Read, Write};

/// Want of memory, or else a failure.
pub(crate) fn fault_of(error: &Error) -> FileFault
    ensures memory { (result ≡ FileFault.Memory) ↔ (error_kind error.now ≡ OutOfMemory) }
    ensures never_too_long { result ≢ FileFault.TooLong }
{
    if error.kind() == ErrorKind::OutOfMemory {
        FileFault::Memory
    } else {
        FileFault::Failed
    }
}

/// Reads once, at most `most` bytes, and adds them at the end of the content. Tells whether the source is at
/// its end.
fn read_piece<S: Read>(source: &mut S, content: &mut Vec<u8>, most: u64) -> Result<bool, FileFault>
    requires { 0 < most }
    ensures takes { (piece : List ℕ) × (length piece ≤ most)
        × Consumes (S.remaining source.old) (S.remaining source.new) piece
        × OnOk result (content.new.items ≡ content.old.items ++ piece) }
    ensures end { IfOk result (λ is_end. IsTrue is_end → IsAtEnd (S.remaining source.new)) }
    ensures end_adds_none { IfOk result (λ is_end. IsTrue is_end →
        content.new.items ≡ content.old.items) }
    ensures never_too_long { IfTooLong result ⊥ }
{
    let mut chunk = [0u8; 4096];
    let size = cmp::min(most, 4096) as usize;
    match source.read(&mut chunk[..size]) {
        Ok(n) => {
            content.extend_from_slice(&chunk[..n])?;
            Ok(n == 0)
        }
        Err(error) => {
            if error.kind() == ErrorKind::Interrupted {
                return Ok(false);
            }
            Err(fault_of(&error))
        }
    }
}

/// The whole content, where the source has at most `limit` bytes. It takes at most one byte more than that.
pub(crate) fn read_within<S: Read>(
    source: &mut S,
    alloc: Global,
    limit: u64,
) -> Result<Vec<u8>, FileFault>
    ensures value { IfOk result (λ content. IfSome (S.remaining source.old)
        (λ whole. content.items ≡ whole)) }
    ensures within { IfOk result (λ content. length content.items ≤ limit) }
    ensures too_long { IfTooLong result (IfSome (S.remaining source.old) (λ whole. limit < length whole)) }
    ensures takes { (taken : List ℕ) × (length taken ≤ limit + 1)
        × Consumes (S.remaining source.old) (S.remaining source.new) taken }
{
    let mut content = Vec::new(alloc);
    for _ in 0..u64::MAX {
        let length = content.len() as u64;
        if length > limit {
            return Err(FileFault::TooLong);
        }
        let most = (limit - length).saturating_add(1);
        if read_piece(source, &mut content, most)? {
            return Ok(content);
        }
    }
    Err(FileFault::Failed)
}

/// Writes once, and answers how many bytes were taken: none where the call was interrupted, and a failure
/// where the writer takes none.
fn write_piece<W: Write>(writer: &mut W, rest: &[u8]) -> Result<usize, FileFault>
    ensures at_most { IfOk result (λ n. n ≤ length rest.now) }
    ensures taken { IfOk result (λ n.
        Appends (W.contents writer.old) (W.contents writer.new) (take n rest.now)) }
    ensures unchanged { OnErr result (Keeps (W.contents writer.old) (W.contents writer.new)) }
    ensures never_too_long { IfTooLong result ⊥ }
{
    match writer.write(rest) {
        Ok(0) => Err(FileFault::Failed),
        Ok(n) => Ok(n),
        Err(error) => {
            if error.kind() == ErrorKind::Interrupted {
                return Ok(0);
            }
            Err(fault_of(&error))
        }
    }
}

/// Writes the whole content.
pub(crate) fn write_whole<W: Write>(writer: &mut W, content: &[u8]) -> Result<(), FileFault>
    ensures whole { OnOk result (Appends (W.contents writer.old) (W.contents writer.new) content.now) }
    ensures front { (n : ℕ) × (n ≤ length content.now)
        × Appends (W.contents writer.old) (W.contents writer.new) (take n content.now) }
    ensures never_too_long { IfTooLong result ⊥ }
{
    let mut at = 0;
    for _ in 0..u64::MAX {
        if at >= content.len() {
            return Ok(());
        }
        at += write_piece(writer, &content[at..])?;
    }
    Err(FileFault::Failed)
}
