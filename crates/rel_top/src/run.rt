//! The top call: the words of a command, and what comes of them.

ghost use Rattle.std.specs.Prelude.{◌≡◌, ◌≢◌, ◌↔◌, ℕ, List, map, IsTrue, string_bytes, IfOk, IfSome, IfNone, OnOk, OnErr};
ghost use Rattle.rel_io.specs.Told.{Rose};
ghost use Rattle.rel_top.specs.Ending.{HasReply, ReadFailed, usage as no_command, output, Ends, IsDecided, IsPrinted, IsCutOff};
ghost use Rattle.rel_top.specs.Headline.{IsYes};
ghost use Rattle.rel_top.specs.Judged.{IsWordsAnswer, IsPrintedAs, answer_of};
ghost use Rattle.rel_top.specs.Verdict.{check as asks_check, show as asks_show, words_of};

use crate::check::{Answer, check, with_line};
use crate::report;
use crate::show::show;
use crate::status::Status;
use rel_io::{Files, Sink, SinkFault};
use rel_list::{List as Lines, Memory};
use std::alloc::Global;

/// Does what the words say: `check BUNDLE PROOF` judges the bundle under the first name by the proof
/// file under the second, and `show BUNDLE` prints it. The lines of the answer go to `out`, one piece each.
pub fn run<F: Files, S: Sink>(alloc: Global, words: &[String], files: &mut F, out: &mut S) -> Status
    // After `check`, the bytes under the bundle's name, where they are told, stand for a bundle, and every
    // bundle that they stand for is true.
    ensures yes { result ≡ Status.Yes → IsYes (F.told files.old) (map string_bytes words.now) }
    // Each answer comes only for its cause, and prints its lines.
    ensures ends { Ends
        (HasReply (F.told files.old)
        (ReadFailed (F.faults files.old) (F.faults files.new)
        (F.read_faults files.old) (F.read_faults files.new))
        (map string_bytes words.now))
        (output (S.written out.old) (S.written out.new) (S.faults out.old) (S.faults out.new)) result }
    // Where the files are told and no read fails, the one verdict on them is what the call ends with.
    ensures decided { IsDecided (F.told files.old) (Rose (F.faults files.old) (F.faults files.new))
        (map string_bytes words.now)
        (output (S.written out.old) (S.written out.new) (S.faults out.old) (S.faults out.new)) result }
    ensures contents_stay { F.told files.new ≡ F.told files.old }
    ensures quiet { result ≢ Status.FileFault → result ≢ Status.OutputFault → result ≢ Status.Memory →
        F.faults files.new ≡ F.faults files.old }
{
    match answer_to(alloc, words, files) {
        Ok(answer) => print_answer(out, &answer),
        Err(Memory) => Status::Memory,
    }
}

fn answer_to<F: Files>(alloc: Global, words: &[String], files: &mut F) -> Result<Answer, Memory>
    ensures answer { IfOk result (IsWordsAnswer (F.told files.old)
        (ReadFailed (F.faults files.old) (F.faults files.new)
        (F.read_faults files.old) (F.read_faults files.new))
        (map string_bytes words.now)) }
    ensures contents_stay { F.told files.new ≡ F.told files.old }
    ensures quiet { IfOk result (λ a. a.status ≢ Status.FileFault → F.faults files.new ≡ F.faults files.old) }
{
    match check_names(words) {
        Some((bundle, proof)) => Ok(check(alloc, bundle, proof, files)?),
        None => match show_name(words) {
            Some(bundle) => Ok(show(alloc, bundle, files)?),
            None => Ok(usage(alloc)?),
        },
    }
}

fn usage(alloc: Global) -> Result<Answer, Memory>
    ensures { IfOk result (λ a. a ≡ answer_of no_command) }
{
    with_line(alloc, Status::Usage, report::usage(alloc)?)
}

/// The names of the bundle and of the proof file, where the words are those of `check`.
fn check_names(words: &[String]) -> Option<(&str, &str)>
    ensures some { IfSome result (λ p. map string_bytes words.now ≡ words_of (asks_check p.0.now p.1.now)) }
    ensures none { IfNone result ((bundle proof : List ℕ) →
        map string_bytes words.now ≢ words_of (asks_check bundle proof)) }
{
    if words.len() == 3 && is_text(&words[0], "check") {
        Some((words[1].as_str(), words[2].as_str()))
    } else {
        None
    }
}

/// The name of the bundle, where the words are those of `show`.
fn show_name(words: &[String]) -> Option<&str>
    ensures some { IfSome result (λ b. map string_bytes words.now ≡ words_of (asks_show b.now)) }
    ensures none { IfNone result ((bundle : List ℕ) →
        map string_bytes words.now ≢ words_of (asks_show bundle)) }
{
    if words.len() == 2 && is_text(&words[0], "show") {
        Some(words[1].as_str())
    } else {
        None
    }
}

fn is_text(word: &String, text: &str) -> bool
    ensures { IsTrue result ↔ (string_bytes word.now ≡ text.now) }
{
    word.as_str() == text
}

fn print_answer<S: Sink>(out: &mut S, answer: &Answer) -> Status
    ensures { IsPrintedAs
        (output (S.written out.old) (S.written out.new) (S.faults out.old) (S.faults out.new))
        answer.now result }
{
    match put_lines(out, &answer.lines) {
        Ok(()) => answer.status,
        Err(SinkFault::Failed) => Status::OutputFault,
    }
}

/// Puts the lines one by one, and no further one after a fault.
fn put_lines<S: Sink>(out: &mut S, lines: &Lines<Lines<u8>>) -> Result<(), SinkFault>
    ensures printed { OnOk result (IsPrinted
        (output (S.written out.old) (S.written out.new) (S.faults out.old) (S.faults out.new))
        lines.now) }
    ensures cut_off { OnErr result (IsCutOff
        (output (S.written out.old) (S.written out.new) (S.faults out.old) (S.faults out.new))
        lines.now) }
{
    for line in &lines.items {
        out.put(line.as_slice())?;
    }
    Ok(())
}

#[cfg(test)]
mod tests;
