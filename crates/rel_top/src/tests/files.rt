//! Files and output, in memory and real.

use rel_io::{FileFault, Files, HostFiles, HostSink, MemFiles, MemSink, Sink};
use rel_list::{List, Memory, Name};
use std::alloc::Global;
use std::fmt::Display;
use std::test::Fail;
use std::{fs, io};

/// An output that takes nothing.
#[derive(Drop)]
struct Full;

impl Print for Full {
    fn print<D: Display + Drop>(&self, _value: D) -> io::Result<()> {
        Ok(())
    }

    fn println<D: Display + Drop>(&self, _value: D) -> io::Result<()> {
        Ok(())
    }

    fn write_all(&self, _bytes: &[u8]) -> io::Result<()> {
        Ok(())
    }

    fn write_some(&self, _bytes: &[u8]) -> io::Result<usize> {
        Ok(0)
    }
}

fn numbers(alloc: Global, given: &[u64]) -> Result<List<u64>, Memory> {
    let mut numbers = List::new(alloc);
    for number in given {
        numbers.push(*number)?;
    }
    Ok(numbers)
}

/// What six calls answer where these are to fail: F where a call fails, L where there are too many bytes.
fn answers_of_files(alloc: Global, fails: &[u64]) -> Result<String, Fail> {
    let mut one = List::new(alloc);
    let mut items = Vec::new(alloc);
    items.extend_from_slice(b"abc")?;
    one.push((Name::new(alloc, "one")?, List { items }))?;
    let mut files = MemFiles::new(one, numbers(alloc, fails)?);
    let mut answers = String::new(alloc);
    for limit in [3u64, 2] {
        answers.push(letter_of(files.read(alloc, "one", limit).err()))?;
    }
    answers.push(letter_of(files.read(alloc, "two", 9).err()))?;
    answers.push(letter_of(files.write(alloc, "two", b"de").err()))?;
    answers.push(letter_of(files.write(alloc, "one", b"fghi").err()))?;
    answers.push(letter_of(files.read(alloc, "two", 9).err()))?;
    for name in ["one", "two"] {
        answers.push(' ')?;
        let content = files.bytes(name).unwrap_or(b"none");
        for byte in content {
            answers.push(char::from(*byte))?;
        }
    }
    Ok(answers)
}

fn letter_of(fault: Option<FileFault>) -> char {
    match fault {
        None => '.',
        Some(FileFault::Failed) => 'F',
        Some(FileFault::TooLong) => 'L',
        Some(FileFault::Memory) => 'M',
    }
}

#[test]
fn files_in_memory_fail_at_the_calls_named_and_where_a_file_is_missing(
    rt: HostRuntime,
) -> Result<(), Fail> {
    let alloc = rt.alloc();
    assert_eq!(rt; answers_of_files(alloc, &[])?.as_str(), ".LF... fghi de");
    assert_eq!(rt; answers_of_files(alloc, &[0])?.as_str(), "FLF... fghi de");
    assert_eq!(rt;
        answers_of_files(alloc, &[1, 3])?.as_str(),
        ".FFF.F fghi none"
    );
    assert_eq!(rt; answers_of_files(alloc, &[4, 5])?.as_str(), ".LF.FF abc de");
    Ok(())
}

/// What four calls answer where these are to fail, and what was put.
fn answers_of_sink(alloc: Global, fails: &[u64]) -> Result<String, Fail> {
    let mut sink = MemSink::new(alloc, 4, numbers(alloc, fails)?)?;
    let mut answers = String::new(alloc);
    for piece in ["ab", "cde", "", "fg"] {
        answers.push(if sink.put(piece.as_bytes()).is_ok() {
            '.'
        } else {
            'F'
        })?;
    }
    answers.push(' ')?;
    for byte in sink.bytes() {
        answers.push(char::from(*byte))?;
    }
    Ok(answers)
}

#[test]
fn a_sink_in_memory_fails_at_the_calls_named_and_where_a_piece_does_not_fit(
    rt: HostRuntime,
) -> Result<(), Fail> {
    let alloc = rt.alloc();
    assert_eq!(rt; answers_of_sink(alloc, &[])?.as_str(), ".F.. abfg");
    assert_eq!(rt; answers_of_sink(alloc, &[0])?.as_str(), "F..F cde");
    assert_eq!(rt; answers_of_sink(alloc, &[2, 3])?.as_str(), ".FFF ab");
    Ok(())
}

#[test]
fn real_files_are_read_as_they_were_written(rt: HostRuntime) -> Result<(), Fail> {
    let alloc = rt.alloc();
    let mut content = Vec::new(alloc);
    for _ in 0..3000 {
        content.extend_from_slice(b"abc")?;
    }
    let mut files = HostFiles::new(&rt);
    assert_eq!(rt;
        letter_of(
            files
                .write(alloc, "rel_io_test.txt", content.as_slice())
                .err()
        ),
        '.'
    );
    let whole = files.read(alloc, "rel_io_test.txt", 9000);
    let longer = files.read(alloc, "rel_io_test.txt", 8999);
    fs::remove_file(&rt, "rel_io_test.txt")?;
    assert_eq!(rt;
        whole.ok().ok_or("no content")?.as_slice(),
        content.as_slice()
    );
    assert_eq!(rt; letter_of(longer.err()), 'L');
    assert_eq!(rt;
        letter_of(files.read(alloc, "rel_io_test.txt", 9000).err()),
        'F'
    );
    assert_eq!(rt;
        letter_of(files.write(alloc, "rel_io_missing/a", b"a").err()),
        'F'
    );
    Ok(())
}

#[test]
fn an_output_that_takes_nothing_of_a_piece_fails(rt: HostRuntime) -> Result<(), Fail> {
    let mut output = HostSink::new(&rt);
    assert!(rt; output.put(b"a piece\n").is_ok());
    let mut full = HostSink::new(Full);
    assert!(rt; full.put(b"").is_ok());
    assert!(rt; full.put(b"a").is_err());
    Ok(())
}
