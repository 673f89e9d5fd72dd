//! What is answered and printed, over files and a sink in memory.

ghost use Rattle.std.specs.Prelude.{◌≡◌, IfOk};
ghost use Rattle.rel_io.specs.Memory.{HaveDistinctNames};

use super::run;
use rel_io::{MemFiles, MemSink};
use rel_list::{List, Memory, Name};
use std::alloc::Global;
use std::process::Abort;
use std::test::Fail;

/// `x := x + 1; x := x + 1` on the left.
const FIRST: &str =
    "unit U { global x : int ; proc p ( ) : int requires true ensures true writes { x } \
    { x := ( x + 1 ) ; x := ( x + 1 ) ; } }\n";

/// `x := x + 2` on the right.
const SECOND: &str =
    "unit V { global x : int ; proc q ( ) : int requires true ensures true writes { x } \
    { x := ( x + 2 ) ; } }\n";

const JUDGE: &str = "judge J : U . p ~ V . q requires ( x =:= x ) ensures ( x =:= x ) \
    bi { split { x := ( x + 1 ) ; x := ( x + 1 ) ; } { x := ( x + 2 ) ; } ; }\n";

const PROOF: &str = "{\"whyrel\":1,\"proofs\":[[[\"neint\",5],\
    [\"farkas\",[[6,\"1\"],[3,\"-1\"],[2,\"-1\"],[1,\"-1\"],[4,\"1\"]]],\
    [\"farkas\",[[6,\"1\"],[3,\"1\"],[2,\"1\"],[1,\"1\"],[4,\"-1\"]]]]]}";

const CHECK: [&str; 3] = ["check", "sum.rel", "sum.json"];

const YES: &str = "0|unit U: 0 obligations\nunit V: 0 obligations\n\
    judge J: 1 obligations\nyes: 3 items, 1 obligations\n";

const USAGE: &str = "2|usage: whyrel check BUNDLE PROOF | prove BUNDLE OUT BUDGET | \
    obligations BUNDLE | show BUNDLE | big N BUDGET\n";

const NO_BUNDLE: &str = "1|refused NotBuilt bundle\n";

const NO_PROOF: &str = "1|refused NotBuilt proof\n";

const BUNDLE_FAULT: &str = "3|file fault: sum.rel\n";

const PROOF_FAULT: &str = "3|file fault: sum.json\n";

/// A call of the program: its words, what stands in the two files, and which reads and puts fail.
#[derive(Clone, Copy)]
struct Call<'a> {
    words: &'a [&'a str],
    bundle: &'a [u8],
    proof: &'a [u8],
    file_fails: &'a [u64],
    sink_fails: &'a [u64],
}

/// The call that judges the bundle by the proof, where nothing fails.
fn checking<'a>(bundle: &'a [u8], proof: &'a [u8]) -> Call<'a> {
    Call {
        words: &CHECK,
        bundle,
        proof,
        file_fails: &[],
        sink_fails: &[],
    }
}

fn file(alloc: Global, name: &str, content: &[u8]) -> Result<(Name, List<u8>), Memory>
    ensures { IfOk result (λ file. file.0 ≡ name.now) }
{
    let name = Name::new(alloc, name)?;
    let items = Vec::from_slice(alloc, content)?;
    Ok((name, List { items }))
}

fn two_files(alloc: Global, bundle: &[u8], proof: &[u8]) -> Result<List<(Name, List<u8>)>, Memory>
    ensures { IfOk result HaveDistinctNames }
{
    let mut files = List::new(alloc);
    files.push(file(alloc, "sum.rel", bundle)?)?;
    files.push(file(alloc, "sum.json", proof)?)?;
    Ok(files)
}

fn numbers(alloc: Global, given: &[u64]) -> Result<List<u64>, Memory> {
    let mut numbers = List::new(alloc);
    for number in given {
        numbers.push(*number)?;
    }
    Ok(numbers)
}

fn texts(alloc: Global, given: &[&str]) -> Result<Vec<String>, Memory> {
    let mut texts = Vec::new(alloc);
    for text in given {
        texts.push(String::from_str(alloc, text)?)?;
    }
    Ok(texts)
}

/// Whether these bytes stand under the name.
fn holds(files: &MemFiles, name: &str, content: &[u8]) -> bool {
    match files.bytes(name) {
        Some(bytes) => bytes == content,
        None => false,
    }
}

/// The status, and what was printed. The files stay as they are.
fn outcome(alloc: Global, call: Call<'_>) -> Result<String, Fail> {
    let words = texts(alloc, call.words)?;
    let files = two_files(alloc, call.bundle, call.proof)?;
    let mut files = MemFiles::new(files, numbers(alloc, call.file_fails)?);
    let mut sink = MemSink::new(alloc, 262_144, numbers(alloc, call.sink_fails)?)?;
    let status = run(alloc, words.as_slice(), &mut files, &mut sink) as u8;
    if !holds(&files, "sum.rel", call.bundle) || !holds(&files, "sum.json", call.proof) {
        return Err(Fail::from("a file was changed"));
    }
    let printed = str::from_utf8(sink.bytes())?;
    Ok(format!(in alloc; "{status}|{printed}")?)
}

/// The text with another piece in each place of the old one, which stands there.
fn replaced(alloc: Global, text: &str, old: &str, new: &str) -> Result<String, Fail> {
    text.find(old).ok_or("the piece isn't there")?;
    let mut changed = String::new(alloc);
    for (number, part) in text.split(old).enumerate() {
        if number > 0 {
            changed.push_str(new)?;
        }
        changed.push_str(part)?;
    }
    Ok(changed)
}

fn good(alloc: Global) -> Result<String, Fail> {
    Ok(format!(in alloc; "{FIRST}{SECOND}{JUDGE}")?)
}

/// The good bundle with another piece in each place of the old one.
fn good_but(alloc: Global, old: &str, new: &str) -> Result<String, Fail> {
    replaced(alloc, good(alloc)?.as_str(), old, new)
}

#[test]
fn a_true_bundle_and_its_proof_give_yes(rt: HostRuntime) -> Result<(), Fail> {
    let bundle = good(rt.alloc())?;
    assert_eq!(rt; bundle.len(), 368);
    let call = checking(bundle.as_bytes(), PROOF.as_bytes());
    assert_eq!(rt; outcome(rt.alloc(), call)?.as_str(), YES);
    Ok(())
}

/// The call prints one line and ends so, whichever puts after the first fail. A first one that fails
/// prints nothing.
fn puts_one_line(
    rt: &impl Abort,
    alloc: Global,
    case: &str,
    call: Call<'_>,
    expected: &str,
) -> Result<(), Fail> {
    assert_eq!(rt; outcome(alloc, call)?.as_str(), expected, "{case}");
    let full = Call {
        sink_fails: &[0],
        ..call
    };
    assert_eq!(rt; outcome(alloc, full)?.as_str(), "4|", "{case}");
    let later = Call {
        sink_fails: &[1],
        ..call
    };
    assert_eq!(rt; outcome(alloc, later)?.as_str(), expected, "{case}");
    Ok(())
}

/// The bundle is refused with this line, and the proof isn't read.
fn refuses_bundle(
    rt: &impl Abort,
    alloc: Global,
    case: &str,
    bundle: &[u8],
    expected: &str,
) -> Result<(), Fail> {
    let call = checking(bundle, PROOF.as_bytes());
    puts_one_line(rt, alloc, case, call, expected)?;
    let without_bundle = Call {
        file_fails: &[0],
        ..call
    };
    puts_one_line(rt, alloc, case, without_bundle, BUNDLE_FAULT)?;
    let without_proof = Call {
        file_fails: &[1],
        ..call
    };
    puts_one_line(rt, alloc, case, without_proof, expected)
}

/// The bundle and the proof are read, and then this comes.
fn ends_after_both(
    rt: &impl Abort,
    alloc: Global,
    case: &str,
    call: Call<'_>,
    expected: &str,
) -> Result<(), Fail> {
    puts_one_line(rt, alloc, case, call, expected)?;
    let without_bundle = Call {
        file_fails: &[0],
        ..call
    };
    puts_one_line(rt, alloc, case, without_bundle, BUNDLE_FAULT)?;
    let without_proof = Call {
        file_fails: &[1],
        ..call
    };
    puts_one_line(rt, alloc, case, without_proof, PROOF_FAULT)?;
    let later = Call {
        file_fails: &[2],
        ..call
    };
    puts_one_line(rt, alloc, case, later, expected)
}

/// How the good bundle and proof end with these faults of the files and of the sink.
const FAULTS: [(&[u64], &[u64], &str); 11] = [
    (&[0], &[], BUNDLE_FAULT),
    (&[0, 1], &[], BUNDLE_FAULT),
    (&[1], &[], PROOF_FAULT),
    (&[2], &[], YES),
    (&[0], &[0], "4|"),
    (&[], &[0], "4|"),
    (&[], &[1], "4|unit U: 0 obligations\n"),
    (
        &[],
        &[2],
        "4|unit U: 0 obligations\nunit V: 0 obligations\n",
    ),
    (
        &[],
        &[3],
        "4|unit U: 0 obligations\nunit V: 0 obligations\njudge J: 1 obligations\n",
    ),
    (&[], &[4], YES),
    (&[2], &[4, 5], YES),
];

#[test]
fn each_fault_ends_the_call(rt: HostRuntime) -> Result<(), Fail> {
    let bundle = good(rt.alloc())?;
    let call = checking(bundle.as_bytes(), PROOF.as_bytes());
    for (file_fails, sink_fails, expected) in FAULTS {
        let failing = Call {
            file_fails,
            sink_fails,
            ..call
        };
        assert_eq!(rt;
            outcome(rt.alloc(), failing)?.as_str(),
            expected,
            "{expected}"
        );
    }
    Ok(())
}

const USAGE_WORDS: [(&str, &[&str]); 12] = [
    ("no words", &[]),
    ("one word", &["check"]),
    ("two words", &["check", "sum.rel"]),
    ("four words", &["check", "sum.rel", "sum.json", "sum.json"]),
    ("another command", &["print", "sum.rel"]),
    ("one word of show", &["show"]),
    ("three words of show", &["show", "sum.rel", "sum.json"]),
    ("show in another order", &["sum.rel", "show"]),
    (
        "another command of three words",
        &["prove", "sum.rel", "sum.json"],
    ),
    ("another letter", &["Check", "sum.rel", "sum.json"]),
    ("an empty word", &["", "sum.rel", "sum.json"]),
    ("another order", &["sum.rel", "sum.json", "check"]),
];

#[test]
fn other_words_give_the_usage(rt: HostRuntime) -> Result<(), Fail> {
    let bundle = good(rt.alloc())?;
    let call = checking(bundle.as_bytes(), PROOF.as_bytes());
    for (case, words) in USAGE_WORDS {
        let other = Call { words, ..call };
        puts_one_line(&rt, rt.alloc(), case, other, USAGE)?;
        let faulty = Call {
            file_fails: &[0, 1],
            ..other
        };
        puts_one_line(&rt, rt.alloc(), case, faulty, USAGE)?;
    }
    Ok(())
}

#[test]
fn a_missing_file_is_named(rt: HostRuntime) -> Result<(), Fail> {
    let bundle = good(rt.alloc())?;
    let call = checking(bundle.as_bytes(), PROOF.as_bytes());
    let cases: [(&[&str], &str); 4] = [
        (
            &["check", "none.rel", "sum.json"],
            "3|file fault: none.rel\n",
        ),
        (
            &["check", "sum.rel", "none.json"],
            "3|file fault: none.json\n",
        ),
        (
            &["check", "none.rel", "none.json"],
            "3|file fault: none.rel\n",
        ),
        (&["check", "", "sum.json"], "3|file fault: \n"),
    ];
    for (words, expected) in cases {
        puts_one_line(&rt, rt.alloc(), expected, Call { words, ..call }, expected)?;
    }
    Ok(())
}

#[test]
fn a_refused_bundle_comes_before_a_missing_proof(rt: HostRuntime) -> Result<(), Fail> {
    let call = checking(b"unit", PROOF.as_bytes());
    let missing = Call {
        words: &["check", "sum.rel", "none.json"],
        ..call
    };
    let expected = "1|refused Syntax at 4\n";
    puts_one_line(&rt, rt.alloc(), "no proof", missing, expected)
}

/// The last step of the proof.
const LAST_STEP: &str = ",[\"farkas\",[[6,\"1\"],[3,\"1\"],[2,\"1\"],[1,\"1\"],[4,\"-1\"]]]";

/// Pieces of the good bundle and of its proof, what stands there in their place, and the end. The same piece
/// changes nothing.
const UNFIT: [(&str, &str, &str, &str, &str); 11] = [
    (
        "2",
        "3",
        "5",
        "5",
        "1|refused BadStep obligation 0 step 1 in judge J at 229\n",
    ),
    (
        "2",
        "170141183460469231731687303715884105727",
        "5",
        "5",
        "1|refused BadStep obligation 0 step 1 in judge J at 267\n",
    ),
    (
        "J",
        "J",
        LAST_STEP,
        "",
        "1|refused OpenNodes 1 obligation 0 in judge J at 229\n",
    ),
    (
        "J",
        "Main",
        LAST_STEP,
        "",
        "1|refused OpenNodes 1 obligation 0 in judge Main at 229\n",
    ),
    (
        "judge",
        "// é\njudge",
        LAST_STEP,
        "",
        "1|refused OpenNodes 1 obligation 0 in judge J at 235\n",
    ),
    (
        "J",
        "J",
        "]]]]]}",
        "]]],[\"neint\",5]]]}",
        "1|refused BadStep obligation 0 step 3 in judge J at 229\n",
    ),
    (
        "J",
        "J",
        "]]]]]}",
        "]]],[\"farkas\",[]]]]}",
        "1|refused BadStep obligation 0 step 3 in judge J at 229\n",
    ),
    (
        "J",
        "J",
        "5",
        "4",
        "1|refused BadStep obligation 0 step 0 in judge J at 229\n",
    ),
    (
        "J",
        "J",
        "5",
        "6",
        "1|refused BadStep obligation 0 step 0 in judge J at 229\n",
    ),
    (
        "J",
        "J",
        "[6,",
        "[0,",
        "1|refused BadStep obligation 0 step 1 in judge J at 229\n",
    ),
    (
        "J",
        "J",
        "[6,\"1\"]",
        "[6,\"-1\"]",
        "1|refused BadStep obligation 0 step 1 in judge J at 229\n",
    ),
];

#[test]
fn a_derivation_that_does_not_fit_is_refused_at_its_step(rt: HostRuntime) -> Result<(), Fail> {
    let alloc = rt.alloc();
    for (piece, new, step, other, expected) in UNFIT {
        let bundle = good_but(alloc, piece, new)?;
        let proof = replaced(alloc, PROOF, step, other)?;
        let call = checking(bundle.as_bytes(), proof.as_bytes());
        ends_after_both(&rt, rt.alloc(), expected, call, expected)?;
    }
    Ok(())
}

/// The line of a bundle that is refused for this reason, at this byte.
fn refusal(alloc: Global, why: &str, at: usize) -> Result<String, Fail> {
    Ok(format!(in alloc; "1|refused {why} at {at}\n")?)
}

/// Pieces of the good bundle, each with a text that in its place makes no tokens or no bundle, the reason, and how
/// many bytes into that text the refused token begins.
const ILL_FORMED: [(&str, &str, &str, usize); 18] = [
    ("( x + 2 )", "( x % 2 )", "Lexical BadChar", 4),
    ("unit U", "\u{feff}unit U", "Lexical BadChar", 0),
    ("unit U", "\u{301}unit U", "Lexical BadChar", 0),
    ("unit U", "\u{c}unit U", "Lexical BadChar", 0),
    ("unit U", "/ unit U", "Lexical BadChar", 0),
    (
        "2",
        "170141183460469231731687303715884105728",
        "Lexical WideLiteral",
        0,
    ),
    ("2", "02", "Lexical BadChar", 1),
    ("( x + 2 )", "( ( x + 2 ) )", "Syntax", 12),
    ("( x + 1 )", "( ( x + 1 ) )", "Syntax", 12),
    ("( x + 2 )", "x + 2", "Syntax", 2),
    ("( x + 2 )", "( x * 2 )", "Syntax", 4),
    ("( x + 2 )", "( x + 2", "Syntax", 8),
    ("U", "bi", "Syntax", 0),
    ("J", "judge", "Syntax", 6),
    ("x", "int", "Syntax", 0),
    ("( x =:= x )", "x =:= x", "Syntax", 0),
    ("split {", "sync x := call p ( ) ; split {", "Syntax", 21),
    ("split {", "while true | true { } ; split {", "Syntax", 18),
];

fn refuses_ill_formed(rt: &impl Abort, alloc: Global) -> Result<(), Fail> {
    for (piece, new, why, offset) in ILL_FORMED {
        let bundle = good_but(alloc, piece, new)?;
        let bundle = bundle.as_str();
        let at = bundle.find(new).ok_or("the piece isn't there")?;
        let expected = refusal(alloc, why, at.saturating_add(offset))?;
        refuses_bundle(rt, alloc, bundle, bundle.as_bytes(), expected.as_str())?;
    }
    Ok(())
}

/// What it shows, a text that is the front, so many times the piece, and the back, and the end of the call.
type Hostile<'a> = (&'a str, &'a [u8], &'a [u8], u32, &'a [u8], &'a str);

/// Texts that come near to what a text may not be, from either side.
const HOSTILE: [Hostile<'_>; 25] = [
    ("nothing", b"", b"", 0, b"", NO_BUNDLE),
    ("a comment alone", b"// %", b"", 0, b"", NO_BUNDLE),
    (
        "a byte order mark",
        b"\xef\xbb\xbfunit U { }",
        b"",
        0,
        b"",
        "1|refused Lexical BadChar at 0\n",
    ),
    (
        "a byte that begins nothing",
        b"\xff",
        b"",
        0,
        b"",
        "1|refused NotUtf8 at 0\n",
    ),
    (
        "half a character in a comment",
        b"unit U { } // \xc3",
        b"",
        0,
        b"",
        "1|refused NotUtf8 at 14\n",
    ),
    (
        "a surrogate",
        b"unit \xed\xa0\x80 { }",
        b"",
        0,
        b"",
        "1|refused NotUtf8 at 5\n",
    ),
    (
        "a carriage return alone",
        b"unit U { }\rclass C { }\r",
        b"",
        0,
        b"",
        NO_BUNDLE,
    ),
    (
        "a comment goes on behind a carriage return",
        b"unit U { } // \r %",
        b"",
        0,
        b"",
        NO_BUNDLE,
    ),
    (
        "a place behind carriage returns",
        b"class C { } \r interface",
        b"",
        0,
        b"",
        "1|refused Syntax at 23\n",
    ),
    (
        "a combining character in a name",
        b"unit e\xcc\x81 { }",
        b"",
        0,
        b"",
        NO_BUNDLE,
    ),
    (
        "a combining character alone",
        b"unit \xcc\x81e { }",
        b"",
        0,
        b"",
        "1|refused Lexical BadChar at 5\n",
    ),
    (
        "names that begin like reserved words",
        b"unit globally { } class unit_ { }",
        b"",
        0,
        b"",
        NO_BUNDLE,
    ),
    (
        "a reserved word",
        b"unit unit { }",
        b"",
        0,
        b"",
        "1|refused Syntax at 5\n",
    ),
    (
        "a character that begins nothing",
        b"unit U { } %",
        b"",
        0,
        b"",
        "1|refused Lexical BadChar at 11\n",
    ),
    (
        "a zero too much",
        b"unit U { } 01",
        b"",
        0,
        b"",
        "1|refused Lexical BadChar at 12\n",
    ),
    (
        "a number that is too great",
        b"unit U { proc p ( ) : int requires true ensures true writes { } \
        { result := 170141183460469231731687303715884105728 ; } }",
        b"",
        0,
        b"",
        "1|refused Lexical WideLiteral at 76\n",
    ),
    (
        "the greatest number",
        b"unit U { proc p ( ) : int requires true ensures true writes { } \
        { result := 170141183460469231731687303715884105727 ; } }",
        b"",
        0,
        b"",
        NO_BUNDLE,
    ),
    (
        "a doubled parenthesis",
        b"unit U { proc p ( ) : int requires true ensures true writes { } \
        { result := ( ( 1 + 1 ) ) ; } }",
        b"",
        0,
        b"",
        "1|refused Syntax at 88\n",
    ),
    (
        "a single parenthesis",
        b"unit U { proc p ( ) : int requires true ensures true writes { } \
        { result := ( 1 + 1 ) ; } }",
        b"",
        0,
        b"",
        NO_BUNDLE,
    ),
    (
        "a formula that is 64 deep",
        b"unit U { proc p ( ) : int requires ",
        b"not ",
        63,
        b"true ensures true writes { } { } }",
        NO_BUNDLE,
    ),
    (
        "a formula that is 65 deep",
        b"unit U { proc p ( ) : int requires ",
        b"not ",
        64,
        b"true ensures true writes { } { } }",
        "1|refused TooDeep at 291\n",
    ),
    (
        "no formula 65 deep",
        b"unit U { proc p ( ) : int requires ",
        b"not ",
        64,
        b"; ensures true writes { } { } }",
        "1|refused Syntax at 291\n",
    ),
    (
        "16,384 commands",
        b"unit U { proc p ( ) : int requires true ensures true writes { } { ",
        b"skip ; ",
        16_384,
        b"} }",
        NO_BUNDLE,
    ),
    (
        "16,385 commands",
        b"unit U { proc p ( ) : int requires true ensures true writes { } { ",
        b"skip ; ",
        16_385,
        b"} }",
        "1|refused TooMany at 114754\n",
    ),
    (
        "a character that begins nothing, behind 16,385 commands",
        b"unit U { proc p ( ) : int requires true ensures true writes { } { ",
        b"skip ; ",
        16_385,
        b"} } %",
        "1|refused Lexical BadChar at 114765\n",
    ),
];

fn spelled(alloc: Global, text: Hostile<'_>) -> Result<Vec<u8>, Memory> {
    let (_, front, piece, times, back, _) = text;
    let mut bytes = Vec::from_slice(alloc, front)?;
    for _ in 0..times {
        bytes.extend_from_slice(piece)?;
    }
    bytes.extend_from_slice(back)?;
    Ok(bytes)
}

/// Each kind of refusal of a text comes at its byte, and not where the text is as near to it as can be.
#[test]
fn hostile_texts_end_as_they_are_meant_to(rt: HostRuntime) -> Result<(), Fail> {
    for text in HOSTILE {
        let bytes = spelled(rt.alloc(), text)?;
        refuses_bundle(&rt, rt.alloc(), text.0, bytes.as_slice(), text.5)?;
    }
    Ok(())
}

/// Pieces of the good bundle, each with a text that makes it one of another form.
const OTHER_FORMS: [(&str, &str); 17] = [
    ("{ x } { x := ( x + 1 )", "{ } { x := ( x + 1 )"),
    ("{ x } { x := ( x + 2 )", "{ } { x := ( x + 2 )"),
    ("U . p ~ V . q", "V . q ~ U . p"),
    ("U . p ~ V . q", "U . p ~ U . p"),
    ("split { x := ( x + 1 ) ;", "split { x := ( x + 2 ) ;"),
    ("split { x := ( x + 1 ) ;", "split { x := ( 1 + x ) ;"),
    ("split { x := ( x + 1 ) ;", "split {"),
    ("( x + 2 ) ; } ; }", "( x + 1 ) ; } ; }"),
    ("( x + 2 ) ; } ; }", "( x + 2 ) ; x := x ; } ; }"),
    ("bi { split", "bi { split { } { } ; split"),
    ("judge", "unit W { } judge"),
    ("proc p ( )", "proc p ( y : int )"),
    ("proc q ( )", "proc q ( y : int )"),
    (
        "{ x } { x := ( x + 1 )",
        "{ x } { var y : int ; x := ( x + 1 )",
    ),
    (
        "{ x } { x := ( x + 2 )",
        "{ x } { var y : int ; x := ( x + 2 )",
    ),
    (
        "proc p",
        "proc r ( ) : int requires true ensures true writes { } { } proc p",
    ),
    (
        "proc q",
        "proc r ( ) : int requires true ensures true writes { } { } proc q",
    ),
];

fn are_refused(rt: &impl Abort, alloc: Global, changes: &[(&str, &str)]) -> Result<(), Fail> {
    for (piece, new) in changes {
        let bundle = good_but(alloc, piece, new)?;
        refuses_bundle(rt, alloc, bundle.as_str(), bundle.as_bytes(), NO_BUNDLE)?;
    }
    Ok(())
}

/// The split turned round, then the judgement with it, and the units alone.
#[test]
fn only_the_first_unit_stands_on_the_left(rt: HostRuntime) -> Result<(), Fail> {
    let alloc = rt.alloc();
    let turned = good_but(
        alloc,
        "{ x := ( x + 1 ) ; x := ( x + 1 ) ; } { x := ( x + 2 ) ; }",
        "{ x := ( x + 2 ) ; } { x := ( x + 1 ) ; x := ( x + 1 ) ; }",
    )?;
    refuses_bundle(&rt, alloc, "turned split", turned.as_bytes(), NO_BUNDLE)?;
    let turned = replaced(alloc, turned.as_str(), "U . p ~ V . q", "V . q ~ U . p")?;
    refuses_bundle(&rt, alloc, "turned judgement", turned.as_bytes(), NO_BUNDLE)?;
    let turned = format!(in alloc; "{SECOND}{FIRST}{JUDGE}")?;
    refuses_bundle(&rt, alloc, "turned units", turned.as_bytes(), NO_BUNDLE)
}

#[test]
fn other_items_are_refused(rt: HostRuntime) -> Result<(), Fail> {
    let second_judge = replaced(rt.alloc(), JUDGE, "J", "K")?;
    let second_judge = second_judge.as_str();
    let cases: [([&str; 4], &str); 7] = [
        ([FIRST, SECOND, "", ""], NO_BUNDLE),
        ([FIRST, "", "", ""], NO_BUNDLE),
        (["", "", JUDGE, ""], "1|refused Typing Unknown at 0\n"),
        (
            [FIRST, "unit V { }", JUDGE, ""],
            "1|refused Typing Unknown at 133\n",
        ),
        (
            ["unit U { }", SECOND, JUDGE, ""],
            "1|refused Typing Unknown at 116\n",
        ),
        ([FIRST, JUDGE, SECOND, ""], NO_BUNDLE),
        ([FIRST, SECOND, JUDGE, second_judge], NO_BUNDLE),
    ];
    for ([first, second, third, fourth], line) in cases {
        let bundle = format!(in rt.alloc(); "{first}{second}{third}{fourth}")?;
        let text = bundle.as_str();
        refuses_bundle(&rt, rt.alloc(), text, text.as_bytes(), line)?;
    }
    Ok(())
}

/// Each front of the good bundle that lacks the last brace, from the empty text on. Only where an item ends does it
/// stand for a bundle.
#[test]
fn a_text_that_is_cut_off_is_refused(rt: HostRuntime) -> Result<(), Fail> {
    let bundle = good(rt.alloc())?;
    let ends = [0, 122, 123, 228, 229];
    for len in 0..367 {
        let front = bundle.as_bytes().get(..len).ok_or("a short text")?;
        let call = checking(front, PROOF.as_bytes());
        let end = outcome(rt.alloc(), call)?;
        if ends.contains(&len) {
            assert_eq!(rt; end.as_str(), NO_BUNDLE, "{len}");
        } else {
            assert!(rt; end.as_str().starts_with("1|refused Syntax at "), "{len}");
        }
    }
    let front = bundle.as_bytes().get(..119).ok_or("a short text")?;
    let call = checking(front, PROOF.as_bytes());
    assert_eq!(rt;
        outcome(rt.alloc(), call)?.as_str(),
        "1|refused Syntax at 119\n"
    );
    Ok(())
}

/// Bytes that aren't UTF-8, in the proof file.
fn refuses_other_bytes(rt: &impl Abort, alloc: Global) -> Result<(), Fail> {
    let mut bytes = Vec::from_slice(alloc, PROOF.as_bytes())?;
    bytes.push(255)?;
    let bundle = good(alloc)?;
    let call = checking(bundle.as_bytes(), bytes.as_slice());
    ends_after_both(rt, alloc, "proof", call, NO_PROOF)
}

/// The core between so many fronts and backs.
fn nested(alloc: Global, front: &str, core: &str, back: &str, count: u32) -> Result<String, Fail> {
    let mut text = String::new(alloc);
    for _ in 0..count {
        text.push_str(front)?;
    }
    text.push_str(core)?;
    for _ in 0..count {
        text.push_str(back)?;
    }
    Ok(text)
}

/// A command of a body has depth 1, and one of a split depth 2. So an expression that is 63 deep is refused in the
/// split, at its innermost name, and one that is 65 deep in the body, at its innermost parenthesis.
#[test]
fn an_expression_in_a_split_is_at_most_62_deep(rt: HostRuntime) -> Result<(), Fail> {
    let alloc = rt.alloc();
    for depth in [62, 63, 65] {
        let sum = nested(alloc, "( ", "( x + 2 )", " + 0 )", depth - 2)?;
        let bundle = good_but(alloc, "( x + 2 )", sum.as_str())?;
        let bundle = bundle.as_str();
        let first = bundle.find("( x + 2 )").ok_or("no sum")?;
        let last = bundle.rfind("( x + 2 )").ok_or("no sum")?;
        let expected = match depth {
            62 => String::from_str(alloc, YES)?,
            63 => refusal(alloc, "TooDeep", last + 2)?,
            _ => refusal(alloc, "TooDeep", first)?,
        };
        let call = checking(bundle.as_bytes(), PROOF.as_bytes());
        assert_eq!(rt;
            outcome(alloc, call)?.as_str(),
            expected.as_str(),
            "{depth}"
        );
    }
    Ok(())
}

/// What follows the first member is the repetition that has a limit. The comma of a member that is one too many is
/// refused.
#[test]
fn a_list_has_at_most_16385_members(rt: HostRuntime) -> Result<(), Fail> {
    let alloc = rt.alloc();
    for count in [16_384, 16_385] {
        let more = nested(alloc, ", x ", "", "", count)?;
        let writes = format!(in alloc; "writes {{ x {more}}}")?;
        let bundle = good_but(alloc, "writes { x }", writes.as_str())?;
        let bundle = bundle.as_str();
        let last = bundle.find(", x }").ok_or("no list")?;
        let expected = match count {
            16_384 => String::from_str(alloc, YES)?,
            _ => refusal(alloc, "TooMany", last)?,
        };
        let call = checking(bundle.as_bytes(), PROOF.as_bytes());
        assert_eq!(rt;
            outcome(alloc, call)?.as_str(),
            expected.as_str(),
            "{count}"
        );
    }
    Ok(())
}

/// The good bundle and so many spaces.
fn with_spaces(alloc: Global, count: u32) -> Result<Vec<u8>, Fail> {
    let mut bytes = Vec::from_slice(alloc, good(alloc)?.as_bytes())?;
    for _ in 0..count {
        bytes.push(b' ')?;
    }
    Ok(bytes)
}

#[test]
fn a_bundle_has_at_most_4194304_bytes(rt: HostRuntime) -> Result<(), Fail> {
    let bundle = with_spaces(rt.alloc(), 4_193_936)?;
    assert_eq!(rt; bundle.len(), 4_194_304);
    let call = checking(bundle.as_slice(), PROOF.as_bytes());
    assert_eq!(rt; outcome(rt.alloc(), call)?.as_str(), YES);
    let bundle = with_spaces(rt.alloc(), 4_193_937)?;
    let line = "1|refused TooLarge bundle\n";
    refuses_bundle(&rt, rt.alloc(), "4,194,305 bytes", bundle.as_slice(), line)
}

/// Pieces of the good bundle, each with a text that leaves it as true.
const UNUSUAL: [(&str, &str); 19] = [
    ("; }\n", "; }"),
    ("; }\n", "; } // the end"),
    ("; }\n", "; }//"),
    ("; }\n", "; } // \u{ff} %\n\n"),
    (" ", "\t"),
    (" ", "\r"),
    (" ", "\r\n"),
    (" ", "// 01 % \"\n"),
    ("( x + 1 )", "(x+1)"),
    ("x", "größe"),
    ("x", "_"),
    ("x", "中2"),
    ("x", "x\u{301}"),
    ("x", "globalx"),
    ("x", "int_"),
    ("writes { x }", "writes { x , x }"),
    ("global x", "global y : int ; global x"),
    (
        "ensures ( x =:= x )",
        "ensures ( ( x + result ) =:= ( x - result ) )",
    ),
    ("( x + 2 )", "( ( 7 + x ) - ( 6 - 1 ) )"),
];

fn reads_unusual_bundles(rt: &impl Abort, alloc: Global) -> Result<(), Fail> {
    for (piece, new) in UNUSUAL {
        let bundle = good_but(alloc, piece, new)?;
        let call = checking(bundle.as_bytes(), PROOF.as_bytes());
        assert_eq!(rt; outcome(alloc, call)?.as_str(), YES, "{bundle}");
    }
    Ok(())
}

#[test]
fn the_lines_have_the_names_of_the_items(rt: HostRuntime) -> Result<(), Fail> {
    let alloc = rt.alloc();
    for (piece, new) in [("U", "Ü"), ("V", "U2"), ("J", "j_1")] {
        let bundle = good_but(alloc, piece, new)?;
        let expected = replaced(alloc, YES, piece, new)?;
        let call = checking(bundle.as_bytes(), PROOF.as_bytes());
        assert_eq!(rt; outcome(alloc, call)?.as_str(), expected.as_str(), "{new}");
    }
    Ok(())
}

const NO_PROOF_FILES: [&str; 34] = [
    "",
    " \n\t",
    "{\"whyrel\":1,\"proofs\":[[]]",
    "{\"whyrel\":1,\"proofs\":[[]]}}",
    "[1,[[]]]",
    "{\"whyrel\":2,\"proofs\":[[]]}",
    "{\"whyrel\":1.0,\"proofs\":[[]]}",
    "{\"whyrel\":\"1\",\"proofs\":[[]]}",
    "{\"version\":1,\"proofs\":[[]]}",
    "{\"whyrel\":1,\"proof\":[[]]}",
    "{\"whyrel\":1}",
    "{\"proofs\":[[]]}",
    "{\"whyrel\":1,\"proofs\":[[]],\"note\":0}",
    "{\"whyrel\":1,\"proofs\":[[]],\"whyrel\":2}",
    "{\"whyrel\":1,\"proofs\":[]}",
    "{\"whyrel\":1,\"proofs\":[[],[]]}",
    "{\"whyrel\":1,\"proofs\":[{}]}",
    "{\"whyrel\":1,\"proofs\":[[\"neint\",5]]}",
    "{\"whyrel\":1,\"proofs\":[[[\"notint\",5]]]}",
    "{\"whyrel\":1,\"proofs\":[[[\"neint\"]]]}",
    "{\"whyrel\":1,\"proofs\":[[[\"neint\",5,6]]]}",
    "{\"whyrel\":1,\"proofs\":[[[\"neint\",5.0]]]}",
    "{\"whyrel\":1,\"proofs\":[[[\"neint\",-0]]]}",
    "{\"whyrel\":1,\"proofs\":[[[\"neint\",\"5\"]]]}",
    "{\"whyrel\":1,\"proofs\":[[[\"neint\",4294967296]]]}",
    "{\"whyrel\":1,\"proofs\":[[[\"farkas\",[[6,1]]]]]}",
    "{\"whyrel\":1,\"proofs\":[[[\"farkas\",[[6,\"01\"]]]]]}",
    "{\"whyrel\":1,\"proofs\":[[[\"farkas\",[[6,\"-0\"]]]]]}",
    "{\"whyrel\":1,\"proofs\":[[[\"farkas\",[[6,\"+5\"]]]]]}",
    "{\"whyrel\":1,\"proofs\":[[[\"farkas\",[[6,\"-\"]]]]]}",
    "{\"whyrel\":1,\"proofs\":[[[\"farkas\",[[6,\"\"]]]]]}",
    "{\"whyrel\":1,\"proofs\":[[[\"farkas\",[[6,\"5x\"]]]]]}",
    "{\"whyrel\":1,\"proofs\":[[[\"farkas\",[[6]]]]]}",
    "{\"whyrel\":1,\"proofs\":[[[\"farkas\",[[6,\"170141183460469231731687303715884105728\"]]]]]}",
];

fn refuses_other_proof_files(rt: &impl Abort, alloc: Global) -> Result<(), Fail> {
    let bundle = good(alloc)?;
    for proof in NO_PROOF_FILES {
        let call = checking(bundle.as_bytes(), proof.as_bytes());
        ends_after_both(rt, alloc, proof, call, NO_PROOF)?;
    }
    let arrays = nested(alloc, "[", "", "]", 200)?;
    let proof = format!(in alloc; "{{\"whyrel\":1,\"proofs\":{arrays}}}")?;
    let call = checking(bundle.as_bytes(), proof.as_bytes());
    ends_after_both(rt, alloc, "nested arrays", call, NO_PROOF)
}

/// Of a repeated key the last value counts. The order of the keys doesn't.
fn reads_unusual_proof_files(rt: &impl Abort, alloc: Global) -> Result<(), Fail> {
    let bundle = good(alloc)?;
    for proof in [
        "{\"whyrel\":1,\"proofs\":[[]]}",
        "{\"whyrel\":2,\"proofs\":[[]],\"whyrel\":1}",
        "{\"proofs\":0,\"whyrel\":1,\"proofs\":[[]]}",
        " {\n\"proofs\" : [ [ ] ] ,\t\"whyrel\" : 1 }\r\n",
    ] {
        let call = checking(bundle.as_bytes(), proof.as_bytes());
        let open = "1|refused OpenNodes 1 obligation 0 in judge J at 229\n";
        ends_after_both(rt, alloc, proof, call, open)?;
    }
    Ok(())
}

/// Each reason to refuse a bundle or a proof file, and texts that are unusual and read, with their lines.
#[test]
fn each_reason_has_its_line(rt: HostRuntime) -> Result<(), Fail> {
    let alloc = rt.alloc();
    refuses_ill_formed(&rt, alloc)?;
    are_refused(&rt, alloc, &OTHER_FORMS)?;
    refuses_other_bytes(&rt, alloc)?;
    reads_unusual_bundles(&rt, alloc)?;
    refuses_other_proof_files(&rt, alloc)?;
    reads_unusual_proof_files(&rt, alloc)
}

/// Items of all kinds with each production of the grammar, in the form that is printed.
const WHOLE: &str = "class C { f : int ; next : C ; all_of : rgn ; }\n\
    class D { }\n\
    interface I { global g : rgn ; global h : int ; boundary { g @ f , { null } @ next } init ensures ( \
    g = empty ) writes { g , h } method m ( x : C , n : int ) : int requires ( x in g ) ensures ( result \
    = old ( h ) ) writes { g @ f } ; method k ( ) : rgn requires true ensures false writes { } ; }\n\
    module M : I { global own : C ; invariant all x : C in g { ( 0 <= ( x . f ) ) } ; init { var y : int \
    ; g := empty ; } method m { result := x . f ; } method k { result := g ; } }\n\
    unit U { global x : int ; proc p ( n : int , r : rgn ) : int requires [ true and [ ( n < 3 ) or [ \
    not ( n = 4 ) implies ( r sub alloc ) ] ] ] ensures some c : C in ( r of C ) { ( ( c . f ) = ( 2 * n \
    ) ) } writes { x } { var c : C ; skip ; c := new C ; c . f := ( ( n + 1 ) - 2 ) ; n := c . f ; x := \
    call p ( n , ( ( r union { c } ) meet ( r minus ( r @ next ) ) ) ) ; if ( n = 0 ) { skip ; } else { \
    } ; while ( n < 9 ) inv true { n := ( n + 1 ) ; } ; } }\n\
    client K : I { global mine : C ; proc main ( ) : int requires true ensures true writes { mine } { \
    result := call m ( mine , 170141183460469231731687303715884105727 ) ; } }\n\
    judge J : U . p ~ U . p requires [ ( n =:= n ) and [ left ( n = 1 ) or [ right true implies both \
    false ] ] ] ensures eventually [ agree r @ f and not all left c : C in r { some right d : C in r { ( \
    c =:= d ) } } ] bi { split { skip ; } { } ; sync skip ; sync x := call p ( n , r ) using J ; if true \
    | false { note true ; } else { link c | c ; } ; while ( n < 1 ) | ( n < 2 ) inv true | false rel ( n \
    =:= n ) align true | false { } ; }\n\
    judge L : U . p ~ U . p requires true ensures false weave { at 0 seq 1 2 ; at 0 1 sync ; at 3 call J \
    ; at 4 if ; at 5 while true | false | true ; at 6 link x | y ; at 7 note true ; at 8 4294967295 drop \
    ; }\n\
    pair P : M ~ M { coupling ( g =:= g ) ; init weave { } method m bi { sync result := x . f ; } method \
    k bi { } }\n";

/// What `show` comes to. The printed form is shown as it is, and so is a text that differs from it in what separates
/// tokens, and in a number of a weaving that is too great.
#[test]
fn a_bundle_is_printed_in_one_form(rt: HostRuntime) -> Result<(), Fail> {
    let alloc = rt.alloc();
    let expected = format!(in alloc; "0|{WHOLE}")?;
    let blanks = replaced(alloc, WHOLE, " ", " // a note\n\t")?;
    let great = replaced(alloc, WHOLE, "4294967295", "99999999999")?;
    for text in [WHOLE, blanks.as_str(), great.as_str()] {
        let call = Call {
            words: &["show", "sum.rel"],
            ..checking(text.as_bytes(), b"")
        };
        assert_eq!(rt; outcome(alloc, call)?.as_str(), expected.as_str());
        let failing = Call {
            sink_fails: &[1],
            ..call
        };
        let first = "4|class C { f : int ; next : C ; all_of : rgn ; }\n";
        assert_eq!(rt; outcome(alloc, failing)?.as_str(), first);
    }
    Ok(())
}

/// What isn't a bundle is refused as `check` refuses it, and a bundle that can't be judged is printed.
#[test]
fn show_refuses_a_text_as_check_does(rt: HostRuntime) -> Result<(), Fail> {
    let alloc = rt.alloc();
    for text in HOSTILE {
        let bytes = spelled(alloc, text)?;
        let call = Call {
            words: &["show", "sum.rel"],
            ..checking(bytes.as_slice(), b"")
        };
        let end = outcome(alloc, call)?;
        let (case, expected) = (text.0, text.5);
        if expected == NO_BUNDLE {
            assert!(rt; end.as_str().starts_with("0|"), "{case}");
        } else {
            assert_eq!(rt; end.as_str(), expected, "{case}");
        }
    }
    let call = Call {
        words: &["show", "none.rel"],
        ..checking(b"", b"")
    };
    assert_eq!(rt; outcome(alloc, call)?.as_str(), "3|file fault: none.rel\n");
    Ok(())
}

mod typing;
