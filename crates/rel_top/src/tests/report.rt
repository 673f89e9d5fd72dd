//! The lines of each verdict.

ghost use Rattle.std.specs.Prelude.{IsTrue};
ghost use Rattle.rel_lang.specs.View.{bundle_of};
ghost use Rattle.rel_report.specs.Lines.{IsAbout};

use rel_decls::parse_bundle;
use rel_lang::bundle::Bundle;
use rel_lang::fault::{LexKind, TypeKind};
use rel_list::{Boxed, List, Memory};
use rel_report::{Verdict, report};
use std::alloc::Global;
use std::test::Fail;

/// A bundle of three items. Boxed, since a function that drops one of its own is too large for the check.
fn bundle(alloc: Global) -> Result<Boxed<Bundle>, Memory> {
    let text = "class Cell { } unit Sum { } client Use : Stack { }";
    if text.len() > 4096 {
        return Err(Memory);
    }
    let Ok(bundle) = parse_bundle(alloc, text.as_bytes()) else {
        return Err(Memory);
    };
    Boxed::new(alloc, bundle)
}

/// Whether an item that the verdict names is one of the bundle's, and a yes has a count for each of them.
fn is_about(verdict: &Verdict, bundle: &Bundle) -> bool
    ensures { IsTrue result → IsAbout verdict.now (bundle_of bundle.now).items }
{
    let items = bundle.items.len();
    match verdict {
        Verdict::BadStep(_, _, item, _) => (*item as usize) < items,
        Verdict::OpenNodes(_, _, item, _) => (*item as usize) < items,
        Verdict::Yes(counts) => counts.len() == items,
        _ => true,
    }
}

/// Whether these are the verdict's lines.
fn reads(
    alloc: Global,
    verdict: &Verdict,
    bundle: &Bundle,
    expected: &str,
) -> Result<bool, Memory> {
    if bundle.items.len() > 4096 || !is_about(verdict, bundle) {
        return Ok(false);
    }
    let lines = report(alloc, verdict, bundle)?;
    let mut text = Vec::new(alloc);
    for line in lines.as_slice() {
        text.extend_from_slice(line.as_slice())?;
    }
    Ok(text.as_slice() == expected.as_bytes())
}

fn counts(alloc: Global) -> Result<List<u32>, Memory> {
    let mut counts = List::new(alloc);
    for count in [0, 4294967295, 2] {
        counts.push(count)?;
    }
    Ok(counts)
}

/// The number of the first verdict that has other lines.
fn first_other(
    alloc: Global,
    bundle: &Bundle,
    table: &[(Verdict, &str)],
) -> Result<Option<usize>, Memory> {
    for (number, (verdict, expected)) in table.iter().enumerate() {
        if !reads(alloc, verdict, bundle, expected)? {
            return Ok(Some(number));
        }
    }
    Ok(None)
}

#[test]
fn each_verdict_has_its_lines(rt: HostRuntime) -> Result<(), Fail> {
    let alloc = rt.alloc();
    let bundle = bundle(alloc)?;
    let counts = counts(alloc)?;
    let table = [
        (Verdict::TooLargeBundle, "refused TooLarge bundle\n"),
        (Verdict::NotUtf8(0), "refused NotUtf8 at 0\n"),
        (
            Verdict::Lexical(LexKind::WideLiteral, 12),
            "refused Lexical WideLiteral at 12\n",
        ),
        (Verdict::Syntax(345), "refused Syntax at 345\n"),
        (Verdict::TooDeep(6), "refused TooDeep at 6\n"),
        (Verdict::TooMany(4194304), "refused TooMany at 4194304\n"),
        (
            Verdict::Typing(TypeKind::NotVisible, 78),
            "refused Typing NotVisible at 78\n",
        ),
        (Verdict::NotBuilt, "refused NotBuilt bundle\n"),
        (Verdict::TooLargeProof, "refused TooLarge proof\n"),
        (Verdict::NotJson, "refused NotJson\n"),
        (Verdict::MalformedFile, "refused Malformed file\n"),
        (Verdict::MalformedProof(3), "refused Malformed proof 3\n"),
        (
            Verdict::MalformedStep(3, 10),
            "refused Malformed proof 3 step 10\n",
        ),
        (Verdict::TooLong(9), "refused TooLong proof 9\n"),
        (
            Verdict::ProofCount(1, 18446744073709551615),
            "refused ProofCount 1 of 18446744073709551615\n",
        ),
        (
            Verdict::BadStep(5, 7, 2, 27),
            "refused BadStep obligation 5 step 7 in client Use at 27\n",
        ),
        (
            Verdict::OpenNodes(2, 1, 0, 15),
            "refused OpenNodes 2 obligation 1 in class Cell at 15\n",
        ),
        (
            Verdict::Yes(counts),
            "class Cell: 0 obligations\nunit Sum: 4294967295 obligations\nclient Use: 2 obligations\nyes: 3 items, 4294967297 obligations\n",
        ),
    ];
    assert!(rt; first_other(alloc, bundle.get(), table.as_slice())? == None);
    Ok(())
}
