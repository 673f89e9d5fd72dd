//! The lines that are printed.

ghost use Rattle.std.specs.Prelude.{◌≡◌, ◌≢◌, IfOk};
ghost use Rattle.rel_decls.specs.declared.fault.TextFault.TheVariants as faults;
ghost use Rattle.rel_flaws.specs.View.{kind_of as type_kind_of};
ghost use Rattle.rel_lang.specs.View.{item_of};
ghost use Rattle.rel_top.specs.Report.{usage_line, fault_line, large_line, refused_line, text_fault_line, type_fault_line, bundle_line, proof_line, kind_of, byte_of, bad_step_line, open_nodes_line, item_line, yes_line};

use rel_decls::TextFault;
use rel_lang::bundle::Item;
use rel_lang::fault::{LexKind, TypeKind};
use rel_list::{Memory, Name};
use rel_types::name_of;
use std::alloc::Global;

const USAGE: &str = "usage: whyrel check BUNDLE PROOF | prove BUNDLE OUT BUDGET | \
    obligations BUNDLE | show BUNDLE | big N BUDGET\n";

pub fn usage(alloc: Global) -> Result<Name, Memory>
    ensures { IfOk result (λ text. text ≡ usage_line) }
{
    Name::new(alloc, USAGE)
}

/// A read of the file failed.
pub fn file_fault(alloc: Global, name: &str) -> Result<Name, Memory>
    ensures { IfOk result (λ text. text ≡ fault_line name.now) }
{
    let text = format!(in alloc; "file fault: {name}\n")?;
    Ok(Name { text })
}

/// The bundle has too many bytes.
pub fn bundle_too_large(alloc: Global) -> Result<Name, Memory>
    ensures { IfOk result (λ text. text ≡ large_line) }
{
    Name::new(alloc, "refused TooLarge bundle\n")
}

fn refused(alloc: Global, why: &str, at: u32) -> Result<Name, Memory>
    ensures { IfOk result (λ text. text ≡ refused_line why.now at) }
{
    let text = format!(in alloc; "refused {why} at {at}\n")?;
    Ok(Name { text })
}

/// The bundle's text has this fault. Want of memory has no line.
pub fn text_fault(alloc: Global, fault: TextFault) -> Result<Name, Memory>
    ensures line { IfOk result (λ text. text ≡ text_fault_line fault) }
    ensures some { IfOk result (λ text. fault ≢ faults.Memory) }
{
    match fault {
        TextFault::NotUtf8(at) => refused(alloc, "NotUtf8", at),
        TextFault::Lexical(LexKind::BadChar, at) => refused(alloc, "Lexical BadChar", at),
        TextFault::Lexical(LexKind::WideLiteral, at) => refused(alloc, "Lexical WideLiteral", at),
        TextFault::Syntax(at) => refused(alloc, "Syntax", at),
        TextFault::TooDeep(at) => refused(alloc, "TooDeep", at),
        TextFault::TooMany(at) => refused(alloc, "TooMany", at),
        TextFault::Memory => Err(Memory),
    }
}

/// The bundle has a fault of this kind first, at this byte.
pub fn type_fault(alloc: Global, kind: TypeKind, at: u32) -> Result<Name, Memory>
    ensures { IfOk result (λ text. text ≡ type_fault_line (record { kind = type_kind_of kind; at = at })) }
{
    match kind {
        TypeKind::Twice => refused(alloc, "Typing Twice", at),
        TypeKind::Unknown => refused(alloc, "Typing Unknown", at),
        TypeKind::Missing => refused(alloc, "Typing Missing", at),
        TypeKind::NoMain => refused(alloc, "Typing NoMain", at),
        TypeKind::NotVisible => refused(alloc, "Typing NotVisible", at),
        TypeKind::WrongArity => refused(alloc, "Typing WrongArity", at),
        TypeKind::Target => refused(alloc, "Typing Target", at),
        TypeKind::OldHere => refused(alloc, "Typing OldHere", at),
        TypeKind::NotCode => refused(alloc, "Typing NotCode", at),
        TypeKind::WrongType => refused(alloc, "Typing WrongType", at),
    }
}

/// The bundle isn't one that can be judged so far.
pub fn bundle_not_built(alloc: Global) -> Result<Name, Memory>
    ensures { IfOk result (λ text. text ≡ bundle_line) }
{
    Name::new(alloc, "refused NotBuilt bundle\n")
}

/// The proof file isn't one that can be read so far.
pub fn proof_not_built(alloc: Global) -> Result<Name, Memory>
    ensures { IfOk result (λ text. text ≡ proof_line) }
{
    Name::new(alloc, "refused NotBuilt proof\n")
}

/// The first word of the item.
fn kind(item: &Item) -> &'static str
    ensures { result.now ≡ kind_of (item_of item.now) }
{
    match item {
        Item::Class(_) => "class",
        Item::Interface(_) => "interface",
        Item::Module(_) => "module",
        Item::UnitItem(_) => "unit",
        Item::Client(_) => "client",
        Item::Judge(_) => "judge",
        Item::Pair(_) => "pair",
    }
}

/// The byte where the item begins.
fn place(item: &Item) -> u32
    ensures { result ≡ byte_of (item_of item.now) }
{
    match item {
        Item::Class(class) => class.at,
        Item::Interface(interface) => interface.at,
        Item::Module(module) => module.at,
        Item::UnitItem(unit) => unit.at,
        Item::Client(client) => client.at,
        Item::Judge(judgement) => judgement.at,
        Item::Pair(pair) => pair.at,
    }
}

/// The step of this number isn't good, in the derivation for the obligation that stands where the item begins.
pub fn bad_step(alloc: Global, item: &Item, step: u32) -> Result<Name, Memory>
    ensures { IfOk result (λ text. text ≡ bad_step_line (item_of item.now) step) }
{
    let (kind, name, at) = (kind(item), name_of(item), place(item));
    let text = format!(in alloc;
        "refused BadStep obligation 0 step {step} in {kind} {name} at {at}\n"
    )?;
    Ok(Name { text })
}

/// So many nodes are open after the last step for that obligation.
pub fn open_nodes(alloc: Global, item: &Item, nodes: u64) -> Result<Name, Memory>
    ensures { IfOk result (λ text. text ≡ open_nodes_line (item_of item.now) nodes) }
{
    let (kind, name, at) = (kind(item), name_of(item), place(item));
    let text = format!(in alloc;
        "refused OpenNodes {nodes} obligation 0 in {kind} {name} at {at}\n"
    )?;
    Ok(Name { text })
}

/// The item has so many obligations.
pub fn item(alloc: Global, item: &Item, obligations: u32) -> Result<Name, Memory>
    ensures { IfOk result (λ text. text ≡ item_line (item_of item.now) obligations) }
{
    let (kind, name) = (kind(item), name_of(item));
    let text = format!(in alloc; "{kind} {name}: {obligations} obligations\n")?;
    Ok(Name { text })
}

/// So many items and obligations are true.
pub fn yes(alloc: Global, items: u32, obligations: u32) -> Result<Name, Memory>
    ensures { IfOk result (λ text. text ≡ yes_line items obligations) }
{
    let text = format!(in alloc; "yes: {items} items, {obligations} obligations\n")?;
    Ok(Name { text })
}
