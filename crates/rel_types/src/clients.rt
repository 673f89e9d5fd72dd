//! The first fault of a client.

ghost use Rattle.std.specs.Prelude.{◌≡◌, [], List as Listed, Option, is_some, is_none, map, option_map, IfOk};
ghost use Rattle.rel_flaws.specs.CodeView.{callees_seen};
ghost use Rattle.rel_flaws.specs.Flaws.{flawless};
ghost use Rattle.rel_flaws.specs.Inference.{is_among};
ghost use Rattle.rel_flaws.specs.View.{tables_seen, flaws_of, fault_of, pass_of};
ghost use Rattle.rel_lang.specs.Lookup.{find_proc, main_name};
ghost use Rattle.rel_lang.specs.Syntax as syntax;
ghost use Rattle.rel_lang.specs.Syntax.{Word};
ghost use Rattle.rel_lang.specs.Typed.{signature_of_proc};
ghost use Rattle.rel_lang.specs.View.{client_of, proc_of};
ghost use Rattle.rel_types.specs.Called.{SameCallees};
ghost use Rattle.rel_types.specs.ClientView as view;
ghost use Rattle.rel_types.specs.ClientView.{IsAroundClient, fault_of_proc};
ghost use Rattle.rel_types.specs.Items as items;
ghost use Rattle.rel_types.specs.Known.{BothAre, IsInterfaceSeen};
ghost use Rattle.rel_types.specs.ModuleView.{IsNoInterface, IsGiven};

use crate::around::{Around, Globals};
use crate::called::add_procs;
use crate::declarations::add_all;
use crate::given::{flaws_of_declared, no_interface};
use crate::known::InterfaceSeen;
use crate::members::proc_fault;
use crate::names::add_name;
use rel_flaws::code::Callee;
use rel_flaws::index::Index;
use rel_flaws::kind::{Fault, Flaws, Pass};
use rel_flaws::scope::Tables;
use rel_lang::bundle::{Client, Proc};
use rel_list::{List, Memory};
use std::alloc::Global;

fn has_main(procs: &Index<'_, Callee<'_>>) -> bool
    ensures { (ps : Listed syntax.Proc) → SameCallees (callees_seen procs.now) (map signature_of_proc ps) → result ≡ is_some (find_proc main_name ps) }
{
    procs.has("main")
}

fn is_method(methods: &Index<'_, Callee<'_>>, name: &str) -> bool
    ensures { (i : Option syntax.Interface) → SameCallees (callees_seen methods.now) (items.signatures_of i)
        → result ≡ is_among name.now (map (λ m. m.name) (items.methods_of_interface i)) }
{
    methods.has(name)
}

/// Whether the procedure is a `main` that has parameters.
fn is_main_with_parameters(proc: &Proc) -> bool
    ensures { result ≡ view.is_main_with_parameters (proc_of proc.now) }
{
    proc.name.as_str() == "main" && proc.params.len() > 0
}

/// What a procedure has wrong at its place as one of a client, where its name may stand before it.
fn flaws_of_proc(methods: &Index<'_, Callee<'_>>, was_there: bool, proc: &Proc) -> Flaws
    ensures { (i : Option syntax.Interface) (names : Listed Word) → SameCallees (callees_seen methods.now) (items.signatures_of i) → was_there ≡ is_among (proc_of proc.now).name names
        → flaws_of result ≡ items.flaws_of_client_proc i names (proc_of proc.now) }
{
    Flaws {
        twice: was_there | is_method(methods, proc.name.as_str()),
        no_main: is_main_with_parameters(proc),
        ..Flaws::none()
    }
}

/// A procedure, whose name may stand before it.
fn client_proc_fault<'a>(
    alloc: Global,
    tables: &Tables<'a>,
    pass: Pass,
    around: Around<'a, '_>,
    was_there: bool,
    proc: &'a Proc,
) -> Result<Option<Fault>, Memory>
    ensures { IfOk result (λ f. (i : Option syntax.Interface) (c : syntax.Client) (names : Listed Word) → IsAroundClient i c around.entry → was_there ≡ is_among (proc_of proc.now).name names
        → option_map fault_of f ≡ fault_of_proc (tables_seen tables.now) (pass_of pass) i c names (proc_of proc.now)) }
{
    let flaws = flaws_of_proc(around.methods, was_there, proc);
    let fault = proc_fault(alloc, tables, pass, around, flaws, proc)?;
    Ok(fault)
}

/// The procedures.
fn procs_fault<'a>(
    alloc: Global,
    tables: &Tables<'a>,
    pass: Pass,
    around: Around<'a, '_>,
    procs: &'a List<Proc>,
) -> Result<Option<Fault>, Memory>
    ensures { IfOk result (λ f. (i : Option syntax.Interface) (c : syntax.Client) → IsAroundClient i c around.entry
        → option_map fault_of f ≡ items.first_named (λ q. q.name) (fault_of_proc (tables_seen tables.now) (pass_of pass) i c) [] (map proc_of procs.now)) }
{
    let mut names = Index::new(alloc);
    for proc in procs.as_slice() {
        let was_there = add_name(&mut names, proc.name.as_str())?;
        match client_proc_fault(alloc, tables, pass, around, was_there, proc)? {
            Some(fault) => return Ok(Some(fault)),
            None => {}
        }
    }
    Ok(None)
}

/// Whether the interface or a `main` isn't there.
fn flaws_of_parts(interface: Option<&InterfaceSeen<'_>>, procs: &Index<'_, Callee<'_>>) -> Flaws
    ensures { (i : Option syntax.Interface) (ps : Listed syntax.Proc) → BothAre IsInterfaceSeen i (option_map (λ s. s.now) interface.entry)
        → SameCallees (callees_seen procs.now) (map signature_of_proc ps) → flaws_of result ≡ record flawless { unknown = is_none i; no_main = is_none (find_proc main_name ps) } }
{
    Flaws {
        unknown: interface.is_none(),
        no_main: !has_main(procs),
        ..Flaws::none()
    }
}

/// The first fault of a client, whose procedures have this around them and whose declarations have these flaws.
fn around_fault<'a>(
    alloc: Global,
    tables: &Tables<'a>,
    pass: Pass,
    more: Flaws,
    declared: Flaws,
    interface: Option<&InterfaceSeen<'a>>,
    around: Around<'a, '_>,
    client: &'a Client,
) -> Result<Option<Fault>, Memory>
    ensures { IfOk result (λ f. (i : Option syntax.Interface) → BothAre IsInterfaceSeen i (option_map (λ s. s.now) interface.entry) → IsAroundClient i (client_of client.now) around.entry
        → flaws_of declared ≡ items.flaws_of_globals (tables_seen tables.now) (items.globals_of_interface i) (client_of client.now).globals
        → option_map fault_of f ≡ items.client_fault (tables_seen tables.now) (pass_of pass) (flaws_of more) i (client_of client.now)) }
{
    let flaws = more.either(declared.either(flaws_of_parts(interface, around.procs)));
    match flaws.fault(pass, client.at) {
        Some(fault) => Ok(Some(fault)),
        None => {
            let fault = procs_fault(alloc, tables, pass, around, &client.procs)?;
            Ok(fault)
        }
    }
}

/// The first fault of a client, with what its interface gives.
fn given_fault<'a, 's>(
    alloc: Global,
    tables: &Tables<'a>,
    pass: Pass,
    more: Flaws,
    none: &'s InterfaceSeen<'a>,
    given: &'s InterfaceSeen<'a>,
    interface: Option<&InterfaceSeen<'a>>,
    client: &'a Client,
) -> Result<Option<Fault>, Memory>
    requires { IsNoInterface none.now }
    ensures { IfOk result (λ f. (i : Option syntax.Interface) → BothAre IsInterfaceSeen i (option_map (λ s. s.now) interface.entry) → IsGiven i given.now
        → option_map fault_of f ≡ items.client_fault (tables_seen tables.now) (pass_of pass) (flaws_of more) i (client_of client.now)) }
{
    let declared = flaws_of_declared(alloc, tables, none, given, &client.globals)?;
    let mut own = Index::new(alloc);
    add_all(&mut own, &client.globals, true)?;
    let mut procs = Index::new(alloc);
    add_procs(&mut procs, &client.procs)?;
    let globals = Globals {
        interface: &given.globals,
        own: &own,
    };
    let around = Around {
        globals,
        procs: &procs,
        methods: &given.methods,
    };
    let fault = around_fault(
        alloc, tables, pass, more, declared, interface, around, client,
    )?;
    Ok(fault)
}

/// The first fault of a client, with what is known of its interface and what else is wrong at its place.
pub(crate) fn client_fault<'a>(
    alloc: Global,
    tables: &Tables<'a>,
    pass: Pass,
    more: Flaws,
    interface: Option<&InterfaceSeen<'a>>,
    client: &'a Client,
) -> Result<Option<Fault>, Memory>
    ensures { IfOk result (λ f. (i : Option syntax.Interface) → BothAre IsInterfaceSeen i (option_map (λ s. s.now) interface.entry)
        → option_map fault_of f ≡ items.client_fault (tables_seen tables.now) (pass_of pass) (flaws_of more) i (client_of client.now)) }
{
    let none = no_interface(alloc);
    let given = interface.unwrap_or(&none);
    let fault = given_fault(alloc, tables, pass, more, &none, given, interface, client)?;
    Ok(fault)
}
