//! The first fault of a module.

ghost use Rattle.std.specs.Prelude.{◌≡◌, Option, is_none, map, false, option_map, IfOk};
ghost use Rattle.rel_flaws.specs.Flaws.{flawless, first_of, first_in};
ghost use Rattle.rel_flaws.specs.View.{tables_seen, flaws_of, fault_of, pass_of};
ghost use Rattle.rel_lang.specs.Scope.{globals_of};
ghost use Rattle.rel_lang.specs.Syntax as syntax;
ghost use Rattle.rel_lang.specs.View.{module_of, body_of};
ghost use Rattle.rel_types.specs.Items as items;
ghost use Rattle.rel_types.specs.Known.{BothAre, IsInterfaceSeen};
ghost use Rattle.rel_types.specs.ModuleView.{IsNoInterface, IsGiven, HasOwn, IsAroundModule, flaws_of_module, fault_of_body, bodies_fault_of};

use crate::around::{Around, Globals};
use crate::declarations::add_all;
use crate::given::{flaws_of_declared, no_interface, own_of_method};
use crate::known::InterfaceSeen;
use crate::members::{clause_fault_in, module_body_fault};
use crate::own::Own;
use rel_flaws::index::Index;
use rel_flaws::kind::{Fault, Flaws, Pass};
use rel_flaws::scope::Tables;
use rel_lang::bundle::{Body, Module};
use rel_list::{List, Memory, Name};
use std::alloc::Global;

/// Whether the bodies have these names, in their order.
fn are_named(names: &[&str], methods: &List<(Name, Body)>) -> bool
    ensures { result ≡ items.same_names (map (λ b. b.0) methods.now) (map (λ n. n.now) names.now) }
{
    if names.len() != methods.len() {
        return false;
    }
    for i in 0..names.len() {
        if methods.at(i).0.as_str() != names[i] {
            return false;
        }
    }
    true
}

/// Whether the bodies aren't those of the methods of the interface in its order, where it is there.
fn misses_methods(interface: Option<&InterfaceSeen<'_>>, methods: &List<(Name, Body)>) -> bool
    ensures { (i : Option syntax.Interface) → BothAre IsInterfaceSeen i (option_map (λ s. s.now) interface.entry) → result ≡ items.misses_methods i (map (λ b. b.0) methods.now) }
{
    match interface {
        Some(interface) => !are_named(interface.names.as_slice(), methods),
        None => false,
    }
}

/// Whether the interface isn't there, or the bodies aren't those of its methods.
fn flaws_of_methods(interface: Option<&InterfaceSeen<'_>>, methods: &List<(Name, Body)>) -> Flaws
    ensures { (i : Option syntax.Interface) → BothAre IsInterfaceSeen i (option_map (λ s. s.now) interface.entry)
        → flaws_of result ≡ record flawless { unknown = is_none i; missing = items.misses_methods i (map (λ b. b.0) methods.now) } }
{
    Flaws {
        unknown: interface.is_none(),
        missing: misses_methods(interface, methods),
        ..Flaws::none()
    }
}

/// What the module has wrong at its place.
fn flaws_of_place<'a, 's>(
    alloc: Global,
    tables: &Tables<'a>,
    none: &'s InterfaceSeen<'a>,
    given: &'s InterfaceSeen<'a>,
    interface: Option<&InterfaceSeen<'a>>,
    item: &'a Module,
) -> Result<Flaws, Memory>
    requires { IsNoInterface none.now }
    ensures { IfOk result (λ f. (i : Option syntax.Interface) → IsGiven i given.now → BothAre IsInterfaceSeen i (option_map (λ s. s.now) interface.entry)
        → flaws_of f ≡ flaws_of_module (tables_seen tables.now) i (module_of item.now)) }
{
    let globals = flaws_of_declared(alloc, tables, none, given, &item.globals)?;
    Ok(globals.either(flaws_of_methods(interface, &item.methods)))
}

/// The body of a method.
fn method_fault<'a>(
    alloc: Global,
    tables: &Tables<'a>,
    pass: Pass,
    given: &InterfaceSeen<'a>,
    around: Around<'a, '_>,
    name: &str,
    body: &'a Body,
) -> Result<Option<Fault>, Memory>
    ensures { IfOk result (λ f. (i : Option syntax.Interface) (m : syntax.Module) → IsGiven i given.now → IsAroundModule i m around.entry → option_map fault_of f
        ≡ items.module_body_fault (tables_seen tables.now) (pass_of pass) (items.method_in_module i m (name.now, body_of body.now)) (items.signatures_of i) (body_of body.now)) }
{
    let own = own_of_method(given, name, &body.locals);
    let fault = module_body_fault(alloc, tables, pass, around, own, body)?;
    Ok(fault)
}

/// The bodies of the methods.
fn methods_fault<'a>(
    alloc: Global,
    tables: &Tables<'a>,
    pass: Pass,
    given: &InterfaceSeen<'a>,
    around: Around<'a, '_>,
    methods: &'a List<(Name, Body)>,
) -> Result<Option<Fault>, Memory>
    ensures { IfOk result (λ f. (i : Option syntax.Interface) (m : syntax.Module) → IsGiven i given.now → IsAroundModule i m around.entry → option_map fault_of f
        ≡ first_in (fault_of_body (tables_seen tables.now) (pass_of pass) i m) (map (λ b. (b.0, body_of b.1)) methods.now)) }
{
    for method in methods.as_slice() {
        match method_fault(
            alloc,
            tables,
            pass,
            given,
            around,
            method.0.as_str(),
            &method.1,
        )? {
            Some(fault) => return Ok(Some(fault)),
            None => {}
        }
    }
    Ok(None)
}

/// The variables of the body of the init.
fn own_of_init<'a>(item: &'a Module) -> Own<'a>
    ensures { (i : Option syntax.Interface) → HasOwn (items.init_in_module i (module_of item.now)) result }
{
    Own {
        params: None,
        locals: Some(&item.init.locals),
        result: None,
    }
}

/// The body of the init, then those of the methods.
fn bodies_fault<'a>(
    alloc: Global,
    tables: &Tables<'a>,
    pass: Pass,
    given: &InterfaceSeen<'a>,
    around: Around<'a, '_>,
    item: &'a Module,
) -> Result<Option<Fault>, Memory>
    ensures { IfOk result (λ f. (i : Option syntax.Interface) → IsGiven i given.now → IsAroundModule i (module_of item.now) around.entry
        → option_map fault_of f ≡ bodies_fault_of (tables_seen tables.now) (pass_of pass) i (module_of item.now)) }
{
    match module_body_fault(alloc, tables, pass, around, own_of_init(item), &item.init)? {
        Some(fault) => Ok(Some(fault)),
        None => {
            let fault = methods_fault(alloc, tables, pass, given, around, &item.methods)?;
            Ok(fault)
        }
    }
}

/// The invariant, then the bodies.
fn inside_fault<'a, 's>(
    alloc: Global,
    tables: &Tables<'a>,
    pass: Pass,
    none: &'s InterfaceSeen<'a>,
    given: &'s InterfaceSeen<'a>,
    item: &'a Module,
) -> Result<Option<Fault>, Memory>
    requires { IsNoInterface none.now }
    ensures { IfOk result (λ f. (i : Option syntax.Interface) → IsGiven i given.now → option_map fault_of f
        ≡ first_of (items.clause_fault (tables_seen tables.now) (pass_of pass) false (globals_of (items.init_in_module i (module_of item.now))) (module_of item.now).invariant)
        (bodies_fault_of (tables_seen tables.now) (pass_of pass) i (module_of item.now))) }
{
    let mut own = Index::new(alloc);
    add_all(&mut own, &item.globals, true)?;
    let globals = Globals {
        interface: &given.globals,
        own: &own,
    };
    let around = Around {
        globals,
        procs: &none.methods,
        methods: &given.methods,
    };
    let seen = globals.alone(&none.globals);
    match clause_fault_in(alloc, tables, pass, false, seen, &item.invariant)? {
        Some(fault) => Ok(Some(fault)),
        None => {
            let fault = bodies_fault(alloc, tables, pass, given, around, item)?;
            Ok(fault)
        }
    }
}

/// The first fault of a module, with what is known of its interface and what else is wrong at its place.
pub(crate) fn module_fault<'a>(
    alloc: Global,
    tables: &Tables<'a>,
    pass: Pass,
    more: Flaws,
    interface: Option<&InterfaceSeen<'a>>,
    item: &'a Module,
) -> Result<Option<Fault>, Memory>
    ensures { IfOk result (λ f. (i : Option syntax.Interface) → BothAre IsInterfaceSeen i (option_map (λ s. s.now) interface.entry)
        → option_map fault_of f ≡ items.module_fault (tables_seen tables.now) (pass_of pass) (flaws_of more) i (module_of item.now)) }
{
    let none = no_interface(alloc);
    let given = interface.unwrap_or(&none);
    let flaws = flaws_of_place(alloc, tables, &none, given, interface, item)?;
    match more.either(flaws).fault(pass, item.at) {
        Some(fault) => Ok(Some(fault)),
        None => {
            let fault = inside_fault(alloc, tables, pass, &none, given, item)?;
            Ok(fault)
        }
    }
}
