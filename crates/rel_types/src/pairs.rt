//! The first fault of a pair of modules.

ghost use Rattle.std.specs.Prelude.{◌≡◌, Option, Some, None, map, option_map, option_and_then, IfOk};
ghost use Rattle.rel_flaws.specs.Alignments.{align_fault};
ghost use Rattle.rel_flaws.specs.Flaws.{first_in};
ghost use Rattle.rel_flaws.specs.View.{flaws_of, fault_of, pass_of};
ghost use Rattle.rel_lang.specs.Lookup.{find_module, find_body};
ghost use Rattle.rel_lang.specs.Scope.{Setting, module_globals};
ghost use Rattle.rel_lang.specs.State.{tables_of};
ghost use Rattle.rel_lang.specs.Syntax as syntax;
ghost use Rattle.rel_lang.specs.View.{pair_of, align_of};
ghost use Rattle.rel_types.specs.Items as items;
ghost use Rattle.rel_types.specs.Known.{IsKnown, BothAre, IsInterfaceSeen, IsModuleSeen};
ghost use Rattle.rel_types.specs.ModuleView.{IsNoInterface, IsGiven, HasOwn, IsBody, AreModules, flaws_of_modules, fault_of_method, inside_fault_of};

use crate::aligned::{BodySeen, aligned_fault, code_of_body, relation_fault};
use crate::around::{Around, Globals};
use crate::given::{no_interface, own_of_method};
use crate::known::{InterfaceSeen, Known, ModuleSeen};
use crate::own::Own;
use rel_flaws::kind::{Fault, Flaws, Pass};
use rel_lang::biprogram::Align;
use rel_lang::bundle::Pair;
use rel_list::{List, Memory, Name};
use std::alloc::Global;

/// The two modules where they are there, what their interface gives, and what no interface gives.
#[derive(Clone, Copy, Drop)]
pub(crate) struct Modules<'a, 's> {
    pub none: &'s InterfaceSeen<'a>,
    pub interface: &'s InterfaceSeen<'a>,
    pub left: Option<&'s ModuleSeen<'a>>,
    pub right: Option<&'s ModuleSeen<'a>>,
}

/// A body in a module, with these variables of its own.
fn body_in<'a, 's>(
    none: &'s InterfaceSeen<'a>,
    interface: &'s InterfaceSeen<'a>,
    seen: &'s ModuleSeen<'a>,
    own: Own<'a>,
) -> BodySeen<'a, 's>
    requires { IsNoInterface none.now }
    ensures { (i : Option syntax.Interface) (m : syntax.Module) (g : Setting) → IsGiven i interface.now → IsModuleSeen m seen.now → HasOwn g own.entry
        → g.interface ≡ items.globals_of_interface i → g.own ≡ module_globals m → IsBody (Some g) (items.signatures_of i) result }
{
    let globals = Globals {
        interface: &interface.globals,
        own: &seen.globals,
    };
    let around = Around {
        globals,
        procs: &none.methods,
        methods: &interface.methods,
    };
    BodySeen { around, own }
}

/// A body that isn't there.
fn no_body<'a, 's>(
    none: &'s InterfaceSeen<'a>,
    interface: &'s InterfaceSeen<'a>,
) -> BodySeen<'a, 's>
    requires { IsNoInterface none.now }
    ensures { (i : Option syntax.Interface) → IsGiven i interface.now → IsBody None (items.signatures_of i) result }
{
    let globals = Globals {
        interface: &none.globals,
        own: &none.globals,
    };
    let around = Around {
        globals,
        procs: &none.methods,
        methods: &interface.methods,
    };
    let own = Own {
        params: None,
        locals: None,
        result: None,
    };
    BodySeen { around, own }
}

/// The body of the init.
fn init_in<'a, 's>(
    none: &'s InterfaceSeen<'a>,
    interface: &'s InterfaceSeen<'a>,
    seen: Option<&'s ModuleSeen<'a>>,
) -> BodySeen<'a, 's>
    requires { IsNoInterface none.now }
    ensures { (i : Option syntax.Interface) (m : Option syntax.Module) → IsGiven i interface.now → BothAre IsModuleSeen m (option_map (λ s. s.now) seen.entry)
        → IsBody (option_map (items.init_in_module i) m) (items.signatures_of i) result }
{
    match seen {
        Some(seen) => {
            let own = Own {
                params: None,
                locals: Some(seen.init),
                result: None,
            };
            body_in(none, interface, seen, own)
        }
        None => no_body(none, interface),
    }
}

/// The body of the method of this name in a module that is there.
fn method_of<'a, 's>(
    none: &'s InterfaceSeen<'a>,
    interface: &'s InterfaceSeen<'a>,
    seen: &'s ModuleSeen<'a>,
    name: &str,
) -> BodySeen<'a, 's>
    requires { IsNoInterface none.now }
    ensures { (i : Option syntax.Interface) (m : syntax.Module) → IsGiven i interface.now → IsModuleSeen m seen.now
        → IsBody (option_map (λ d. items.method_in_module i m (name.now, d)) (find_body name.now m.methods)) (items.signatures_of i) result }
{
    match seen.bodies.get(name) {
        Some(locals) => body_in(
            none,
            interface,
            seen,
            own_of_method(interface, name, locals),
        ),
        None => no_body(none, interface),
    }
}

/// The body of the method of this name.
fn method_in<'a, 's>(
    none: &'s InterfaceSeen<'a>,
    interface: &'s InterfaceSeen<'a>,
    seen: Option<&'s ModuleSeen<'a>>,
    name: &str,
) -> BodySeen<'a, 's>
    requires { IsNoInterface none.now }
    ensures { (i : Option syntax.Interface) (m : Option syntax.Module) → IsGiven i interface.now → BothAre IsModuleSeen m (option_map (λ s. s.now) seen.entry)
        → IsBody (option_and_then (λ n. option_map (λ d. items.method_in_module i n (name.now, d)) (find_body name.now n.methods)) m) (items.signatures_of i) result }
{
    match seen {
        Some(seen) => method_of(none, interface, seen, name),
        None => no_body(none, interface),
    }
}

/// An alignment of two bodies.
fn bodies_fault<'a>(
    alloc: Global,
    known: &Known<'a>,
    pass: Pass,
    left: BodySeen<'a, '_>,
    right: BodySeen<'a, '_>,
    align: &'a Align,
) -> Result<Option<Fault>, Memory>
    ensures { IfOk result (λ f. (b : syntax.Bundle) (i : Option syntax.Interface) (l r : Option Setting) → IsKnown b known.now
        → IsBody l (items.signatures_of i) left.entry → IsBody r (items.signatures_of i) right.entry → option_map fault_of f
        ≡ align_fault (tables_of b) (pass_of pass) (items.module_sides b (pass_of pass) (items.code_in_module i l) (items.code_in_module i r)) (align_of align.now)) }
{
    let first = left.own.layers(alloc)?;
    let second = right.own.layers(alloc)?;
    let left = code_of_body(alloc, left.around, &first, false);
    let right = code_of_body(alloc, right.around, &second, false);
    let fault = aligned_fault(known, pass, left, right, None, align)?;
    Ok(fault)
}

/// The alignment of a method.
fn method_fault<'a>(
    alloc: Global,
    known: &Known<'a>,
    pass: Pass,
    modules: Modules<'a, '_>,
    name: &str,
    align: &'a Align,
) -> Result<Option<Fault>, Memory>
    requires { IsNoInterface modules.none.now }
    ensures { IfOk result (λ f. (b : syntax.Bundle) (i : Option syntax.Interface) (m n : Option syntax.Module) → AreModules b i m n known.now modules.entry → option_map fault_of f
        ≡ align_fault (tables_of b) (pass_of pass) (items.module_sides b (pass_of pass) (items.method_of_side i m name.now) (items.method_of_side i n name.now)) (align_of align.now)) }
{
    let left = method_in(modules.none, modules.interface, modules.left, name);
    let right = method_in(modules.none, modules.interface, modules.right, name);
    let fault = bodies_fault(alloc, known, pass, left, right, align)?;
    Ok(fault)
}

/// The alignments of the methods.
fn methods_fault<'a>(
    alloc: Global,
    known: &Known<'a>,
    pass: Pass,
    modules: Modules<'a, '_>,
    methods: &'a List<(u32, Name, Align)>,
) -> Result<Option<Fault>, Memory>
    requires { IsNoInterface modules.none.now }
    ensures { IfOk result (λ f. (b : syntax.Bundle) (i : Option syntax.Interface) (m n : Option syntax.Module) → AreModules b i m n known.now modules.entry → option_map fault_of f
        ≡ first_in (fault_of_method b (pass_of pass) i m n) (map (λ a. (a.0, a.1, align_of a.2)) methods.now)) }
{
    for method in methods.as_slice() {
        match method_fault(alloc, known, pass, modules, method.1.as_str(), &method.2)? {
            Some(fault) => return Ok(Some(fault)),
            None => {}
        }
    }
    Ok(None)
}

/// The interface of a module.
fn interface_of<'a, 's>(
    known: &'s Known<'a>,
    seen: Option<&'s ModuleSeen<'a>>,
) -> Option<&'s InterfaceSeen<'a>>
    ensures { (b : syntax.Bundle) (m : Option syntax.Module) → IsKnown b known.now → BothAre IsModuleSeen m (option_map (λ s. s.now) seen.entry)
        → BothAre IsInterfaceSeen (items.interface_of_module b m) (option_map (λ s. s.now) result) }
{
    match seen {
        Some(seen) => known.interfaces.find(seen.interface),
        None => None,
    }
}

/// Whether the two modules are there and have different interfaces.
fn differ_in_interface(left: Option<&ModuleSeen<'_>>, right: Option<&ModuleSeen<'_>>) -> bool
    ensures { (m n : Option syntax.Module) → BothAre IsModuleSeen m (option_map (λ s. s.now) left.entry) → BothAre IsModuleSeen n (option_map (λ s. s.now) right.entry)
        → result ≡ items.differ_in_interface m n }
{
    match left {
        Some(left) => match right {
            Some(right) => left.interface != right.interface,
            None => false,
        },
        None => false,
    }
}

/// Whether the aligned methods have these names, in their order.
fn are_named(names: &[&str], methods: &List<(u32, Name, Align)>) -> bool
    ensures { result ≡ items.same_names (map (λ a. a.1) methods.now) (map (λ n. n.now) names.now) }
{
    if names.len() != methods.len() {
        return false;
    }
    for i in 0..names.len() {
        if methods.at(i).1.as_str() != names[i] {
            return false;
        }
    }
    true
}

/// Whether the aligned methods aren't those of the interface in its order, where it is there.
fn misses_methods(interface: Option<&InterfaceSeen<'_>>, methods: &List<(u32, Name, Align)>) -> bool
    ensures { (i : Option syntax.Interface) → BothAre IsInterfaceSeen i (option_map (λ s. s.now) interface.entry) → result ≡ items.misses_methods i (map (λ a. a.1) methods.now) }
{
    match interface {
        Some(interface) => !are_named(interface.names.as_slice(), methods),
        None => false,
    }
}

/// What the pair has wrong at its place.
fn flaws_of_pair(
    left: Option<&ModuleSeen<'_>>,
    right: Option<&ModuleSeen<'_>>,
    interface: Option<&InterfaceSeen<'_>>,
    methods: &List<(u32, Name, Align)>,
) -> Flaws
    ensures { (i : Option syntax.Interface) (m n : Option syntax.Module) → BothAre IsInterfaceSeen i (option_map (λ s. s.now) interface.entry)
        → BothAre IsModuleSeen m (option_map (λ s. s.now) left.entry) → BothAre IsModuleSeen n (option_map (λ s. s.now) right.entry)
        → flaws_of result ≡ flaws_of_modules i m n (map (λ a. a.1) methods.now) }
{
    Flaws {
        unknown: left.is_none() | right.is_none(),
        missing: differ_in_interface(left, right) | misses_methods(interface, methods),
        ..Flaws::none()
    }
}

/// The coupling, then the alignments.
fn inside_fault<'a>(
    alloc: Global,
    known: &Known<'a>,
    pass: Pass,
    modules: Modules<'a, '_>,
    pair: &'a Pair,
) -> Result<Option<Fault>, Memory>
    requires { IsNoInterface modules.none.now }
    ensures { IfOk result (λ f. (b : syntax.Bundle) (i : Option syntax.Interface) (m n : Option syntax.Module) → AreModules b i m n known.now modules.entry
        → option_map fault_of f ≡ inside_fault_of b (pass_of pass) i m n (pair_of pair.now)) }
{
    let left = init_in(modules.none, modules.interface, modules.left);
    let right = init_in(modules.none, modules.interface, modules.right);
    let none = &modules.none.globals;
    let globals = left.around.globals.alone(none);
    let others = right.around.globals.alone(none);
    match relation_fault(alloc, known, pass, false, globals, others, &pair.coupling)? {
        Some(fault) => Ok(Some(fault)),
        None => match bodies_fault(alloc, known, pass, left, right, &pair.init.1)? {
            Some(fault) => Ok(Some(fault)),
            None => {
                let fault = methods_fault(alloc, known, pass, modules, &pair.methods)?;
                Ok(fault)
            }
        },
    }
}

/// The first fault of a pair of modules, with what else is wrong at its place.
pub(crate) fn pair_fault<'a>(
    alloc: Global,
    known: &Known<'a>,
    pass: Pass,
    more: Flaws,
    pair: &'a Pair,
) -> Result<Option<Fault>, Memory>
    ensures { IfOk result (λ f. (b : syntax.Bundle) → IsKnown b known.now → option_map fault_of f
        ≡ items.pair_fault b (pass_of pass) (flaws_of more) (find_module b (pair_of pair.now).left) (find_module b (pair_of pair.now).right)
        (items.interface_of_module b (find_module b (pair_of pair.now).left)) (pair_of pair.now)) }
{
    let none = no_interface(alloc);
    let left = known.modules.find(pair.left.as_str());
    let right = known.modules.find(pair.right.as_str());
    let interface = interface_of(known, left);
    let flaws = more.either(flaws_of_pair(left, right, interface, &pair.methods));
    match flaws.fault(pass, pair.at) {
        Some(fault) => Ok(Some(fault)),
        None => {
            let modules = Modules {
                none: &none,
                interface: interface.unwrap_or(&none),
                left,
                right,
            };
            let fault = inside_fault(alloc, known, pass, modules, pair)?;
            Ok(fault)
        }
    }
}
