//! The first fault of a procedure, a method or a module's body.

ghost use Rattle.std.specs.Prelude.{◌≡◌, true, map, option_map, IfOk};
ghost use Rattle.rel_lang.specs.Scope.{body_scope};
ghost use Rattle.rel_lang.specs.State as state;
ghost use Rattle.rel_lang.specs.View.{effect_of, clause_of, spec_of, proc_of, sig_of, body_of, block_of, type_of};
ghost use Rattle.rel_flaws.specs.Code as code;
ghost use Rattle.rel_flaws.specs.Flaws.{first_of};
ghost use Rattle.rel_flaws.specs.View.{tables_seen, layers_seen, flaws_of, fault_of, pass_of};
ghost use Rattle.rel_types.specs.Items as items;
ghost use Rattle.rel_types.specs.Lookups.{SameLookups};
ghost use Rattle.rel_types.specs.OwnView.{AreLayers, setting_of, proc_setting, sig_setting, callees_in};
ghost use Rattle.rel_types.specs.declared.own.Own as O;

use crate::around::{Around, Globals};
use crate::items::{clause_fault, flaws_of_effects, names_unknown_class};
use crate::own::{Own, OwnLayers, unknown_in};
use rel_flaws::block::block_fault;
use rel_flaws::code::Code;
use rel_flaws::kind::{Fault, Flaws, Pass};
use rel_flaws::scope::{Layers, Scope, Tables};
use rel_lang::bundle::{Body, Clause, Effect, Proc, Sig, Spec};
use rel_lang::command::Command;
use rel_lang::expr::Ty;
use rel_list::{List, Memory};
use std::alloc::Global;

/// The variables and the writes list of a procedure or a method, whose own variables are in the layers.
pub(crate) fn flaws_of_head<'a>(
    alloc: Global,
    tables: &Tables<'a>,
    globals: Globals<'a, '_>,
    own: Own<'a>,
    layers: &OwnLayers<'a>,
    writes: &List<Effect>,
    ty: &'a Ty,
) -> Result<Flaws, Memory>
    requires { AreLayers own layers.now }
    ensures { IfOk result (λ f. flaws_of f ≡ items.flaws_of_head (tables_seen tables.now) (setting_of globals.entry own.entry) (map effect_of writes.now) (type_of ty.now)) }
{
    let scope = Scope::new(alloc, globals.pre(layers));
    let unknown = unknown_in(tables, own.params) | unknown_in(tables, own.locals);
    let variables = Flaws {
        twice: own.repeats(alloc, globals)?,
        unknown: unknown | names_unknown_class(tables, ty),
        ..Flaws::none()
    };
    Ok(variables.either(flaws_of_effects(tables, globals, &scope, writes)))
}

/// A clause that sees what the layers have.
pub(crate) fn clause_fault_in<'a>(
    alloc: Global,
    tables: &Tables<'a>,
    pass: Pass,
    old: bool,
    layers: Layers<'a, '_>,
    clause: &'a Clause,
) -> Result<Option<Fault>, Memory>
    ensures { IfOk result (λ f. (sc : state.Scope) → SameLookups (layers_seen layers.entry) sc
        → option_map fault_of f ≡ items.clause_fault (tables_seen tables.now) (pass_of pass) old sc (clause_of clause.now)) }
{
    let mut scope = Scope::new(alloc, layers);
    let fault = clause_fault(tables, pass, old, &mut scope, clause)?;
    Ok(fault)
}

/// The clauses of a specification.
pub(crate) fn clauses_fault<'a>(
    alloc: Global,
    tables: &Tables<'a>,
    pass: Pass,
    globals: Globals<'a, '_>,
    layers: &OwnLayers<'a>,
    spec: &'a Spec,
) -> Result<Option<Fault>, Memory>
    ensures { IfOk result (λ f. (o : O.Own) → AreLayers o layers.now
        → option_map fault_of f ≡ items.clauses_fault (tables_seen tables.now) (pass_of pass) (setting_of globals.entry o) (spec_of spec.now)) }
{
    match clause_fault_in(alloc, tables, pass, false, globals.pre(layers), &spec.needs)? {
        Some(fault) => Ok(Some(fault)),
        None => {
            let post = globals.post(layers);
            let fault = clause_fault_in(alloc, tables, pass, true, post, &spec.gives)?;
            Ok(fault)
        }
    }
}

/// The commands of a body.
fn commands_fault<'a>(
    alloc: Global,
    tables: &Tables<'a>,
    pass: Pass,
    around: Around<'a, '_>,
    layers: &OwnLayers<'a>,
    may_call: bool,
    commands: &'a List<Command>,
) -> Result<Option<Fault>, Memory>
    ensures { IfOk result (λ f. (o : O.Own) → AreLayers o layers.now → option_map fault_of f
        ≡ code.block_fault (tables_seen tables.now) (pass_of pass)
        (record { scope = body_scope (setting_of around.entry.globals o); callees = callees_in around.entry; may_call = may_call }) (block_of commands.now)) }
{
    let mut code = Code {
        scope: Scope::new(alloc, around.globals.body(layers)),
        procs: around.procs,
        methods: around.methods,
        may_call,
    };
    let fault = block_fault(tables, pass, &mut code, commands)?;
    Ok(fault)
}

/// The clauses and the commands of a procedure.
fn parts_fault<'a>(
    alloc: Global,
    tables: &Tables<'a>,
    pass: Pass,
    around: Around<'a, '_>,
    layers: &OwnLayers<'a>,
    proc: &'a Proc,
) -> Result<Option<Fault>, Memory>
    ensures { IfOk result (λ f. (o : O.Own) → AreLayers o layers.now → option_map fault_of f
        ≡ first_of (items.clauses_fault (tables_seen tables.now) (pass_of pass) (setting_of around.entry.globals o) (spec_of proc.now.spec))
        (code.block_fault (tables_seen tables.now) (pass_of pass)
        (record { scope = body_scope (setting_of around.entry.globals o); callees = callees_in around.entry; may_call = true }) (block_of proc.now.body.commands))) }
{
    match clauses_fault(alloc, tables, pass, around.globals, layers, &proc.spec)? {
        Some(fault) => Ok(Some(fault)),
        None => commands_fault(
            alloc,
            tables,
            pass,
            around,
            layers,
            true,
            &proc.body.commands,
        ),
    }
}

/// A procedure of a unit or a client, with what else is wrong at its place.
pub(crate) fn proc_fault<'a>(
    alloc: Global,
    tables: &Tables<'a>,
    pass: Pass,
    around: Around<'a, '_>,
    more: Flaws,
    proc: &'a Proc,
) -> Result<Option<Fault>, Memory>
    ensures { IfOk result (λ f. option_map fault_of f
        ≡ items.proc_fault (tables_seen tables.now) (pass_of pass) (proc_setting around.entry.globals (proc_of proc.now)) (callees_in around.entry) (flaws_of more) (proc_of proc.now)) }
{
    let own = Own::of_proc(proc);
    let layers = own.layers(alloc)?;
    let writes = &proc.spec.writes;
    let head = flaws_of_head(
        alloc,
        tables,
        around.globals,
        own,
        &layers,
        writes,
        &proc.result,
    )?;
    match more.either(head).fault(pass, proc.at) {
        Some(fault) => Ok(Some(fault)),
        None => {
            let fault = parts_fault(alloc, tables, pass, around, &layers, proc)?;
            Ok(fault)
        }
    }
}

/// A method of an interface, with what else is wrong at its place.
pub(crate) fn method_fault<'a>(
    alloc: Global,
    tables: &Tables<'a>,
    pass: Pass,
    globals: Globals<'a, '_>,
    more: Flaws,
    method: &'a Sig,
) -> Result<Option<Fault>, Memory>
    ensures { IfOk result (λ f. option_map fault_of f
        ≡ items.sig_fault (tables_seen tables.now) (pass_of pass) (sig_setting globals.entry (sig_of method.now)) (flaws_of more) (sig_of method.now)) }
{
    let own = Own::of_method(method);
    let layers = own.layers(alloc)?;
    let writes = &method.spec.writes;
    let head = flaws_of_head(alloc, tables, globals, own, &layers, writes, &method.result)?;
    match more.either(head).fault(pass, method.at) {
        Some(fault) => Ok(Some(fault)),
        None => {
            let fault = clauses_fault(alloc, tables, pass, globals, &layers, &method.spec)?;
            Ok(fault)
        }
    }
}

/// The body of an init or a method in a module, whose variables are `own`.
pub(crate) fn module_body_fault<'a>(
    alloc: Global,
    tables: &Tables<'a>,
    pass: Pass,
    around: Around<'a, '_>,
    own: Own<'a>,
    body: &'a Body,
) -> Result<Option<Fault>, Memory>
    ensures { IfOk result (λ f. option_map fault_of f
        ≡ items.module_body_fault (tables_seen tables.now) (pass_of pass) (setting_of around.entry.globals own.entry) (callees_in around.entry) (body_of body.now)) }
{
    let layers = own.layers(alloc)?;
    let flaws = Flaws {
        twice: own.clashes_in_module(alloc, around.globals)?,
        unknown: unknown_in(tables, own.locals),
        ..Flaws::none()
    };
    match flaws.fault(pass, body.at) {
        Some(fault) => Ok(Some(fault)),
        None => {
            let commands = &body.commands;
            let fault = commands_fault(alloc, tables, pass, around, &layers, false, commands)?;
            Ok(fault)
        }
    }
}
