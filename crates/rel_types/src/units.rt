//! The first fault of a unit.

ghost use Rattle.std.specs.Prelude.{◌≡◌, [], map, option_map, IfOk};
ghost use Rattle.rel_lang.specs.Scope.{unit_setting};
ghost use Rattle.rel_lang.specs.Typed.{signature_of_proc};
ghost use Rattle.rel_lang.specs.View.{unit_of, proc_of};
ghost use Rattle.rel_flaws.specs.Inference.{is_among};
ghost use Rattle.rel_flaws.specs.View.{tables_seen, flaws_of, fault_of, pass_of};
ghost use Rattle.rel_types.specs.Items as items;
ghost use Rattle.rel_types.specs.OwnView.{proc_setting, callees_in};

use crate::around::{Around, Globals};
use crate::called::add_procs;
use crate::declarations::add_all;
use crate::items::flaws_of_globals;
use crate::members::proc_fault;
use crate::names::add_name;
use rel_flaws::index::Index;
use rel_flaws::kind::{Fault, Flaws, Pass};
use rel_flaws::scope::Tables;
use rel_lang::bundle::{Proc, UnitItem};
use rel_list::{List, Memory};
use std::alloc::Global;

/// The first fault of procedures, each of a name that doesn't stand before.
fn procs_fault<'a>(
    alloc: Global,
    tables: &Tables<'a>,
    pass: Pass,
    around: Around<'a, '_>,
    procs: &'a List<Proc>,
) -> Result<Option<Fault>, Memory>
    ensures { IfOk result (λ f. option_map fault_of f ≡ items.first_named (λ q. q.name)
        (λ seen q. items.proc_fault (tables_seen tables.now) (pass_of pass) (proc_setting around.entry.globals q) (callees_in around.entry)
        (items.twice_where (is_among q.name seen)) q) [] (map proc_of procs.now)) }
{
    let mut seen = Index::new(alloc);
    for proc in procs.as_slice() {
        let more = Flaws {
            twice: add_name(&mut seen, proc.name.as_str())?,
            ..Flaws::none()
        };
        match proc_fault(alloc, tables, pass, around, more, proc)? {
            Some(fault) => return Ok(Some(fault)),
            None => {}
        }
    }
    Ok(None)
}

/// The first fault of the procedures of a unit.
fn parts_fault<'a>(
    alloc: Global,
    tables: &Tables<'a>,
    pass: Pass,
    unit: &'a UnitItem,
) -> Result<Option<Fault>, Memory>
    ensures { IfOk result (λ f. option_map fault_of f ≡ items.first_named (λ q. q.name)
        (λ seen q. items.proc_fault (tables_seen tables.now) (pass_of pass) (unit_setting (unit_of unit.now) q) (map signature_of_proc (unit_of unit.now).procs)
        (items.twice_where (is_among q.name seen)) q) [] (unit_of unit.now).procs) }
{
    let none = Index::new(alloc);
    let mut own = Index::new(alloc);
    add_all(&mut own, &unit.globals, true)?;
    let globals = Globals {
        interface: &none,
        own: &own,
    };
    let methods = Index::new(alloc);
    let mut procs = Index::new(alloc);
    add_procs(&mut procs, &unit.procs)?;
    let around = Around {
        globals,
        procs: &procs,
        methods: &methods,
    };
    let fault = procs_fault(alloc, tables, pass, around, &unit.procs)?;
    Ok(fault)
}

/// The first fault of a unit, with what else is wrong at its place.
pub(crate) fn unit_fault<'a>(
    alloc: Global,
    tables: &Tables<'a>,
    pass: Pass,
    more: Flaws,
    unit: &'a UnitItem,
) -> Result<Option<Fault>, Memory>
    ensures { IfOk result (λ f. option_map fault_of f ≡ items.unit_fault (tables_seen tables.now) (pass_of pass) (flaws_of more) (unit_of unit.now)) }
{
    let none = Index::new(alloc);
    let before = Globals {
        interface: &none,
        own: &none,
    };
    let flaws = flaws_of_globals(alloc, tables, before, &unit.globals)?;
    match more.either(flaws).fault(pass, unit.at) {
        Some(fault) => Ok(Some(fault)),
        None => {
            let fault = parts_fault(alloc, tables, pass, unit)?;
            Ok(fault)
        }
    }
}
