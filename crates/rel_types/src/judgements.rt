//! The first fault of a judgement.

ghost use Rattle.std.specs.Prelude.{◌≡◌, Option, option_map, IfOk};
ghost use Rattle.rel_flaws.specs.View.{flaws_of, fault_of, pass_of};
ghost use Rattle.rel_lang.specs.Lookup.{Subject, subject_of, find_unit};
ghost use Rattle.rel_lang.specs.Syntax as syntax;
ghost use Rattle.rel_lang.specs.View.{judgement_of};
ghost use Rattle.rel_types.specs.Items as items;
ghost use Rattle.rel_types.specs.Known.{IsKnown};
ghost use Rattle.rel_types.specs.OwnView.{AreLayers};
ghost use Rattle.rel_types.specs.SubjectView.{IsSide, IsNoUnit, IsUnitOf, IsAround};
ghost use Rattle.rel_types.specs.SubjectView as subjects;

use crate::aligned::{aligned_fault, code_of_body, relation_fault};
use crate::around::{Around, Globals};
use crate::known::{Known, UnitSeen};
use crate::own::{Own, OwnLayers};
use rel_flaws::code::unknown_where;
use rel_flaws::index::Index;
use rel_flaws::kind::{Fault, Flaws, Pass};
use rel_lang::bundle::Judgement;
use rel_list::Memory;
use std::alloc::Global;

/// The procedure on one side of a judgement: what surrounds it, and what it has of its own. One that isn't there has nothing.
#[derive(Clone, Copy, Drop)]
pub(crate) struct Side<'a, 's> {
    pub around: Around<'a, 's>,
    pub own: Own<'a>,
    pub is_there: bool,
}

/// What is known of no unit.
fn no_unit<'a>(alloc: Global) -> UnitSeen<'a>
    ensures { IsNoUnit result }
{
    UnitSeen {
        globals: Index::new(alloc),
        procs: Index::new(alloc),
        bodies: Index::new(alloc),
    }
}

/// What is known of the unit of this name, or nothing.
fn unit_of<'a, 's>(known: &'s Known<'a>, none: &'s UnitSeen<'a>, name: &str) -> &'s UnitSeen<'a>
    requires { IsNoUnit none.now }
    ensures { (b : syntax.Bundle) → IsKnown b known.now → IsUnitOf (find_unit b name.now) result.now }
{
    known.units.find(name).unwrap_or(none)
}

fn around_unit<'a, 's>(unit: &'s UnitSeen<'a>, none: &'s UnitSeen<'a>) -> Around<'a, 's>
    ensures { IsAround unit.now none.now result }
{
    let globals = Globals {
        interface: &none.globals,
        own: &unit.globals,
    };
    Around {
        globals,
        procs: &unit.procs,
        methods: &none.procs,
    }
}

/// The procedure of these names.
fn side_of<'a, 's>(
    known: &'s Known<'a>,
    none: &'s UnitSeen<'a>,
    unit: &str,
    proc: &str,
) -> Side<'a, 's>
    requires { IsNoUnit none.now }
    ensures { (b : syntax.Bundle) → IsKnown b known.now → IsSide (subject_of b (unit.now, proc.now)) result }
{
    let unit = unit_of(known, none, unit);
    match unit.bodies.get(proc) {
        Some(own) => Side {
            around: around_unit(unit, none),
            own,
            is_there: true,
        },
        None => Side {
            around: around_unit(none, none),
            own: Own {
                params: None,
                locals: None,
                result: None,
            },
            is_there: false,
        },
    }
}

/// The clauses, then the alignment, where the own variables of each side are in its layers.
fn seen_fault<'a>(
    alloc: Global,
    known: &Known<'a>,
    pass: Pass,
    left: Side<'a, '_>,
    first: &OwnLayers<'a>,
    right: Side<'a, '_>,
    second: &OwnLayers<'a>,
    judgement: &'a Judgement,
) -> Result<Option<Fault>, Memory>
    requires left { AreLayers left.own first.now }
    requires right { AreLayers right.own second.now }
    ensures { IfOk result (λ f. (b : syntax.Bundle) (l r : Option Subject) → IsKnown b known.now → IsSide l left.entry → IsSide r right.entry
        → option_map fault_of f ≡ subjects.parts_fault b (pass_of pass) l r (judgement_of judgement.now)) }
{
    let left = left.around;
    let right = right.around;
    let needs = &judgement.needs;
    let pre = left.globals.pre(first);
    match relation_fault(
        alloc,
        known,
        pass,
        false,
        pre,
        right.globals.pre(second),
        needs,
    )? {
        Some(fault) => Ok(Some(fault)),
        None => {
            let gives = &judgement.gives;
            let post = left.globals.post(first);
            match relation_fault(
                alloc,
                known,
                pass,
                true,
                post,
                right.globals.post(second),
                gives,
            )? {
                Some(fault) => Ok(Some(fault)),
                None => {
                    let units = Some((judgement.left.0.as_str(), judgement.right.0.as_str()));
                    let left = code_of_body(alloc, left, first, true);
                    let right = code_of_body(alloc, right, second, true);
                    let fault = aligned_fault(known, pass, left, right, units, &judgement.align)?;
                    Ok(fault)
                }
            }
        }
    }
}

/// The clauses, then the alignment.
fn parts_fault<'a>(
    alloc: Global,
    known: &Known<'a>,
    pass: Pass,
    left: Side<'a, '_>,
    right: Side<'a, '_>,
    judgement: &'a Judgement,
) -> Result<Option<Fault>, Memory>
    ensures { IfOk result (λ f. (b : syntax.Bundle) (l r : Option Subject) → IsKnown b known.now → IsSide l left.entry → IsSide r right.entry
        → option_map fault_of f ≡ subjects.parts_fault b (pass_of pass) l r (judgement_of judgement.now)) }
{
    let first = left.own.layers(alloc)?;
    let second = right.own.layers(alloc)?;
    let fault = seen_fault(alloc, known, pass, left, &first, right, &second, judgement)?;
    Ok(fault)
}

/// The first fault of a judgement, with what else is wrong at its place.
pub(crate) fn judgement_fault<'a>(
    alloc: Global,
    known: &Known<'a>,
    pass: Pass,
    more: Flaws,
    judgement: &'a Judgement,
) -> Result<Option<Fault>, Memory>
    ensures { IfOk result (λ f. (b : syntax.Bundle) → IsKnown b known.now → option_map fault_of f
        ≡ items.judgement_fault b (pass_of pass) (flaws_of more) (subject_of b (judgement_of judgement.now).left) (subject_of b (judgement_of judgement.now).right)
        (judgement_of judgement.now)) }
{
    let none = no_unit(alloc);
    let left = side_of(
        known,
        &none,
        judgement.left.0.as_str(),
        judgement.left.1.as_str(),
    );
    let right = side_of(
        known,
        &none,
        judgement.right.0.as_str(),
        judgement.right.1.as_str(),
    );
    let flaws = more.either(unknown_where(!left.is_there | !right.is_there));
    match flaws.fault(pass, judgement.at) {
        Some(fault) => Ok(Some(fault)),
        None => {
            let fault = parts_fault(alloc, known, pass, left, right, judgement)?;
            Ok(fault)
        }
    }
}
