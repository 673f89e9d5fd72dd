//! Relation formulas and alignments, about two sides that may name different things.

ghost use Rattle.std.specs.Prelude.{◌≡◌, List, option_map, IfOk};
ghost use Rattle.rel_flaws.specs.View.{fault_of, pass_of, layers_seen};
ghost use Rattle.rel_flaws.specs.CodeView.{code_of};
ghost use Rattle.rel_flaws.specs.Alignments.{Sides as BothSides, align_fault as fault_of_align};
ghost use Rattle.rel_lang.specs.Lookup.{judgements_of};
ghost use Rattle.rel_lang.specs.Scope.{Setting, body_scope};
ghost use Rattle.rel_lang.specs.State as state;
ghost use Rattle.rel_lang.specs.State.{tables_of};
ghost use Rattle.rel_lang.specs.Syntax as syntax;
ghost use Rattle.rel_lang.specs.Typed.{Signature};
ghost use Rattle.rel_lang.specs.View.{rel_clause_of, align_of};
ghost use Rattle.rel_types.specs.Items as items;
ghost use Rattle.rel_types.specs.Known.{IsKnown};
ghost use Rattle.rel_types.specs.Lookups.{SameLookups, SameCode, SameSettings};
ghost use Rattle.rel_types.specs.Called.{SameCallees};
ghost use Rattle.rel_types.specs.OwnView.{AreLayers, setting_of, callees_in};
ghost use Rattle.rel_types.specs.declared.own.Own as O;

use crate::around::Around;
use crate::known::Known;
use crate::own::{Own, OwnLayers};
use rel_flaws::alignment::align_fault;
use rel_flaws::code::Code;
use rel_flaws::kind::{Fault, Pass};
use rel_flaws::scope::{Layers, Scope};
use rel_flaws::sides::Sides;
use rel_lang::biprogram::Align;
use rel_lang::bundle::RelClause;
use rel_list::Memory;
use std::alloc::Global;

/// A relation formula about the variables of the two sides.
pub(crate) fn relation_fault<'a>(
    alloc: Global,
    known: &Known<'a>,
    pass: Pass,
    old: bool,
    left: Layers<'a, '_>,
    right: Layers<'a, '_>,
    clause: &'a RelClause,
) -> Result<Option<Fault>, Memory>
    ensures { IfOk result (λ f. (b : syntax.Bundle) (l r : state.Scope) → IsKnown b known.now → SameLookups (layers_seen left.entry) l → SameLookups (layers_seen right.entry) r
        → option_map fault_of f ≡ items.rel_clause_fault (tables_of b) (pass_of pass) old l r (rel_clause_of clause.now)) }
{
    let mut left = Scope::new(alloc, left);
    let mut right = Scope::new(alloc, right);
    let fault = crate::items::rel_clause_fault(
        &known.tables,
        pass,
        old,
        &mut left,
        &mut right,
        clause,
    )?;
    Ok(fault)
}

/// A body: what surrounds it, and what it has of its own.
#[derive(Clone, Copy, Drop)]
pub(crate) struct BodySeen<'a, 's> {
    pub around: Around<'a, 's>,
    pub own: Own<'a>,
}

/// What a body can name, whose own variables are in the layers.
pub(crate) fn code_of_body<'a, 's>(
    alloc: Global,
    around: Around<'a, 's>,
    own: &'s OwnLayers<'a>,
    may_call: bool,
) -> Code<'a, 's>
    ensures { (o : O.Own) (g : Setting) (ss : List Signature) → AreLayers o own.now → SameSettings (setting_of around.entry.globals o) g → SameCallees (callees_in around.entry) ss
        → SameCode (code_of result) (record { scope = body_scope g; callees = ss; may_call = may_call }) }
{
    Code {
        scope: Scope::new(alloc, around.globals.body(own)),
        procs: around.procs,
        methods: around.methods,
        may_call,
    }
}

/// An alignment of the code of the two sides, which is that of procedures of these units where there are any.
pub(crate) fn aligned_fault<'a>(
    known: &Known<'a>,
    pass: Pass,
    left: Code<'a, '_>,
    right: Code<'a, '_>,
    units: Option<(&'a str, &'a str)>,
    align: &'a Align,
) -> Result<Option<Fault>, Memory>
    ensures { IfOk result (λ f. (b : syntax.Bundle) (s : BothSides) → IsKnown b known.now → SameCode (code_of left.entry) s.left → SameCode (code_of right.entry) s.right
        → s.judgements ≡ judgements_of b.items → s.units ≡ option_map (λ u. (u.0.now, u.1.now)) units.entry
        → option_map fault_of f ≡ fault_of_align (tables_of b) (pass_of pass) s (align_of align.now)) }
{
    let mut sides = Sides {
        left,
        right,
        judgements: &known.judgements,
        units,
    };
    let fault = align_fault(&known.tables, pass, &mut sides, align)?;
    Ok(fault)
}
