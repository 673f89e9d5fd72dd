//! Biprograms and weavings.

ghost use Rattle.std.specs.Prelude.{◌≡◌, ℕ, [], ◌∷◌, ◌++◌, map, OnOk, codes};
ghost use Rattle.rel_lang.specs.Syntax as syntax;
ghost use Rattle.rel_lang.specs.Text.{word, named, counted, sides, show_rel, show_loop};
ghost use Rattle.rel_lang.specs.Text.{show_biform, show_bicommands, show_biblock};
ghost use Rattle.rel_lang.specs.Text.{show_act, show_place_numbers, show_weave_step, show_align};
ghost use Rattle.rel_lang.specs.View.{rel_of, loop_of, biform_of, biblock_of, act_of, weave_step_of, align_of};
ghost use Rattle.rel_show.specs.Written.{written};

use crate::command::{show_block, show_command};
use crate::formula::show_formulas;
use crate::relation::{show_rel_behind, show_rels};
use crate::several::{Element, Ended, show_each};
use crate::text::{show_count, show_name, show_title, show_word};
use rel_lang::biprogram::{Act, Align, BiCommand, BiForm, BiLoop, WeaveStep};
use rel_lang::relation::RelFormula;
use rel_list::{List, Memory, Name};

#[tactic(auto, using(crate::proofs::Writing::writing))]
fn show_loop(out: &mut Vec<u8>, l: &BiLoop) -> Result<(), Memory>
    ensures { OnOk result (out.new.items ≡ out.old.items ++ written (show_loop 1 (loop_of l.now))) }
{
    show_word(out, "while")?;
    show_formulas(out, &l.tests.0, &l.tests.1)?;
    show_word(out, "inv")?;
    show_formulas(out, &l.invs.0, &l.invs.1)?;
    show_rel_behind(out, "rel", &l.rel)?;
    show_word(out, "align")?;
    show_rels(out, &l.guards.0, &l.guards.1)
}

#[cycle(show_bicommands)]
#[tactic(auto, using(crate::proofs::Biprograms::biprograms))]
fn show_biform(out: &mut Vec<u8>, form: &BiForm) -> Result<(), Memory>
    ensures { OnOk result (out.new.items ≡ out.old.items ++ written (show_biform 1 (biform_of form.now))) }
{
    match form {
        BiForm::Split(left, right) => {
            show_word(out, "split")?;
            show_block(out, left)?;
            show_block(out, right)
        }
        BiForm::Sync(atom) => {
            show_word(out, "sync")?;
            show_command(out, atom)
        }
        BiForm::SyncCall(call, judgement) => {
            show_word(out, "sync")?;
            show_command(out, call)?;
            show_title(out, "using", judgement)
        }
        BiForm::If(left, right, yes, no) => {
            show_word(out, "if")?;
            show_formulas(out, left, right)?;
            show_biblock(out, yes)?;
            show_word(out, "else")?;
            show_biblock(out, no)
        }
        BiForm::While(head, body) => {
            show_loop(out, head)?;
            show_biblock(out, body)
        }
        BiForm::Link(x, y) => show_link(out, x, y),
        BiForm::Note(r) => show_rel_behind(out, "note", r),
    }
}

/// Each command with a semicolon behind it, between braces.
#[cycle(show_bicommands)]
#[tactic(auto, using(crate::proofs::Writing::writing))]
fn show_biblock(out: &mut Vec<u8>, commands: &List<BiCommand>) -> Result<(), Memory>
    ensures { OnOk result (out.new.items ≡ out.old.items ++ written (show_biblock 1 (biblock_of commands.now))) }
{
    show_word(out, "{")?;
    show_bicommands(out, commands)?;
    show_word(out, "}")
}

#[cycle(show_bicommands)]
fn show_bicommands(out: &mut Vec<u8>, commands: &List<BiCommand>) -> Result<(), Memory>
    ensures { OnOk result (out.new.items ≡ out.old.items ++ written (show_bicommands 1 1 (biblock_of commands.now))) }
{
    for command in &commands.items {
        show_biform(out, &command.form)?;
        show_word(out, ";")?;
    }
    Ok(())
}

#[tactic(auto, using(crate::proofs::Writing::writing))]
fn show_link(out: &mut Vec<u8>, x: &Name, y: &Name) -> Result<(), Memory>
    ensures { OnOk result (out.new.items ≡ out.old.items
        ++ written (word (codes "link") ∷ sides (named x.now ∷ []) (named y.now ∷ []))) }
{
    show_title(out, "link", x)?;
    show_title(out, "|", y)
}

#[tactic(auto, using(crate::proofs::Writing::writing))]
fn show_turn(
    out: &mut Vec<u8>,
    rel: &RelFormula,
    left: &RelFormula,
    right: &RelFormula,
) -> Result<(), Memory>
    ensures { OnOk result (out.new.items ≡ out.old.items ++ written (word (codes "while")
        ∷ sides (show_rel 1 (rel_of rel.now)) (sides (show_rel 1 (rel_of left.now)) (show_rel 1 (rel_of right.now))))) }
{
    show_rel_behind(out, "while", rel)?;
    show_word(out, "|")?;
    show_rels(out, left, right)
}

#[tactic(auto, using(crate::proofs::Writing::writing))]
fn show_act(out: &mut Vec<u8>, act: &Act) -> Result<(), Memory>
    ensures { OnOk result (out.new.items ≡ out.old.items ++ written (show_act (act_of act.now))) }
{
    match act {
        Act::Seq(left, right) => {
            show_word(out, "seq")?;
            show_count(out, *left)?;
            show_count(out, *right)
        }
        Act::Sync => show_word(out, "sync"),
        Act::Call(judgement) => show_title(out, "call", judgement),
        Act::If => show_word(out, "if"),
        Act::While(rel, left, right) => show_turn(out, rel, left, right),
        Act::Link(x, y) => show_link(out, x, y),
        Act::Note(r) => show_rel_behind(out, "note", r),
        Act::Drop => show_word(out, "drop"),
    }
}

struct Numbers;

impl Element for Numbers {
    type Item = u32;

    ghost Tree = { ℕ };

    ghost view = { λ n. n };

    ghost marks = { λ _ n. counted n ∷ [] };

    fn show(&self, out: &mut Vec<u8>, n: &u32) -> Result<(), Memory> {
        show_count(out, *n)
    }
}

struct Steps;

impl Element for Steps {
    type Item = WeaveStep;

    ghost Tree = { syntax.WeaveStep };

    ghost view = { weave_step_of };

    ghost marks = { λ _. show_weave_step };

    #[tactic(auto, using(crate::proofs::Repetitions::places))]
    fn show(&self, out: &mut Vec<u8>, step: &WeaveStep) -> Result<(), Memory> {
        show_word(out, "at")?;
        show_each(out, &Numbers, &step.place)?;
        show_act(out, &step.act)
    }
}

#[tactic(auto, using(crate::proofs::Writing::writing))]
fn show_woven(out: &mut Vec<u8>, steps: &List<WeaveStep>) -> Result<(), Memory>
    ensures { OnOk result (out.new.items ≡ out.old.items ++ written (show_align (syntax.Woven (map weave_step_of steps.now)))) }
{
    let step = Ended {
        element: &Steps,
        word: ";",
    };
    show_word(out, "weave")?;
    show_word(out, "{")?;
    show_each(out, &step, steps)?;
    show_word(out, "}")
}

#[tactic(auto, using(crate::proofs::Writing::writing))]
pub(crate) fn show_align(out: &mut Vec<u8>, align: &Align) -> Result<(), Memory>
    ensures { OnOk result (out.new.items ≡ out.old.items ++ written (show_align (align_of align.now))) }
{
    match align {
        Align::Given(commands) => {
            show_word(out, "bi")?;
            show_biblock(out, commands)
        }
        Align::Woven(steps) => show_woven(out, steps),
    }
}
