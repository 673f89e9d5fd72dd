//! Biprograms: how the commands of two programs go together.

ghost use Rattle.std.specs.Prelude.{◌≡◌, IfOk};

use crate::command::Command;
use crate::copies::push_copy;
use crate::formula::Formula;
use crate::relation::RelFormula;
use rel_list::{Copies, List, Memory, Name, both};

/// A command of a biprogram, and the byte where it begins.
#[cycle(bicommand)]
#[derive(Drop)]
pub struct BiCommand {
    pub at: u32,
    pub form: BiForm,
}

#[cycle(bicommand)]
#[derive(Drop)]
pub enum BiForm {
    /// The first block on the left and the second on the right.
    Split(List<Command>, List<Command>),
    /// An atom that isn't a call, on both sides.
    Sync(Command),
    /// A call on both sides, by the judgement of this name.
    SyncCall(Command, Name),
    If(Formula, Formula, List<BiCommand>, List<BiCommand>),
    While(BiLoop, List<BiCommand>),
    Link(Name, Name),
    Note(RelFormula),
}

/// What a `while` of a biprogram has before its body; each pair has the left one first.
#[derive(Drop)]
pub struct BiLoop {
    pub tests: (Formula, Formula),
    pub invs: (Formula, Formula),
    pub rel: RelFormula,
    pub guards: (RelFormula, RelFormula),
}

/// A step of a weaving, and the byte where it begins.
#[derive(Drop)]
pub struct WeaveStep {
    pub at: u32,
    pub place: List<u32>,
    pub act: Act,
}

/// What a step does at its place.
#[derive(Drop)]
pub enum Act {
    /// Cuts a split behind so many commands of the left block and so many of the right one.
    Seq(u32, u32),
    Sync,
    /// By the judgement of this name.
    Call(Name),
    If,
    /// The relational invariant, and the left and right guards.
    While(RelFormula, RelFormula, RelFormula),
    Link(Name, Name),
    Note(RelFormula),
    Drop,
}

/// How two bodies are aligned.
#[derive(Drop)]
pub enum Align {
    Given(List<BiCommand>),
    Woven(List<WeaveStep>),
}

impl BiCommand {
    #[cycle(copy_bicommand)]
    pub fn copy(&self) -> Result<BiCommand, Memory>
        ensures { IfOk result (λ c. c ≡ self.now) }
    {
        Ok(BiCommand {
            at: self.at,
            form: self.form.copy()?,
        })
    }
}

impl Copies for BiCommand {
    fn copied(&self) -> Result<BiCommand, Memory> {
        self.copy()
    }
}

impl BiForm {
    #[cycle(copy_bicommand)]
    pub fn copy(&self) -> Result<BiForm, Memory>
        ensures { IfOk result (λ f. f ≡ self.now) }
    {
        match self {
            BiForm::Split(left, right) => {
                let (left, right) = both(left.copied(), right.copied())?;
                Ok(BiForm::Split(left, right))
            }
            BiForm::Sync(atom) => Ok(BiForm::Sync(atom.copy()?)),
            BiForm::SyncCall(call, judgement) => {
                let (call, judgement) = both(call.copy(), judgement.copy())?;
                Ok(BiForm::SyncCall(call, judgement))
            }
            BiForm::If(left, right, yes, no) => {
                let tests = both(left.copy(), right.copy());
                let blocks = both(copy_block(yes), copy_block(no));
                let ((left, right), (yes, no)) = both(tests, blocks)?;
                Ok(BiForm::If(left, right, yes, no))
            }
            BiForm::While(head, body) => {
                let (head, body) = both(head.copy(), copy_block(body))?;
                Ok(BiForm::While(head, body))
            }
            BiForm::Link(x, y) => {
                let (x, y) = both(x.copy(), y.copy())?;
                Ok(BiForm::Link(x, y))
            }
            BiForm::Note(r) => Ok(BiForm::Note(r.copy()?)),
        }
    }
}

#[cycle(copy_bicommand)]
fn copy_block(commands: &List<BiCommand>) -> Result<List<BiCommand>, Memory>
    ensures { IfOk result (λ c. c ≡ commands.now) }
{
    let mut copies = commands.empty_beside();
    for command in &commands.items {
        push_copy(&mut copies, command.copy())?;
    }
    Ok(copies)
}

impl BiLoop {
    pub fn copy(&self) -> Result<BiLoop, Memory>
        ensures { IfOk result (λ l. l ≡ self.now) }
    {
        let ((tests, invs), (rel, guards)) = both(self.copy_unary(), self.copy_relational())?;
        Ok(BiLoop {
            tests,
            invs,
            rel,
            guards,
        })
    }

    /// Copies of the tests and of the invariants of the two sides.
    fn copy_unary(&self) -> Result<((Formula, Formula), (Formula, Formula)), Memory>
        ensures { IfOk result (λ u. (u.0 ≡ self.now.tests) × (u.1 ≡ self.now.invs)) }
    {
        both(self.tests.copied(), self.invs.copied())
    }

    /// Copies of the relational invariant and of the guards.
    fn copy_relational(&self) -> Result<(RelFormula, (RelFormula, RelFormula)), Memory>
        ensures { IfOk result (λ r. (r.0 ≡ self.now.rel) × (r.1 ≡ self.now.guards)) }
    {
        both(self.rel.copy(), self.guards.copied())
    }
}

impl WeaveStep {
    pub fn copy(&self) -> Result<WeaveStep, Memory>
        ensures { IfOk result (λ s. s ≡ self.now) }
    {
        let (place, act) = both(self.place.copied(), self.act.copy())?;
        Ok(WeaveStep {
            at: self.at,
            place,
            act,
        })
    }
}

impl Copies for WeaveStep {
    fn copied(&self) -> Result<WeaveStep, Memory> {
        self.copy()
    }
}

impl Act {
    pub fn copy(&self) -> Result<Act, Memory>
        ensures { IfOk result (λ a. a ≡ self.now) }
    {
        match self {
            Act::Seq(left, right) => Ok(Act::Seq(*left, *right)),
            Act::Sync => Ok(Act::Sync),
            Act::Call(judgement) => Ok(Act::Call(judgement.copy()?)),
            Act::If => Ok(Act::If),
            Act::While(rel, left, right) => {
                let guards = both(left.copy(), right.copy());
                let (rel, (left, right)) = both(rel.copy(), guards)?;
                Ok(Act::While(rel, left, right))
            }
            Act::Link(x, y) => {
                let (x, y) = both(x.copy(), y.copy())?;
                Ok(Act::Link(x, y))
            }
            Act::Note(r) => Ok(Act::Note(r.copy()?)),
            Act::Drop => Ok(Act::Drop),
        }
    }
}

impl Align {
    pub fn copy(&self) -> Result<Align, Memory>
        ensures { IfOk result (λ a. a ≡ self.now) }
    {
        match self {
            Align::Given(commands) => Ok(Align::Given(commands.copied()?)),
            Align::Woven(steps) => Ok(Align::Woven(steps.copied()?)),
        }
    }
}

impl Copies for Align {
    fn copied(&self) -> Result<Align, Memory> {
        self.copy()
    }
}
