//! What the two sides of an alignment can name.

ghost use Rattle.std.specs.Prelude.{◌≡◌, option_map};
ghost use Rattle.rel_lang.specs.Lookup.{find_judgement};
ghost use Rattle.rel_lang.specs.View.{command_of};
ghost use Rattle.rel_flaws.specs.Alignments as alignments;
ghost use Rattle.rel_flaws.specs.AlignmentView.{sides_of, judgement_about};

use crate::code::Code;
use crate::index::Index;
use rel_lang::command::{Command, Form};

/// The unit and the procedure of each side that a judgement is about.
#[derive(Clone, Copy, Drop)]
pub struct Subjects<'a> {
    pub left: (&'a str, &'a str),
    pub right: (&'a str, &'a str),
}

/// What the code of the two sides can name, the bundle's judgements, and the two units whose procedures are aligned.
/// Where the bodies of two modules are aligned there are no units.
#[derive(Drop)]
pub struct Sides<'a, 's> {
    pub left: Code<'a, 's>,
    pub right: Code<'a, 's>,
    pub judgements: &'s Index<'a, Subjects<'a>>,
    pub units: Option<(&'a str, &'a str)>,
}

impl<'a, 's> Sides<'a, 's> {
    /// The judgement of this name.
    #[tactic(auto, using(crate::proofs::FoundJudgements::found_judgement))]
    pub fn judgement(&self, name: &str) -> Option<Subjects<'a>>
        ensures { option_map (judgement_about name.now) result ≡ find_judgement name.now (sides_of self.now).judgements }
    {
        self.judgements.get(name)
    }

    /// Whether the judgement of this name is about the procedures `p` of the two units.
    pub fn is_about(&self, judgement: &str, p: &str) -> bool
        ensures { result ≡ alignments.is_about (sides_of self.now).units judgement.now p.now (sides_of self.now).judgements }
    {
        match self.units {
            Some((left, right)) => match self.judgement(judgement) {
                Some(found) => is_subject(found.left, left, p) && is_subject(found.right, right, p),
                None => false,
            },
            None => false,
        }
    }

    /// Whether the command is a call of a procedure that the judgement of this name is about.
    pub fn is_call_by(&self, judgement: &str, command: &Command) -> bool
        ensures { result ≡ alignments.is_call_by (sides_of self.now) judgement.now (command_of command.now) }
    {
        match &command.form {
            Form::Call(_, p, _) => self.is_about(judgement, p.as_str()),
            _ => false,
        }
    }
}

/// Whether the names are those of the unit and the procedure.
fn is_subject(names: (&str, &str), unit: &str, p: &str) -> bool
    ensures { result ≡ alignments.same_subject (names.entry.0.now, names.entry.1.now) (unit.now, p.now) }
{
    names.0 == unit && names.1 == p
}
