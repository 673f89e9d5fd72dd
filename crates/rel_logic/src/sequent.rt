//! Sequents, and the open nodes of their derivations.
ghost use Rattle.std.specs.Prelude.{◌≡◌, IfOk};

use crate::fol::Fol;
use crate::term::Sort;
use rel_list::{Copies, List, Memory};

/// The sort of each variable, the hypotheses and the goal.
#[derive(Drop)]
pub struct Sequent {
    pub sorts: List<Sort>,
    pub hyps: List<Fol>,
    pub goal: Fol,
}

impl Sequent {
    pub fn copy(&self) -> Result<Sequent, Memory>
        ensures { IfOk result (λ s. s ≡ self.now) }
    {
        let sorts = self.sorts.copied()?;
        let hyps = self.hyps.copied()?;
        let goal = self.goal.copy()?;
        Ok(Sequent { sorts, hyps, goal })
    }
}

/// The sort of each variable, and formulas that a derivation shows can't all be true.
#[derive(Drop)]
pub struct Node {
    pub sorts: List<Sort>,
    pub forms: List<Fol>,
}

impl Node {
    pub fn copy(&self) -> Result<Node, Memory>
        ensures { IfOk result (λ n. n ≡ self.now) }
    {
        let sorts = self.sorts.copied()?;
        let forms = self.forms.copied()?;
        Ok(Node { sorts, forms })
    }
}
