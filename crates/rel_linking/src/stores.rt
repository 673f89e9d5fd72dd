//! The numbers of an obligation's variables, and the stores in which a judgement's procedures start.

ghost use Rattle.std.specs.Prelude.{◌≡◌, ◌+◌, ◌<◌, ◌^◌, length, map, IfOk};
ghost use Rattle.rel_lang.specs.View.{decl_of};
ghost use Rattle.rel_logic.specs.View.{trm_of};
ghost use Rattle.rel_encode.specs.View.{store_of, pair_store_of};
ghost use Rattle.rel_linking.specs.Layout.{layout_of};
ghost use Rattle.rel_linking.specs.Obligation.{with_result, variables_from, globals_store, start_store, at_call, at_start};

use rel_encode::store::{PairStore, Store};
use rel_lang::bundle::Decl;
use rel_lang::expr::Ty;
use rel_list::{Boxed, Copies, List, Memory, Name, both};
use rel_logic::term::Term;
use std::alloc::Global;

/// The variables are the left globals, the left allocated references, the same on the right, the bijection,
/// and then one for each assignment.
#[derive(Clone, Copy)]
pub struct Layout {
    pub left_alloc: u32,
    pub first_right: u32,
    pub right_alloc: u32,
    pub bijection: u32,
    pub first_fresh: u32,
}

impl Layout {
    #[tactic(auto, using(crate::proofs::Layouts::layout_is))]
    pub fn new(left: &List<Decl>, right: &List<Decl>) -> Layout
        requires left { length left.now < 2 ^ 30 }
        requires right { length right.now < 2 ^ 30 }
        ensures { result ≡ layout_of (map decl_of left.now) (map decl_of right.now) }
    {
        let left_alloc = left.len() as u32;
        let first_right = left_alloc + 1;
        let right_alloc = first_right + right.len() as u32;
        let bijection = right_alloc + 1;
        Layout {
            left_alloc,
            first_right,
            right_alloc,
            bijection,
            first_fresh: bijection + 1,
        }
    }
}

/// The globals, and the result.
pub fn with_result(alloc: Global, globals: &List<Decl>) -> Result<List<Decl>, Memory>
    ensures { IfOk result (λ ds. map decl_of ds ≡ with_result (map decl_of globals.now)) }
{
    let mut scope = globals.copied()?;
    let name = Name::new(alloc, "result")?;
    scope.push(Decl { name, ty: Ty::Int })?;
    Ok(scope)
}

/// So many variables, from `first` on.
#[tactic(auto, using(crate::proofs::Layouts::one_pushed))]
fn variables_from(alloc: Global, first: u32, count: usize) -> Result<List<Term>, Memory>
    requires { first + count < 2 ^ 32 }
    ensures { IfOk result (λ ts. map trm_of ts ≡ variables_from first count) }
{
    let mut variables = List::new(alloc);
    for i in 0..count {
        variables.push(Term::Var(first + i as u32))?;
    }
    Ok(variables)
}

/// What a precondition sees. The variable `allocated` is the allocated references.
fn globals_store(
    alloc: Global,
    first: u32,
    allocated: u32,
    globals: &List<Decl>,
) -> Result<Store, Memory>
    requires { first + length globals.now < 2 ^ 32 }
    ensures { IfOk result (λ st. store_of st ≡ globals_store first allocated (map decl_of globals.now)) }
{
    Ok(Store {
        vars: variables_from(alloc, first, globals.len())?,
        maps: List::new(alloc),
        alloc: Term::Var(allocated),
    })
}

/// What a body sees where it starts.
fn start_store(
    alloc: Global,
    first: u32,
    allocated: u32,
    globals: &List<Decl>,
) -> Result<Store, Memory>
    requires { first + length globals.now < 2 ^ 32 }
    ensures { IfOk result (λ st. store_of st ≡ start_store first allocated (map decl_of globals.now)) }
{
    let mut vars = variables_from(alloc, first, globals.len())?;
    vars.push(Term::Int(0))?;
    Ok(Store {
        vars,
        maps: List::new(alloc),
        alloc: Term::Var(allocated),
    })
}

/// The stores where the procedures are called.
pub fn call_stores(
    alloc: Global,
    left: &List<Decl>,
    right: &List<Decl>,
) -> Result<Boxed<PairStore>, Memory>
    requires left { length left.now < 2 ^ 30 }
    requires right { length right.now < 2 ^ 30 }
    ensures { IfOk result (λ st. pair_store_of st ≡ at_call (map decl_of left.now) (map decl_of right.now)) }
{
    let to = Layout::new(left, right);
    let (left, left_entry) = both(
        globals_store(alloc, 0, to.left_alloc, left),
        globals_store(alloc, 0, to.left_alloc, left),
    )?;
    let (right, right_entry) = both(
        globals_store(alloc, to.first_right, to.right_alloc, right),
        globals_store(alloc, to.first_right, to.right_alloc, right),
    )?;
    let stores = PairStore {
        left,
        right,
        left_entry,
        right_entry,
        bij: Term::Var(to.bijection),
    };
    Boxed::new(alloc, stores)
}

/// The stores where their bodies start.
pub fn start_stores(
    alloc: Global,
    left: &List<Decl>,
    right: &List<Decl>,
) -> Result<PairStore, Memory>
    requires left { length left.now < 2 ^ 30 }
    requires right { length right.now < 2 ^ 30 }
    ensures { IfOk result (λ st. pair_store_of st ≡ at_start (map decl_of left.now) (map decl_of right.now)) }
{
    let to = Layout::new(left, right);
    let (left, left_entry) = both(
        start_store(alloc, 0, to.left_alloc, left),
        start_store(alloc, 0, to.left_alloc, left),
    )?;
    let (right, right_entry) = both(
        start_store(alloc, to.first_right, to.right_alloc, right),
        start_store(alloc, to.first_right, to.right_alloc, right),
    )?;
    Ok(PairStore {
        left,
        right,
        left_entry,
        right_entry,
        bij: Term::Var(to.bijection),
    })
}
