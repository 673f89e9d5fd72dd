//! Prints terms and formulas.

ghost use Rattle.std.specs.Prelude.{◌≡◌, ◌∷◌, [], false, IfOk};
ghost use Rattle.serde_json.specs.Data.{string};
ghost use Rattle.serde_json.specs.View.{view};
ghost use Rattle.serde_json.specs.Written.{compact_text, has_float};
ghost use Rattle.rel_logic.specs.View.{sort_of, trm_of, fml_of};
ghost use Rattle.rel_proofio.specs.Trees.{node, numeral, digits, term_data, fml_data, text_of_term, text_of};
ghost use Rattle.rel_proofio.specs.Words.{term_word, fol_word, srt_word};

use crate::words::{FolHead, TermHead, sort_word};
use itoa::Buffer;
use rel_list::{Memory, both};
use rel_logic::fol::Fol;
use rel_logic::term::{Sort, Term};
use serde_json::Value;
use std::alloc::Global;

fn text_value(alloc: Global, text: &str) -> Result<Value, Memory>
    ensures { IfOk result (λ v. view v ≡ string text.now) }
{
    Ok(Value::String(String::from_str(alloc, text)?))
}

fn leaf(alloc: Global, word: &str) -> Result<Value, Memory>
    ensures { IfOk result (λ v. view v ≡ node word.now []) }
{
    let word = text_value(alloc, word)?;
    Ok(Value::Array(Vec::from_array(alloc, [word])?))
}

fn over_one(alloc: Global, word: &str, a: Value) -> Result<Value, Memory>
    ensures { IfOk result (λ v. view v ≡ node word.now (view a ∷ [])) }
{
    let word = text_value(alloc, word)?;
    Ok(Value::Array(Vec::from_array(alloc, [word, a])?))
}

fn over_two(alloc: Global, word: &str, a: Value, b: Value) -> Result<Value, Memory>
    ensures { IfOk result (λ v. view v ≡ node word.now (view a ∷ view b ∷ [])) }
{
    let word = text_value(alloc, word)?;
    Ok(Value::Array(Vec::from_array(alloc, [word, a, b])?))
}

fn over_three(alloc: Global, word: &str, a: Value, b: Value, c: Value) -> Result<Value, Memory>
    ensures { IfOk result (λ v. view v ≡ node word.now (view a ∷ view b ∷ view c ∷ [])) }
{
    let word = text_value(alloc, word)?;
    Ok(Value::Array(Vec::from_array(alloc, [word, a, b, c])?))
}

fn digits(alloc: Global, integer: i128) -> Result<Value, Memory>
    ensures { IfOk result (λ v. view v ≡ digits integer) }
{
    let mut buffer = Buffer::new();
    text_value(alloc, buffer.format(integer))
}

fn numeral(number: u32) -> Value
    ensures { view result ≡ numeral number }
{
    Value::from(number)
}

fn term_value(alloc: Global, t: &Term) -> Result<Value, Memory>
    ensures { IfOk result (λ v. view v ≡ term_data (trm_of t.now)) }
{
    match t {
        Term::Var(n) => over_one(alloc, TermHead::Var.word(), numeral(*n)),
        Term::Bound(n) => over_one(alloc, TermHead::Bound.word(), numeral(*n)),
        Term::Int(k) => over_one(alloc, TermHead::Int.word(), digits(alloc, *k)?),
        Term::Add(a, b) => {
            let (a, b) = both(term_value(alloc, a.get()), term_value(alloc, b.get()))?;
            over_two(alloc, TermHead::Add.word(), a, b)
        }
        Term::Sub(a, b) => {
            let (a, b) = both(term_value(alloc, a.get()), term_value(alloc, b.get()))?;
            over_two(alloc, TermHead::Sub.word(), a, b)
        }
        Term::Mul(k, a) => {
            let (k, a) = both(digits(alloc, *k), term_value(alloc, a.get()))?;
            over_two(alloc, TermHead::Mul.word(), k, a)
        }
        Term::Null => leaf(alloc, TermHead::Null.word()),
        Term::Sel(m, a) => {
            let (m, a) = both(term_value(alloc, m.get()), term_value(alloc, a.get()))?;
            over_two(alloc, TermHead::Sel.word(), m, a)
        }
        Term::Sto(m, a, b) => {
            let later = both(term_value(alloc, a.get()), term_value(alloc, b.get()));
            let (m, (a, b)) = both(term_value(alloc, m.get()), later)?;
            over_three(alloc, TermHead::Sto.word(), m, a, b)
        }
        Term::Empty => leaf(alloc, TermHead::Empty.word()),
        Term::One(a) => over_one(alloc, TermHead::One.word(), term_value(alloc, a.get())?),
        Term::Cup(g, h) => {
            let (g, h) = both(term_value(alloc, g.get()), term_value(alloc, h.get()))?;
            over_two(alloc, TermHead::Cup.word(), g, h)
        }
        Term::Cap(g, h) => {
            let (g, h) = both(term_value(alloc, g.get()), term_value(alloc, h.get()))?;
            over_two(alloc, TermHead::Cap.word(), g, h)
        }
        Term::Less(g, h) => {
            let (g, h) = both(term_value(alloc, g.get()), term_value(alloc, h.get()))?;
            over_two(alloc, TermHead::Less.word(), g, h)
        }
        Term::Img(m, g) => {
            let (m, g) = both(term_value(alloc, m.get()), term_value(alloc, g.get()))?;
            over_two(alloc, TermHead::Img.word(), m, g)
        }
        Term::Of(c, g) => {
            let g = term_value(alloc, g.get())?;
            over_two(alloc, TermHead::Of.word(), numeral(*c), g)
        }
        Term::Link(p, a, b) => {
            let later = both(term_value(alloc, a.get()), term_value(alloc, b.get()));
            let (p, (a, b)) = both(term_value(alloc, p.get()), later)?;
            over_three(alloc, TermHead::Link.word(), p, a, b)
        }
    }
}

/// A formula over two terms.
fn comparison(alloc: Global, head: FolHead, a: &Term, b: &Term) -> Result<Value, Memory>
    ensures { IfOk result (λ v. view v ≡ node (fol_word head) (term_data (trm_of a.now) ∷ term_data (trm_of b.now) ∷ [])) }
{
    let (a, b) = both(term_value(alloc, a), term_value(alloc, b))?;
    over_two(alloc, head.word(), a, b)
}

fn pairing(alloc: Global, p: &Term, a: &Term, b: &Term) -> Result<Value, Memory>
    ensures { IfOk result (λ v. view v ≡ node (fol_word FolHead.Paired)
        (term_data (trm_of p.now) ∷ term_data (trm_of a.now) ∷ term_data (trm_of b.now) ∷ [])) }
{
    let later = both(term_value(alloc, a), term_value(alloc, b));
    let (p, (a, b)) = both(term_value(alloc, p), later)?;
    over_three(alloc, FolHead::Paired.word(), p, a, b)
}

fn sort_value(alloc: Global, sort: Sort) -> Result<Value, Memory>
    ensures { IfOk result (λ v. view v ≡ string (srt_word (sort_of sort))) }
{
    text_value(alloc, sort_word(sort))
}

fn fol_value(alloc: Global, f: &Fol) -> Result<Value, Memory>
    ensures { IfOk result (λ v. view v ≡ fml_data (fml_of f.now)) }
{
    match f {
        Fol::True => leaf(alloc, FolHead::True.word()),
        Fol::False => leaf(alloc, FolHead::False.word()),
        Fol::Eq(a, b) => comparison(alloc, FolHead::Eq, a, b),
        Fol::Lt(a, b) => comparison(alloc, FolHead::Lt, a, b),
        Fol::Le(a, b) => comparison(alloc, FolHead::Le, a, b),
        Fol::Member(a, g) => comparison(alloc, FolHead::Member, a, g),
        Fol::Is(c, a) => {
            let a = term_value(alloc, a)?;
            over_two(alloc, FolHead::Is.word(), numeral(*c), a)
        }
        Fol::Paired(p, a, b) => pairing(alloc, p, a, b),
        Fol::Ext(p, q) => comparison(alloc, FolHead::Ext, p, q),
        Fol::Not(g) => over_one(alloc, FolHead::Not.word(), fol_value(alloc, g.get())?),
        Fol::And(g, h) => {
            let (g, h) = both(fol_value(alloc, g.get()), fol_value(alloc, h.get()))?;
            over_two(alloc, FolHead::And.word(), g, h)
        }
        Fol::Or(g, h) => {
            let (g, h) = both(fol_value(alloc, g.get()), fol_value(alloc, h.get()))?;
            over_two(alloc, FolHead::Or.word(), g, h)
        }
        Fol::Imp(g, h) => {
            let (g, h) = both(fol_value(alloc, g.get()), fol_value(alloc, h.get()))?;
            over_two(alloc, FolHead::Imp.word(), g, h)
        }
        Fol::Every(sort, g) => {
            let (sort, g) = both(sort_value(alloc, *sort), fol_value(alloc, g.get()))?;
            over_two(alloc, FolHead::Every.word(), sort, g)
        }
        Fol::Exists(sort, g) => {
            let (sort, g) = both(sort_value(alloc, *sort), fol_value(alloc, g.get()))?;
            over_two(alloc, FolHead::Exists.word(), sort, g)
        }
    }
}

/// The value's text, without blanks.
fn text(alloc: Global, value: &Value) -> Result<Vec<u8>, Memory>
    requires { has_float (view value.now) ≡ false }
    ensures { IfOk result (λ t. t.items ≡ compact_text (view value.now)) }
{
    Ok(value.to_vec(alloc)?)
}

/// The term as it stands in a proof file, without blanks.
#[tactic(auto, using(crate::proofs::Floats::term_has_none))]
pub fn term_text(alloc: Global, t: &Term) -> Result<Vec<u8>, Memory>
    ensures { IfOk result (λ text. text.items ≡ text_of_term (trm_of t.now)) }
{
    let value = term_value(alloc, t)?;
    text(alloc, &value)
}

/// The formula as it stands in a proof file, without blanks.
#[tactic(auto, using(crate::proofs::Floats::fml_has_none))]
pub fn fol_text(alloc: Global, f: &Fol) -> Result<Vec<u8>, Memory>
    ensures { IfOk result (λ text. text.items ≡ text_of (fml_of f.now)) }
{
    let value = fol_value(alloc, f)?;
    text(alloc, &value)
}
