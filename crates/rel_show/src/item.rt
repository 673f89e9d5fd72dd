//! Items and what they are made of.

ghost use Rattle.std.specs.Prelude.{◌≡◌, ℕ, [], ◌∷◌, ◌++◌, map, OnOk, codes};
ghost use Rattle.rel_lang.specs.Syntax as syntax;
ghost use Rattle.rel_lang.specs.Syntax.{Word};
ghost use Rattle.rel_lang.specs.Text.{word, named, begins, braced, listed, behind, ended, spaced, show_decl, show_globals, show_params, show_place, show_align};
ghost use Rattle.rel_lang.specs.Text.{show_effect, show_writes, show_clause, show_rel_clause, show_spec};
ghost use Rattle.rel_lang.specs.Text.{show_locals, show_body, show_head, show_proc, show_sig, show_class};
ghost use Rattle.rel_lang.specs.Text.{show_interface, show_method, show_module, show_unit};
ghost use Rattle.rel_lang.specs.Text.{show_client, show_subject, show_judgement, show_pair_method, show_pair};
ghost use Rattle.rel_lang.specs.Text.{show_item, repeated};
ghost use Rattle.rel_lang.specs.View.{type_of, decl_of, place_of, effect_of, clause_of, rel_clause_of, spec_of};
ghost use Rattle.rel_lang.specs.View.{body_of, proc_of, sig_of, class_of, interface_of, module_of, unit_of};
ghost use Rattle.rel_lang.specs.View.{client_of, judgement_of, align_of, pair_of, item_of};
ghost use Rattle.rel_show.specs.Written.{written};

use crate::biprogram::show_align;
use crate::command::show_commands;
use crate::expr::{show_expression, show_type};
use crate::formula::show_formula;
use crate::relation::show_rel;
use crate::several::{Behind, Element, Ended, show_each, show_listed};
use crate::text::{end_line, show_name, show_title, show_word};
use rel_lang::biprogram::Align;
use rel_lang::bundle::{
    Body, Class, Clause, Client, Decl, Effect, Interface, Item, Judgement, Module, Pair, Place,
    Proc, RelClause, Sig, Spec, UnitItem,
};
use rel_lang::expr::Ty;
use rel_list::{List, Memory, Name};

// ---- declarations

struct Decls;

impl Element for Decls {
    type Item = Decl;

    ghost Tree = { syntax.Decl };

    ghost view = { decl_of };

    ghost marks = { λ _. show_decl };

    #[tactic(auto, using(crate::proofs::Writing::writing))]
    fn show(&self, out: &mut Vec<u8>, d: &Decl) -> Result<(), Memory> {
        show_name(out, &d.name)?;
        show_word(out, ":")?;
        show_type(out, &d.ty)
    }
}

/// Each declaration with a semicolon behind it.
fn show_fields(out: &mut Vec<u8>, fields: &List<Decl>) -> Result<(), Memory>
    ensures { OnOk result (out.new.items ≡ out.old.items
        ++ written (repeated (ended (codes ";") show_decl) 1 (map decl_of fields.now))) }
{
    let field = Ended {
        element: &Decls,
        word: ";",
    };
    show_each(out, &field, fields)
}

/// Each declaration behind the word, with a semicolon behind it.
fn show_decls(out: &mut Vec<u8>, word: &str, decls: &List<Decl>) -> Result<(), Memory>
    ensures { OnOk result (out.new.items ≡ out.old.items
        ++ written (repeated (behind word.now (ended (codes ";") show_decl)) 1 (map decl_of decls.now))) }
{
    let decl = Ended {
        element: &Decls,
        word: ";",
    };
    let element = Behind {
        word,
        element: &decl,
    };
    show_each(out, &element, decls)
}

// ---- effects, clauses and specifications

#[tactic(auto, using(crate::proofs::Writing::writing))]
fn show_place(out: &mut Vec<u8>, p: &Place) -> Result<(), Memory>
    ensures { OnOk result (out.new.items ≡ out.old.items ++ written (show_place (place_of p.now))) }
{
    show_expression(out, &p.region)?;
    show_title(out, "@", &p.field)
}

struct Places;

impl Element for Places {
    type Item = Place;

    ghost Tree = { syntax.Place };

    ghost view = { place_of };

    ghost marks = { λ _. show_place };

    fn show(&self, out: &mut Vec<u8>, p: &Place) -> Result<(), Memory> {
        show_place(out, p)
    }
}

struct Effects;

impl Element for Effects {
    type Item = Effect;

    ghost Tree = { syntax.Effect };

    ghost view = { effect_of };

    ghost marks = { λ _. show_effect };

    fn show(&self, out: &mut Vec<u8>, e: &Effect) -> Result<(), Memory> {
        match e {
            Effect::Var(x) => show_name(out, x),
            Effect::At(p) => show_place(out, p),
        }
    }
}

#[tactic(auto, using(crate::proofs::Writing::writing))]
fn show_writes(out: &mut Vec<u8>, writes: &List<Effect>) -> Result<(), Memory>
    ensures { OnOk result (out.new.items ≡ out.old.items ++ written (show_writes (map effect_of writes.now))) }
{
    show_word(out, "writes")?;
    show_word(out, "{")?;
    show_listed(out, &Effects, writes)?;
    show_word(out, "}")
}

/// The clause behind its word.
#[tactic(auto, using(crate::proofs::Writing::writing))]
fn show_clause(out: &mut Vec<u8>, text: &str, c: &Clause) -> Result<(), Memory>
    ensures { OnOk result (out.new.items ≡ out.old.items ++ written (word text.now ∷ show_clause (clause_of c.now))) }
{
    show_word(out, text)?;
    show_formula(out, &c.formula)
}

/// The clause behind its word.
#[tactic(auto, using(crate::proofs::Writing::writing))]
fn show_rel_clause(out: &mut Vec<u8>, text: &str, c: &RelClause) -> Result<(), Memory>
    ensures { OnOk result (out.new.items ≡ out.old.items ++ written (word text.now ∷ show_rel_clause (rel_clause_of c.now))) }
{
    show_word(out, text)?;
    show_rel(out, &c.formula)
}

#[tactic(auto, using(crate::proofs::Writing::writing))]
fn show_spec(out: &mut Vec<u8>, s: &Spec) -> Result<(), Memory>
    ensures { OnOk result (out.new.items ≡ out.old.items ++ written (show_spec (spec_of s.now))) }
{
    show_clause(out, "requires", &s.needs)?;
    show_clause(out, "ensures", &s.gives)?;
    show_writes(out, &s.writes)
}

// ---- procedures

#[tactic(auto, using(crate::proofs::Writing::writing))]
fn show_body(out: &mut Vec<u8>, b: &Body) -> Result<(), Memory>
    ensures { OnOk result (out.new.items ≡ out.old.items ++ written (show_body (body_of b.now))) }
{
    show_word(out, "{")?;
    show_decls(out, "var", &b.locals)?;
    show_commands(out, &b.commands)?;
    show_word(out, "}")
}

#[tactic(auto, using(crate::proofs::Writing::writing))]
fn show_params(out: &mut Vec<u8>, params: &List<Decl>) -> Result<(), Memory>
    ensures { OnOk result (out.new.items ≡ out.old.items ++ written (show_params (map decl_of params.now))) }
{
    show_word(out, "(")?;
    show_listed(out, &Decls, params)?;
    show_word(out, ")")
}

/// The word of a procedure or a method, its name, its parameters and the type of its result.
#[tactic(auto, using(crate::proofs::Writing::writing))]
fn show_head(
    out: &mut Vec<u8>,
    text: &str,
    name: &Name,
    params: &List<Decl>,
    ty: &Ty,
) -> Result<(), Memory>
    ensures { OnOk result (out.new.items ≡ out.old.items
        ++ written (word text.now ∷ show_head name.now (map decl_of params.now) (type_of ty.now))) }
{
    show_title(out, text, name)?;
    show_params(out, params)?;
    show_word(out, ":")?;
    show_type(out, ty)
}

struct Procs;

impl Element for Procs {
    type Item = Proc;

    ghost Tree = { syntax.Proc };

    ghost view = { proc_of };

    ghost marks = { λ _. show_proc };

    #[tactic(auto, using(crate::proofs::Writing::writing))]
    fn show(&self, out: &mut Vec<u8>, p: &Proc) -> Result<(), Memory> {
        show_head(out, "proc", &p.name, &p.params, &p.result)?;
        show_spec(out, &p.spec)?;
        show_body(out, &p.body)
    }
}

struct Sigs;

impl Element for Sigs {
    type Item = Sig;

    ghost Tree = { syntax.Sig };

    ghost view = { sig_of };

    ghost marks = { λ _. show_sig };

    #[tactic(auto, using(crate::proofs::Writing::writing))]
    fn show(&self, out: &mut Vec<u8>, s: &Sig) -> Result<(), Memory> {
        show_head(out, "method", &s.name, &s.params, &s.result)?;
        show_spec(out, &s.spec)?;
        show_word(out, ";")
    }
}

// ---- items

#[tactic(auto, using(crate::proofs::Writing::writing))]
fn show_class(out: &mut Vec<u8>, c: &Class) -> Result<(), Memory>
    ensures { OnOk result (out.new.items ≡ out.old.items ++ written (show_class (class_of c.now))) }
{
    show_title(out, "class", &c.name)?;
    show_word(out, "{")?;
    show_fields(out, &c.fields)?;
    show_word(out, "}")
}

#[tactic(auto, using(crate::proofs::Writing::writing))]
fn show_boundary(out: &mut Vec<u8>, places: &List<Place>) -> Result<(), Memory>
    ensures { OnOk result (out.new.items ≡ out.old.items
        ++ written (word (codes "boundary") ∷ braced (listed show_place (map place_of places.now)))) }
{
    show_word(out, "boundary")?;
    show_word(out, "{")?;
    show_listed(out, &Places, places)?;
    show_word(out, "}")
}

/// What the method `init` promises.
#[tactic(auto, using(crate::proofs::Writing::writing))]
fn show_promise(out: &mut Vec<u8>, c: &Clause) -> Result<(), Memory>
    ensures { OnOk result (out.new.items ≡ out.old.items
        ++ written (word (codes "init") ∷ word (codes "ensures") ∷ show_clause (clause_of c.now))) }
{
    show_word(out, "init")?;
    show_clause(out, "ensures", c)
}

fn show_interface(out: &mut Vec<u8>, i: &Interface) -> Result<(), Memory>
    ensures { OnOk result (out.new.items ≡ out.old.items ++ written (show_interface (interface_of i.now))) }
{
    show_title(out, "interface", &i.name)?;
    show_word(out, "{")?;
    show_decls(out, "global", &i.globals)?;
    show_boundary(out, &i.boundary)?;
    show_promise(out, &i.init_ensures)?;
    show_writes(out, &i.init_writes)?;
    show_each(out, &Sigs, &i.methods)?;
    show_word(out, "}")
}

struct Methods;

impl Element for Methods {
    type Item = (Name, Body);

    ghost Tree = { Word × syntax.Body };

    ghost view = { λ m. (m.0, body_of m.1) };

    ghost marks = { λ _. show_method };

    #[tactic(auto, using(crate::proofs::Writing::writing))]
    fn show(&self, out: &mut Vec<u8>, m: &(Name, Body)) -> Result<(), Memory> {
        show_title(out, "method", &m.0)?;
        show_body(out, &m.1)
    }
}

/// The word of a module or a client, its name and its interface.
#[tactic(auto, using(crate::proofs::Writing::writing))]
fn show_part(out: &mut Vec<u8>, text: &str, name: &Name, interface: &Name) -> Result<(), Memory>
    ensures { OnOk result (out.new.items ≡ out.old.items
        ++ written (word text.now ∷ named name.now ∷ word (codes ":") ∷ named interface.now ∷ [])) }
{
    show_title(out, text, name)?;
    show_title(out, ":", interface)
}

/// The body of a module's `init`, behind a semicolon.
#[tactic(auto, using(crate::proofs::Writing::writing))]
fn show_init(out: &mut Vec<u8>, b: &Body) -> Result<(), Memory>
    ensures { OnOk result (out.new.items ≡ out.old.items
        ++ written (word (codes ";") ∷ begins b.now.at (word (codes "init") ∷ show_body (body_of b.now)))) }
{
    show_word(out, ";")?;
    show_word(out, "init")?;
    show_body(out, b)
}

fn show_module(out: &mut Vec<u8>, m: &Module) -> Result<(), Memory>
    ensures { OnOk result (out.new.items ≡ out.old.items ++ written (show_module (module_of m.now))) }
{
    show_part(out, "module", &m.name, &m.interface)?;
    show_word(out, "{")?;
    show_decls(out, "global", &m.globals)?;
    show_clause(out, "invariant", &m.invariant)?;
    show_init(out, &m.init)?;
    show_each(out, &Methods, &m.methods)?;
    show_word(out, "}")
}

/// What a unit or a client holds, between braces.
#[tactic(auto, using(crate::proofs::Writing::writing))]
fn show_members(out: &mut Vec<u8>, globals: &List<Decl>, procs: &List<Proc>) -> Result<(), Memory>
    ensures { OnOk result (out.new.items ≡ out.old.items
        ++ written (braced (show_globals (map decl_of globals.now) ++ repeated show_proc 1 (map proc_of procs.now)))) }
{
    show_word(out, "{")?;
    show_decls(out, "global", globals)?;
    show_each(out, &Procs, procs)?;
    show_word(out, "}")
}

#[tactic(auto, using(crate::proofs::Writing::writing))]
fn show_unit(out: &mut Vec<u8>, u: &UnitItem) -> Result<(), Memory>
    ensures { OnOk result (out.new.items ≡ out.old.items ++ written (show_unit (unit_of u.now))) }
{
    show_title(out, "unit", &u.name)?;
    show_members(out, &u.globals, &u.procs)
}

#[tactic(auto, using(crate::proofs::Writing::writing))]
fn show_client(out: &mut Vec<u8>, c: &Client) -> Result<(), Memory>
    ensures { OnOk result (out.new.items ≡ out.old.items ++ written (show_client (client_of c.now))) }
{
    show_part(out, "client", &c.name, &c.interface)?;
    show_members(out, &c.globals, &c.procs)
}

/// A word and the procedure behind it.
#[tactic(auto, using(crate::proofs::Writing::writing))]
fn show_subject(out: &mut Vec<u8>, text: &str, s: &(Name, Name)) -> Result<(), Memory>
    ensures { OnOk result (out.new.items ≡ out.old.items ++ written (word text.now ∷ show_subject s.now)) }
{
    show_title(out, text, &s.0)?;
    show_title(out, ".", &s.1)
}

fn show_judgement(out: &mut Vec<u8>, j: &Judgement) -> Result<(), Memory>
    ensures { OnOk result (out.new.items ≡ out.old.items ++ written (show_judgement (judgement_of j.now))) }
{
    show_title(out, "judge", &j.name)?;
    show_subject(out, ":", &j.left)?;
    show_subject(out, "~", &j.right)?;
    show_rel_clause(out, "requires", &j.needs)?;
    show_rel_clause(out, "ensures", &j.gives)?;
    show_align(out, &j.align)
}

struct Aligned;

impl Element for Aligned {
    type Item = (u32, Name, Align);

    ghost Tree = { ℕ × Word × syntax.Align };

    ghost view = { λ m. (m.0, m.1, align_of m.2) };

    ghost marks = { λ _. show_pair_method };

    #[tactic(auto, using(crate::proofs::Writing::writing))]
    fn show(&self, out: &mut Vec<u8>, m: &(u32, Name, Align)) -> Result<(), Memory> {
        show_title(out, "method", &m.1)?;
        show_align(out, &m.2)
    }
}

/// The word of a pair, its name and the names of its modules.
#[tactic(auto, using(crate::proofs::Writing::writing))]
fn show_names(out: &mut Vec<u8>, p: &Pair) -> Result<(), Memory>
    ensures { let n = p.now in OnOk result (out.new.items ≡ out.old.items
        ++ written (word (codes "pair") ∷ named n.name ∷ word (codes ":") ∷ named n.left ∷ word (codes "~") ∷ named n.right ∷ [])) }
{
    show_title(out, "pair", &p.name)?;
    show_title(out, ":", &p.left)?;
    show_title(out, "~", &p.right)
}

/// How the inits of two modules are aligned, behind a semicolon.
#[tactic(auto, using(crate::proofs::Writing::writing))]
fn show_first(out: &mut Vec<u8>, init: &(u32, Align)) -> Result<(), Memory>
    ensures { OnOk result (out.new.items ≡ out.old.items
        ++ written (word (codes ";") ∷ begins init.now.0 (word (codes "init") ∷ show_align (align_of init.now.1)))) }
{
    show_word(out, ";")?;
    show_word(out, "init")?;
    show_align(out, &init.1)
}

fn show_pair(out: &mut Vec<u8>, p: &Pair) -> Result<(), Memory>
    ensures { OnOk result (out.new.items ≡ out.old.items ++ written (show_pair (pair_of p.now))) }
{
    show_names(out, p)?;
    show_word(out, "{")?;
    show_rel_clause(out, "coupling", &p.coupling)?;
    show_first(out, &p.init)?;
    show_each(out, &Aligned, &p.methods)?;
    show_word(out, "}")
}

fn show_item(out: &mut Vec<u8>, item: &Item) -> Result<(), Memory>
    ensures { OnOk result (out.new.items ≡ out.old.items ++ written (show_item (item_of item.now))) }
{
    match item {
        Item::Class(c) => show_class(out, c),
        Item::Interface(i) => show_interface(out, i),
        Item::Module(m) => show_module(out, m),
        Item::UnitItem(u) => show_unit(out, u),
        Item::Client(c) => show_client(out, c),
        Item::Judge(j) => show_judgement(out, j),
        Item::Pair(p) => show_pair(out, p),
    }
}

/// The item and a line feed behind it.
pub fn show_line(out: &mut Vec<u8>, item: &Item) -> Result<(), Memory>
    ensures { OnOk result (out.new.items ≡ out.old.items ++ (spaced (show_item (item_of item.now)) ++ 10 ∷ [])) }
{
    show_item(out, item)?;
    end_line(out)
}
