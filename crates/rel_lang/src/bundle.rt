//! Bundles and the items in them.

ghost use Rattle.std.specs.Prelude.{◌≡◌, IfOk};

use crate::biprogram::Align;
use crate::command::Command;
use crate::expr::{Expr, Ty};
use crate::formula::Formula;
use crate::relation::RelFormula;
use rel_list::{Copies, List, Memory, Name, both};

/// A variable or a field with its type.
#[derive(Drop)]
pub struct Decl {
    pub name: Name,
    pub ty: Ty,
}

/// The locations of a field in the objects of a region.
#[derive(Drop)]
pub struct Place {
    pub region: Expr,
    pub field: Name,
}

/// What a procedure may change.
#[derive(Drop)]
pub enum Effect {
    Var(Name),
    At(Place),
}

/// A formula, and the byte where it begins.
#[derive(Drop)]
pub struct Clause {
    pub at: u32,
    pub formula: Formula,
}

/// A relation formula, and the byte where it begins.
#[derive(Drop)]
pub struct RelClause {
    pub at: u32,
    pub formula: RelFormula,
}

/// The specification of a procedure: `requires`, `ensures` and `writes`.
#[derive(Drop)]
pub struct Spec {
    pub needs: Clause,
    pub gives: Clause,
    pub writes: List<Effect>,
}

/// The body of a procedure, a method or an init. Its `at` is that of the word `proc`, `method` or `init`.
#[derive(Drop)]
pub struct Body {
    pub at: u32,
    pub locals: List<Decl>,
    pub commands: List<Command>,
}

#[derive(Drop)]
pub struct Proc {
    pub at: u32,
    pub name: Name,
    pub params: List<Decl>,
    pub result: Ty,
    pub spec: Spec,
    pub body: Body,
}

/// A method of an interface.
#[derive(Drop)]
pub struct Sig {
    pub at: u32,
    pub name: Name,
    pub params: List<Decl>,
    pub result: Ty,
    pub spec: Spec,
}

#[derive(Drop)]
pub struct Class {
    pub at: u32,
    pub name: Name,
    pub fields: List<Decl>,
}

/// `boundary_at` is the byte of the word `boundary`.
#[derive(Drop)]
pub struct Interface {
    pub at: u32,
    pub name: Name,
    pub globals: List<Decl>,
    pub boundary_at: u32,
    pub boundary: List<Place>,
    pub init_ensures: Clause,
    pub init_writes: List<Effect>,
    pub methods: List<Sig>,
}

#[derive(Drop)]
pub struct Module {
    pub at: u32,
    pub name: Name,
    pub interface: Name,
    pub globals: List<Decl>,
    pub invariant: Clause,
    pub init: Body,
    pub methods: List<(Name, Body)>,
}

#[derive(Drop)]
pub struct UnitItem {
    pub at: u32,
    pub name: Name,
    pub globals: List<Decl>,
    pub procs: List<Proc>,
}

#[derive(Drop)]
pub struct Client {
    pub at: u32,
    pub name: Name,
    pub interface: Name,
    pub globals: List<Decl>,
    pub procs: List<Proc>,
}

/// A judgement about the procedures `left` and `right`, each a unit's name and a procedure's.
#[derive(Drop)]
pub struct Judgement {
    pub at: u32,
    pub name: Name,
    pub left: (Name, Name),
    pub right: (Name, Name),
    pub needs: RelClause,
    pub gives: RelClause,
    pub align: Align,
}

/// The modules `left` and `right`, and how their inits and methods are aligned, each with the byte of its word `init` or `method`.
#[derive(Drop)]
pub struct Pair {
    pub at: u32,
    pub name: Name,
    pub left: Name,
    pub right: Name,
    pub coupling: RelClause,
    pub init: (u32, Align),
    pub methods: List<(u32, Name, Align)>,
}

#[derive(Drop)]
pub enum Item {
    Class(Class),
    Interface(Interface),
    Module(Module),
    UnitItem(UnitItem),
    Client(Client),
    Judge(Judgement),
    Pair(Pair),
}

#[derive(Drop)]
pub struct Bundle {
    pub items: List<Item>,
}

impl Decl {
    pub fn copy(&self) -> Result<Decl, Memory>
        ensures { IfOk result (λ d. d ≡ self.now) }
    {
        let (name, ty) = both(self.name.copy(), self.ty.copy())?;
        Ok(Decl { name, ty })
    }
}

impl Copies for Decl {
    fn copied(&self) -> Result<Decl, Memory> {
        self.copy()
    }
}

impl Place {
    pub fn copy(&self) -> Result<Place, Memory>
        ensures { IfOk result (λ p. p ≡ self.now) }
    {
        let (region, field) = both(self.region.copy(), self.field.copy())?;
        Ok(Place { region, field })
    }
}

impl Copies for Place {
    fn copied(&self) -> Result<Place, Memory> {
        self.copy()
    }
}

impl Effect {
    pub fn copy(&self) -> Result<Effect, Memory>
        ensures { IfOk result (λ e. e ≡ self.now) }
    {
        match self {
            Effect::Var(name) => Ok(Effect::Var(name.copy()?)),
            Effect::At(place) => Ok(Effect::At(place.copy()?)),
        }
    }
}

impl Copies for Effect {
    fn copied(&self) -> Result<Effect, Memory> {
        self.copy()
    }
}

impl Clause {
    pub fn copy(&self) -> Result<Clause, Memory>
        ensures { IfOk result (λ c. c ≡ self.now) }
    {
        Ok(Clause {
            at: self.at,
            formula: self.formula.copy()?,
        })
    }
}

impl RelClause {
    pub fn copy(&self) -> Result<RelClause, Memory>
        ensures { IfOk result (λ c. c ≡ self.now) }
    {
        Ok(RelClause {
            at: self.at,
            formula: self.formula.copy()?,
        })
    }
}

impl Spec {
    pub fn copy(&self) -> Result<Spec, Memory>
        ensures { IfOk result (λ s. s ≡ self.now) }
    {
        let clauses = both(self.needs.copy(), self.gives.copy());
        let ((needs, gives), writes) = both(clauses, self.writes.copied())?;
        Ok(Spec {
            needs,
            gives,
            writes,
        })
    }
}

impl Body {
    pub fn copy(&self) -> Result<Body, Memory>
        ensures { IfOk result (λ b. b ≡ self.now) }
    {
        let (locals, commands) = both(self.locals.copied(), self.commands.copied())?;
        Ok(Body {
            at: self.at,
            locals,
            commands,
        })
    }
}

impl Copies for Body {
    fn copied(&self) -> Result<Body, Memory> {
        self.copy()
    }
}

/// Copies of the name, the parameters and the type of the result of a procedure or a method.
fn copy_heading(name: &Name, params: &List<Decl>, ty: &Ty) -> Result<(Name, List<Decl>, Ty), Memory>
    ensures { IfOk result (λ h. (h.0 ≡ name.now) × (h.1 ≡ params.now) × (h.2 ≡ ty.now)) }
{
    let ((name, params), ty) = both(both(name.copy(), params.copied()), ty.copy())?;
    Ok((name, params, ty))
}

impl Proc {
    pub fn copy(&self) -> Result<Proc, Memory>
        ensures { IfOk result (λ p. p ≡ self.now) }
    {
        let heading = copy_heading(&self.name, &self.params, &self.result);
        let rest = both(self.spec.copy(), self.body.copy());
        let ((name, params, result), (spec, body)) = both(heading, rest)?;
        Ok(Proc {
            at: self.at,
            name,
            params,
            result,
            spec,
            body,
        })
    }
}

impl Copies for Proc {
    fn copied(&self) -> Result<Proc, Memory> {
        self.copy()
    }
}

impl Sig {
    pub fn copy(&self) -> Result<Sig, Memory>
        ensures { IfOk result (λ s. s ≡ self.now) }
    {
        let heading = copy_heading(&self.name, &self.params, &self.result);
        let ((name, params, result), spec) = both(heading, self.spec.copy())?;
        Ok(Sig {
            at: self.at,
            name,
            params,
            result,
            spec,
        })
    }
}

impl Copies for Sig {
    fn copied(&self) -> Result<Sig, Memory> {
        self.copy()
    }
}

impl Class {
    pub fn copy(&self) -> Result<Class, Memory>
        ensures { IfOk result (λ c. c ≡ self.now) }
    {
        let (name, fields) = both(self.name.copy(), self.fields.copied())?;
        Ok(Class {
            at: self.at,
            name,
            fields,
        })
    }
}

impl UnitItem {
    pub fn copy(&self) -> Result<UnitItem, Memory>
        ensures { IfOk result (λ u. u ≡ self.now) }
    {
        let members = both(self.globals.copied(), self.procs.copied());
        let (name, (globals, procs)) = both(self.name.copy(), members)?;
        Ok(UnitItem {
            at: self.at,
            name,
            globals,
            procs,
        })
    }
}

impl Client {
    pub fn copy(&self) -> Result<Client, Memory>
        ensures { IfOk result (λ c. c ≡ self.now) }
    {
        let names = both(self.name.copy(), self.interface.copy());
        let members = both(self.globals.copied(), self.procs.copied());
        let ((name, interface), (globals, procs)) = both(names, members)?;
        Ok(Client {
            at: self.at,
            name,
            interface,
            globals,
            procs,
        })
    }
}

impl Interface {
    pub fn copy(&self) -> Result<Interface, Memory>
        ensures { IfOk result (λ i. i ≡ self.now) }
    {
        let heading = copy_state(&self.name, &self.globals, &self.boundary);
        let members = copy_members(&self.init_ensures, &self.init_writes, &self.methods);
        let ((name, globals, boundary), (init_ensures, init_writes, methods)) = both(
            heading, members,
        )?;
        Ok(Interface {
            at: self.at,
            name,
            globals,
            boundary_at: self.boundary_at,
            boundary,
            init_ensures,
            init_writes,
            methods,
        })
    }
}

/// Copies of the name, the globals and the boundary of an interface.
fn copy_state(
    name: &Name,
    globals: &List<Decl>,
    boundary: &List<Place>,
) -> Result<(Name, List<Decl>, List<Place>), Memory>
    ensures { IfOk result (λ s. (s.0 ≡ name.now) × (s.1 ≡ globals.now) × (s.2 ≡ boundary.now)) }
{
    let ((name, globals), boundary) = both(both(name.copy(), globals.copied()), boundary.copied())?;
    Ok((name, globals, boundary))
}

/// Copies of the specification of the init and of the methods of an interface.
fn copy_members(
    ensured: &Clause,
    writes: &List<Effect>,
    methods: &List<Sig>,
) -> Result<(Clause, List<Effect>, List<Sig>), Memory>
    ensures { IfOk result (λ m. (m.0 ≡ ensured.now) × (m.1 ≡ writes.now) × (m.2 ≡ methods.now)) }
{
    let ((ensured, writes), methods) = both(
        both(ensured.copy(), writes.copied()),
        methods.copied(),
    )?;
    Ok((ensured, writes, methods))
}

impl Module {
    pub fn copy(&self) -> Result<Module, Memory>
        ensures { IfOk result (λ m. m ≡ self.now) }
    {
        let names = both(self.name.copy(), self.interface.copy());
        let state = both(self.globals.copied(), self.invariant.copy());
        let bodies = both(self.init.copy(), self.methods.copied());
        let ((name, interface), ((globals, invariant), (init, methods))) = both(
            names,
            both(state, bodies),
        )?;
        Ok(Module {
            at: self.at,
            name,
            interface,
            globals,
            invariant,
            init,
            methods,
        })
    }
}

impl Judgement {
    pub fn copy(&self) -> Result<Judgement, Memory>
        ensures { IfOk result (λ j. j ≡ self.now) }
    {
        let sides = both(self.left.copied(), self.right.copied());
        let clauses = both(self.needs.copy(), self.gives.copy());
        let ((name, (left, right)), ((needs, gives), align)) = both(
            both(self.name.copy(), sides),
            both(clauses, self.align.copy()),
        )?;
        Ok(Judgement {
            at: self.at,
            name,
            left,
            right,
            needs,
            gives,
            align,
        })
    }
}

impl Pair {
    pub fn copy(&self) -> Result<Pair, Memory>
        ensures { IfOk result (λ p. p ≡ self.now) }
    {
        let modules = both(self.left.copy(), self.right.copy());
        let alignments = both(self.init.copied(), self.methods.copied());
        let ((name, (left, right)), (coupling, (init, methods))) = both(
            both(self.name.copy(), modules),
            both(self.coupling.copy(), alignments),
        )?;
        Ok(Pair {
            at: self.at,
            name,
            left,
            right,
            coupling,
            init,
            methods,
        })
    }
}

impl Item {
    pub fn copy(&self) -> Result<Item, Memory>
        ensures { IfOk result (λ i. i ≡ self.now) }
    {
        match self {
            Item::Class(class) => Ok(Item::Class(class.copy()?)),
            Item::Interface(interface) => Ok(Item::Interface(interface.copy()?)),
            Item::Module(module) => Ok(Item::Module(module.copy()?)),
            Item::UnitItem(unit) => Ok(Item::UnitItem(unit.copy()?)),
            Item::Client(client) => Ok(Item::Client(client.copy()?)),
            Item::Judge(judgement) => Ok(Item::Judge(judgement.copy()?)),
            Item::Pair(pair) => Ok(Item::Pair(pair.copy()?)),
        }
    }
}

impl Copies for Item {
    fn copied(&self) -> Result<Item, Memory> {
        self.copy()
    }
}

impl Bundle {
    pub fn copy(&self) -> Result<Bundle, Memory>
        ensures { IfOk result (λ b. b ≡ self.now) }
    {
        Ok(Bundle {
            items: self.items.copied()?,
        })
    }
}
