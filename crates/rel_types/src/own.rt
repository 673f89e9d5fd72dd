//! What a body has of its own.

ghost use Rattle.std.specs.Prelude.{◌≡◌, [], ◌++◌, true, false, Some, OnOk, IfOk, map, option_map};
ghost use Rattle.std.specs.List.{list_any};
ghost use Rattle.rel_lang.specs.Scope.{globals_of, declared, result_variable};
ghost use Rattle.rel_lang.specs.State.{ByCall};
ghost use Rattle.rel_lang.specs.View.{decl_of, type_of};
ghost use Rattle.rel_flaws.specs.Inference as inference;
ghost use Rattle.rel_flaws.specs.Inference.{is_in_scope};
ghost use Rattle.rel_flaws.specs.View.{tables_seen, type_seen, variables_seen};
ghost use Rattle.rel_types.specs.Items.{repeats, seen_by_members, declared_names, clashes_in_module};
ghost use Rattle.rel_types.specs.OwnView.{AreLayers, decls_in, type_in, globals_in, setting_of};
ghost use Rattle.rel_types.specs.Lookups.{SameLookups, SameNames, names_in};

use crate::around::Globals;
use crate::declarations::{add_all, add_result};
use crate::names::add_names;
use rel_flaws::index::Index;
use rel_flaws::scope::{Seen, Tables};
use rel_flaws::types::Type;
use rel_lang::bundle::{Decl, Proc, Sig};
use rel_list::{List, Memory};
use std::alloc::Global;

/// Parameters, locals and the type of the result, where there are any.
#[derive(Clone, Copy, Drop)]
pub(crate) struct Own<'a> {
    pub params: Option<&'a List<Decl>>,
    pub locals: Option<&'a List<Decl>>,
    pub result: Option<Type<'a>>,
}

/// The variables of a body by name: parameters, locals, `result`, and none.
#[derive(Drop)]
pub(crate) struct OwnLayers<'a> {
    pub params: Index<'a, Seen<'a>>,
    pub locals: Index<'a, Seen<'a>>,
    pub result: Index<'a, Seen<'a>>,
    pub none: Index<'a, Seen<'a>>,
}

impl<'a> Own<'a> {
    pub fn of_proc(proc: &'a Proc) -> Own<'a>
        ensures params { decls_in result.params ≡ map decl_of proc.now.params }
        ensures locals { decls_in result.locals ≡ map decl_of proc.now.body.locals }
        ensures result { type_in result ≡ Some (type_of proc.now.result) }
    {
        Own {
            params: Some(&proc.params),
            locals: Some(&proc.body.locals),
            result: Some(Type::of(&proc.result)),
        }
    }

    /// Of a method, which has no locals but in a module.
    pub fn of_method(method: &'a Sig) -> Own<'a>
        ensures params { decls_in result.params ≡ map decl_of method.now.params }
        ensures locals { decls_in result.locals ≡ [] }
        ensures result { type_in result ≡ Some (type_of method.now.result) }
    {
        Own {
            params: Some(&method.params),
            locals: None,
            result: Some(Type::of(&method.result)),
        }
    }

    /// The variables by name.
    pub fn layers(self, alloc: Global) -> Result<OwnLayers<'a>, Memory>
        ensures { IfOk result (λ l. AreLayers self.entry l) }
    {
        let params = variables_of(alloc, self.params, false)?;
        let locals = variables_of(alloc, self.locals, true)?;
        let result = result_of(alloc, self.result)?;
        Ok(OwnLayers {
            params,
            locals,
            result,
            none: Index::new(alloc),
        })
    }

    /// Whether a parameter or a local has a name that stands before it, or that is a global's, or `result`.
    pub fn repeats(self, alloc: Global, globals: Globals<'a, '_>) -> Result<bool, Memory>
        ensures { IfOk result (λ r. r ≡ repeats (seen_by_members (globals_of (setting_of globals.entry self.entry)))
            (declared_names (decls_in self.entry.params ++ decls_in self.entry.locals))) }
    {
        let mut names = Index::new(alloc);
        let params = add_own_names(globals, &mut names, self.params)?;
        let locals = add_own_names(globals, &mut names, self.locals)?;
        Ok(params | locals)
    }

    /// Whether a parameter has the name of one of a module's own globals, or a local has a name that stands before it, or that is a global's, or `result`.
    /// What else repeats among the parameters is the interface's fault.
    pub fn clashes_in_module(self, alloc: Global, globals: Globals<'a, '_>) -> Result<bool, Memory>
        ensures { IfOk result (λ r. r ≡ clashes_in_module (setting_of globals.entry self.entry)) }
    {
        let mut names = Index::new(alloc);
        add_own_names(globals, &mut names, self.params)?;
        let locals = add_own_names(globals, &mut names, self.locals)?;
        Ok(has_names_of(globals.own, self.params) | locals)
    }
}

/// The declared variables by name, where there are any.
fn variables_of<'a>(
    alloc: Global,
    decls: Option<&'a List<Decl>>,
    is_assignable: bool,
) -> Result<Index<'a, Seen<'a>>, Memory>
    ensures { IfOk result (λ i. SameLookups (variables_seen i) (declared ByCall is_assignable (decls_in decls.entry))) }
{
    let mut index = Index::new(alloc);
    match decls {
        Some(decls) => {
            add_all(&mut index, decls, is_assignable)?;
            Ok(index)
        }
        None => Ok(index),
    }
}

/// `result` by name, where there is one.
fn result_of<'a>(alloc: Global, ty: Option<Type<'a>>) -> Result<Index<'a, Seen<'a>>, Memory>
    ensures { IfOk result (λ i. SameLookups (variables_seen i) (result_variable (option_map type_seen ty.entry))) }
{
    let mut index = Index::new(alloc);
    match ty {
        Some(ty) => {
            add_result(&mut index, ty)?;
            Ok(index)
        }
        None => Ok(index),
    }
}

/// Adds the names of declarations, where there are any, and whether one of them stands before, or is `result` or that of a global.
fn add_own_names<'a>(
    globals: Globals<'a, '_>,
    own: &mut Index<'a, ()>,
    decls: Option<&'a List<Decl>>,
) -> Result<bool, Memory>
    ensures repeated { IfOk result (λ r. r ≡ repeats (names_in own.old ++ seen_by_members (globals_in globals.entry)) (declared_names (decls_in decls.entry))) }
    ensures added { OnOk result (SameNames (names_in own.new) (declared_names (decls_in decls.entry) ++ names_in own.old)) }
{
    match decls {
        Some(decls) => add_names(Some(globals), own, decls),
        None => Ok(false),
    }
}

/// Whether a declaration has the name of one of these variables.
fn are_named(variables: &Index<'_, Seen<'_>>, decls: &List<Decl>) -> bool
    ensures { result ≡ list_any (λ d. is_in_scope d.name (variables_seen variables.now)) (map decl_of decls.now) }
{
    let mut found = false;
    for decl in decls.as_slice() {
        found = found | variables.has(decl.name.as_str());
    }
    found
}

/// Whether one of the declarations, where there are any, has the name of one of these variables.
fn has_names_of(variables: &Index<'_, Seen<'_>>, decls: Option<&List<Decl>>) -> bool
    ensures { result ≡ list_any (λ d. is_in_scope d.name (variables_seen variables.now)) (decls_in decls.entry) }
{
    match decls {
        Some(decls) => are_named(variables, decls),
        None => false,
    }
}

/// Whether one of the declarations is of a class that isn't there.
pub(crate) fn unknown_in(tables: &Tables<'_>, decls: Option<&List<Decl>>) -> bool
    ensures { result ≡ inference.have_unknown_types (tables_seen tables.now) (decls_in decls.entry) }
{
    match decls {
        Some(decls) => crate::items::have_unknown_types(tables, decls),
        None => false,
    }
}
