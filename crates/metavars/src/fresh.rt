//! Objects made of new metavariables.
ghost use Rattle.std.specs.Prelude.{◌≡◌, ◌+◌, ◌<◌, ◌≤◌, ◌++◌, [], ◌∷◌, IfOk, OnOk, OnErr, IfErr, length, map, reverse, take};
ghost use Rattle.clf_syntax.specs.declared.tree.Head.TheVariants.{Var, Meta};
ghost use Rattle.clf_syntax.specs.Tree.{pair, head_alone};
ghost use Rattle.clf_syntax.specs.Plain.{plain_obj, plain_neutral};
ghost use Rattle.clf_syntax.specs.PlainSimple.{plain_simple, plain_simple_entry};
ghost use Rattle.clf_syntax.specs.Wide.{IsWant};
ghost use Rattle.eta_laws.specs.Eta.{eta};
ghost use Rattle.store_laws.specs.Additions.{new, meta_types};
ghost use Rattle.metavars.specs.Fresh.{scope_of, local, binder, functions, applied_from, on_scope, new_types, fresh_object};
ghost use Rattle.metavars.specs.Fresh as fresh;
ghost use Rattle.metavars.specs.Scopes.{plain_local, plain_scope, function_by, applied_by};
ghost use Rattle.metavars.specs.Stored.{constants, additions, IsPart};

use crate::store::Store;
use crate::value::bare;
use clf_simple::eta;
use clf_syntax::{Elim, Head, Mode, Neutral, Obj, Or, Simple, SimpleEntry, Want};
use hered_put::with_elimination;
use sqlite_items::Boxed;
use std::alloc::{AllocError, Global};

/// A variable in scope, and whether new metavariables are applied to it.
#[derive(Clone, Copy)]
pub struct Local<'a> {
    pub mode: Mode,
    pub ty: &'a Simple,
    pub applied: bool,
}

impl Store {
    /// An object of a simple type that is made of new metavariables: one for each family and monad that the type ends
    /// in.
    ///
    /// Each is applied to the persistent locals, the oldest first, and then to the binders of the object around it,
    /// each in its mode. `locals` has the oldest first.
    pub fn fresh(&mut self, ty: &Simple, locals: &[SimpleEntry]) -> Result<Obj, Want>
        ensures object { IfOk result (λ x.
            plain_obj x
            ≡ fresh_object (length (meta_types (additions self.old)))
            (scope_of (map plain_simple_entry (reverse locals.now))) (plain_simple ty.now)) }
        ensures added { OnOk result (additions self.new
            ≡ additions self.old
            ++ map new (new_types (scope_of (map plain_simple_entry (reverse locals.now)))
            (plain_simple ty.now))) }
        ensures constants { constants self.new ≡ constants self.old }
        ensures unchanged { OnErr result (self.new ≡ self.old) }
        ensures wanting { IfErr result IsWant }
    {
        let mark = self.mark();
        match self.fresh_in(ty, locals) {
            Ok(obj) => Ok(obj),
            Err(want) => {
                self.undo(mark);
                Err(want)
            }
        }
    }

    /// The same, where the additions stay after a want.
    fn fresh_in(&mut self, ty: &Simple, locals: &[SimpleEntry]) -> Result<Obj, Want>
        ensures object { IfOk result (λ x.
            plain_obj x
            ≡ fresh_object (length (meta_types (additions self.old)))
            (scope_of (map plain_simple_entry (reverse locals.now))) (plain_simple ty.now)) }
        ensures added { OnOk result (additions self.new
            ≡ additions self.old
            ++ map new (new_types (scope_of (map plain_simple_entry (reverse locals.now)))
            (plain_simple ty.now))) }
        ensures grown { IsPart self.old self.new }
        ensures wanting { IfErr result IsWant }
    {
        let scope = scope_of_locals(self.alloc(), locals)?;
        make(self, ty, scope)
    }
}

/// The locals as a scope. The persistent ones are used.
fn scope_of_locals<'a>(
    alloc: Global,
    locals: &'a [SimpleEntry],
) -> Result<Vec<Local<'a>>, AllocError>
    ensures { IfOk result (λ scope. plain_scope scope.items ≡ scope_of (map plain_simple_entry (reverse locals.now))) }
{
    let mut scope = Vec::new(alloc);
    for local in locals {
        scope.push(local_of(local))?;
    }
    Ok(scope)
}

/// A local is used where it is persistent.
#[tactic(auto, using(clf_syntax::specs::PlainSimple::plain_simple_laws))]
fn local_of<'a>(entry: &'a SimpleEntry) -> Local<'a>
    ensures { plain_local result ≡ local (plain_simple_entry entry.now) }
{
    Local {
        mode: entry.mode,
        ty: &entry.ty,
        applied: is_persistent(entry.mode),
    }
}

fn is_persistent(mode: Mode) -> bool
    ensures { result ≡ fresh.is_persistent mode }
{
    matches!(mode, Mode::Persistent)
}

/// The object in a scope, the oldest variable first.
#[cycle(make)]
#[tactic(auto, using(clf_syntax::specs::Plain::plain_laws, clf_syntax::specs::PlainSimple::plain_simple_laws))]
fn make<'a>(store: &mut Store, ty: &'a Simple, scope: Vec<Local<'a>>) -> Result<Obj, Want>
    ensures object { IfOk result (λ x.
        plain_obj x
        ≡ fresh_object (length (meta_types (additions store.old))) (plain_scope scope.entry.items)
        (plain_simple ty.now)) }
    ensures added { OnOk result (additions store.new
        ≡ additions store.old ++ map new (new_types (plain_scope scope.entry.items) (plain_simple ty.now))) }
    ensures grown { IsPart store.old store.new }
    ensures wanting { IfErr result IsWant }
{
    match ty {
        Simple::Atom(_) | Simple::Monad { .. } => make_meta(store, ty, scope.as_slice()),
        Simple::Fun { mode, dom, cod } => {
            let alloc = store.alloc();
            let inner = with_binder(scope, *mode, dom.get())?;
            let body = make(store, cod.get(), inner)?;
            Ok(Obj::Lam {
                mode: *mode,
                body: Boxed::new(alloc, body)?,
            })
        }
        Simple::With { left, right } => make_pair(store, left.get(), right.get(), scope),
        Simple::Top => Ok(Obj::Unit),
    }
}

#[cycle(make)]
#[tactic(auto, using(clf_syntax::specs::Plain::plain_laws))]
fn make_pair<'a>(
    store: &mut Store,
    left: &'a Simple,
    right: &'a Simple,
    scope: Vec<Local<'a>>,
) -> Result<Obj, Want>
    ensures object { IfOk result (λ x.
        plain_obj x
        ≡ pair (fresh_object (length (meta_types (additions store.old))) (plain_scope scope.entry.items)
        (plain_simple left.now)) (fresh_object (length (meta_types (additions store.old))
        + length (new_types (plain_scope scope.entry.items) (plain_simple left.now)))
        (plain_scope scope.entry.items) (plain_simple right.now))) }
    ensures added { OnOk result (additions store.new
        ≡ additions store.old
        ++ map new (new_types (plain_scope scope.entry.items) (plain_simple left.now)
        ++ new_types (plain_scope scope.entry.items) (plain_simple right.now))) }
    ensures grown { IsPart store.old store.new }
    ensures wanting { IfErr result IsWant }
{
    let alloc = store.alloc();
    let again = Vec::from_slice(alloc, scope.as_slice())?;
    let left = make(store, left, again)?;
    let right = make(store, right, scope)?;
    Ok(Obj::Pair {
        left: Boxed::new(alloc, left)?,
        right: Boxed::new(alloc, right)?,
    })
}

/// The scope under a binder of the object.
fn with_binder<'a>(
    scope: Vec<Local<'a>>,
    mode: Mode,
    ty: &'a Simple,
) -> Result<Vec<Local<'a>>, AllocError>
    ensures { IfOk result
        (λ inner. plain_scope inner.items ≡ binder mode (plain_simple ty.now) ∷ plain_scope scope.entry.items) }
{
    let mut inner = scope;
    inner.push(Local {
        mode,
        ty,
        applied: true,
    })?;
    Ok(inner)
}

/// A new metavariable, applied to the scope.
fn make_meta(store: &mut Store, ty: &Simple, scope: &[Local<'_>]) -> Result<Obj, Want>
    ensures object { IfOk result
        (λ x. plain_obj x ≡ on_scope (length (meta_types (additions store.old))) (plain_scope scope.now)) }
    ensures added { OnOk result (additions store.new
        ≡ additions store.old ++ new (functions (plain_scope scope.now) (plain_simple ty.now)) ∷ []) }
    ensures grown { IsPart store.old store.new }
    ensures wanting { IfErr result IsWant }
{
    let alloc = store.alloc();
    let simple = function_of(alloc, scope, ty.copy(alloc)?)?;
    let meta = store.new_meta(simple)?;
    Ok(Obj::At {
        neutral: apply_to(alloc, meta, scope)?,
    })
}

/// The simple type of a function of the variables that are used.
fn function_of(alloc: Global, scope: &[Local<'_>], cod: Simple) -> Result<Simple, AllocError>
    ensures { IfOk result (λ x. plain_simple x ≡ functions (plain_scope scope.now) (plain_simple cod)) }
{
    let mut ty = cod;
    let mut left = scope.len();
    while left > 0 {
        left -= 1;
        ty = function_from(alloc, &scope[left], ty)?;
    }
    Ok(ty)
}

/// A function of a variable, where it is used.
#[tactic(auto, using(clf_syntax::specs::PlainSimple::plain_simple_laws))]
fn function_from(alloc: Global, local: &Local<'_>, cod: Simple) -> Result<Simple, AllocError>
    ensures { IfOk result (λ x. plain_simple x ≡ function_by (plain_local local.now) (plain_simple cod)) }
{
    if !local.applied {
        return Ok(cod);
    }
    let dom = local.ty.copy(alloc)?;
    Ok(Simple::Fun {
        mode: local.mode,
        dom: Boxed::new(alloc, dom)?,
        cod: Boxed::new(alloc, cod)?,
    })
}

/// A metavariable, applied to the variables that are used.
fn apply_to(alloc: Global, meta: u32, scope: &[Local<'_>]) -> Result<Neutral, Want>
    ensures neutral { IfOk result
        (λ n. plain_neutral n ≡ applied_from 0 (plain_scope scope.now) (head_alone (Meta meta))) }
    ensures wanting { IfErr result IsWant }
{
    let mut neutral = bare(alloc, Head::Meta(meta));
    let mut left = scope.len();
    for local in scope {
        left -= 1;
        neutral = apply_local(alloc, neutral, local, left)?;
    }
    Ok(neutral)
}

/// A neutral applied to a variable of a number, where the variable is used.
#[tactic(auto, using(clf_syntax::specs::Plain::plain_laws))]
fn apply_local(
    alloc: Global,
    neutral: Neutral,
    local: &Local<'_>,
    index: usize,
) -> Result<Neutral, Want>
    ensures neutral { IfOk result
        (λ n. plain_neutral n ≡ applied_by (plain_local local.now) index (plain_neutral neutral)) }
    ensures wanting { IfErr result IsWant }
{
    if !local.applied {
        return Ok(neutral);
    }
    let obj = variable(alloc, local.ty, index)?;
    let act = Elim::Arg {
        mode: local.mode,
        obj,
    };
    Ok(with_elimination(neutral, act)?)
}

/// A variable in its eta-long form.
fn variable(alloc: Global, ty: &Simple, index: usize) -> Result<Obj, Want>
    ensures object { IfOk result (λ x. plain_obj x ≡ eta (plain_simple ty.now) (head_alone (Var index))) }
    ensures wanting { IfErr result IsWant }
{
    if index > u32::MAX as usize {
        return Err(Want::too_far(alloc));
    }
    let neutral = bare(alloc, Head::Var(index as u32));
    match eta(alloc, ty, &neutral) {
        Ok(obj) => Ok(obj),
        Err(Or::Fault(_)) => Err(Want::too_far(alloc)),
        Err(Or::NoMemory) => Err(Want::NoMemory),
    }
}
