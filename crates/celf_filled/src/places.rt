//! What is filled in: objects of new metavariables, where the simple types of the place and of all locals are known.
ghost use Rattle.std.specs.Prelude.{◌≡◌, false, Some, IfOk, OnOk, map, option_copied, reverse};
ghost use Rattle.clf_syntax.specs.Plain.{plain_obj};
ghost use Rattle.clf_syntax.specs.PlainSimple.{plain_simple, plain_simple_entry};
ghost use Rattle.celf_places.specs.Locals.{plain_place};
ghost use Rattle.celf_filled.specs.Scopes.{plain_scope, known_locals};
ghost use Rattle.celf_filled.specs.States.{state_of};
ghost use Rattle.celf_filled.specs.Walk as spec;
ghost use Rattle.clf_syntax.specs.Tree.{hole};

use crate::scope::Scope;
use clf_syntax::{Obj, Shortage, Simple, SimpleEntry, Want};
use metavars::Store;

/// The object of new metavariables at a place; a hole where the simple type of the place or of a local is not known,
/// and then not all is filled in.
pub fn fill_place(
    store: &mut Store,
    whole: &mut bool,
    scope: &Scope<'_>,
    place: Option<&Simple>,
) -> Result<Obj, Shortage>
    ensures made { IfOk result (λ o.
        plain_obj o
        ≡ (spec.fill_place (plain_scope scope.now) (plain_place (option_copied place.entry))
        (state_of store.old whole.old)).0) }
    ensures left { OnOk result (state_of store.new whole.new
        ≡ (spec.fill_place (plain_scope scope.now) (plain_place (option_copied place.entry))
        (state_of store.old whole.old)).1) }
{
    match place {
        Some(simple) => fill_simple(store, whole, scope, simple),
        None => Ok(left_open(whole)),
    }
}

/// A hole, which leaves something open.
#[tactic(auto, using(clf_syntax::specs::Plain::plain_laws))]
fn left_open(whole: &mut bool) -> Obj
    ensures made { plain_obj result ≡ hole }
    ensures open { whole.new ≡ false }
{
    *whole = false;
    Obj::Hole
}

/// The object at a simple type.
fn fill_simple(
    store: &mut Store,
    whole: &mut bool,
    scope: &Scope<'_>,
    simple: &Simple,
) -> Result<Obj, Shortage>
    ensures made { IfOk result (λ o.
        plain_obj o
        ≡ (spec.fill_known (known_locals (plain_scope scope.now)) (plain_simple simple.now)
        (state_of store.old whole.old)).0) }
    ensures left { OnOk result (state_of store.new whole.new
        ≡ (spec.fill_known (known_locals (plain_scope scope.now)) (plain_simple simple.now)
        (state_of store.old whole.old)).1) }
{
    match scope.known(store.alloc())? {
        Some(locals) => fresh(store, whole, simple, locals.as_slice()),
        None => Ok(left_open(whole)),
    }
}

/// The object over these locals, the oldest first.
fn fresh(
    store: &mut Store,
    whole: &mut bool,
    simple: &Simple,
    locals: &[SimpleEntry],
) -> Result<Obj, Shortage>
    ensures made { IfOk result (λ o.
        plain_obj o
        ≡ (spec.fill_known (Some (map plain_simple_entry (reverse locals.now))) (plain_simple simple.now)
        (state_of store.old whole.old)).0) }
    ensures left { OnOk result (state_of store.new whole.new
        ≡ (spec.fill_known (Some (map plain_simple_entry (reverse locals.now))) (plain_simple simple.now)
        (state_of store.old whole.old)).1) }
{
    match store.fresh(simple, locals) {
        Ok(obj) => Ok(obj),
        Err(want) => Err(shortage(want)),
    }
}

/// A want without the list that is kept.
pub fn shortage(want: Want) -> Shortage {
    match want {
        Want::NoMemory => Shortage::Memory,
        Want::TooFar(_) => Shortage::Numbers,
    }
}
