//! The reading of objects, with new metavariables for what is left to be found.
ghost use Rattle.std.specs.Prelude.{◌≡◌, map, IfOk, OnOk, option_copied};
ghost use Rattle.clf_syntax.specs.Plain.{plain_obj, plain_neutral, plain_step, plain_entry};
ghost use Rattle.clf_syntax.specs.PlainSimple.{plain_simple_entry};
ghost use Rattle.clf_syntax.specs.Tree as core;
ghost use Rattle.clf_sig.specs.Signature.{plain_signature};
ghost use Rattle.celf_sugar.specs.PlainTree.{spine_of};
ghost use Rattle.celf_sugar.specs.Plain.{desugared_object, desugared_expression, desugared_elim, desugared_step, desugared_marked};
ghost use Rattle.celf_places.specs.Locals.{plain_place};
ghost use Rattle.celf_places.specs.Along.{left_along};
ghost use Rattle.celf_places.specs.Combined.{with_mode};
ghost use Rattle.celf_explicit.specs.Objects.{expression_of, pattern_modes};
ghost use Rattle.celf_filled.specs.Scopes.{plain_scope, plain_named};
ghost use Rattle.celf_filled.specs.States.{state_of};
ghost use Rattle.celf_filled.specs.Headed.{plain_headed};
ghost use Rattle.celf_filled.specs.Walk as spec;

use crate::headed::{
    Headed, applied, fill_head, first_of, is_dropped, long_form, only_object, second_of,
};
use crate::places::fill_place;
use crate::scope::Scope;
use celf_implicit::Implicit;
use celf_places::{entries_at, function_parts, marked, next_part, pair_parts};
use celf_sugar::{PBinder, PElim, PExpr, PMarked, PName, PObj, PObjForm, PStep};
use clf_sig::Signature;
use clf_syntax::{
    Expr, Mode, Modes, Neutral, Obj, Shortage, Simple, SimpleEntry, Step, TupleEntry,
};
use metavars::Store;
use sqlite_items::{Boxed, Items};
use std::alloc::Global;

/// The tree of an object at a place, under these binders.
#[cycle(fill)]
#[tactic(auto, using(celf_names::proofs::Forms::object_laws, clf_syntax::specs::Plain::plain_laws))]
pub fn fill_object<'a>(
    obj: &'a PObj,
    sig: &'a Signature,
    variables: &'a [Implicit],
    scope: &Scope<'a>,
    place: Option<&'a Simple>,
    store: &mut Store,
    whole: &mut bool,
) -> Result<Obj, Shortage>
    ensures made { IfOk result (λ o.
        plain_obj o
        ≡ (spec.fill_object (plain_signature sig.now) (map plain_named variables.now) (plain_scope scope.now)
        (plain_place (option_copied place.entry)) (desugared_object obj.now) (state_of store.old whole.old)).0) }
    ensures left { OnOk result (state_of store.new whole.new
        ≡ (spec.fill_object (plain_signature sig.now) (map plain_named variables.now) (plain_scope scope.now)
        (plain_place (option_copied place.entry)) (desugared_object obj.now) (state_of store.old whole.old)).1) }
{
    match &obj.form {
        PObjForm::Lam { mode, name, body } => {
            let alloc = store.alloc();
            let parts = function_parts(place);
            let mode = marked(*mode, parts.mode);
            let inner = scope.with(alloc, mode, name, parts.domain)?;
            let body = fill_object(
                body.get(),
                sig,
                variables,
                &inner,
                parts.codomain,
                store,
                whole,
            )?;
            lambda(alloc, mode, body)
        }
        PObjForm::Pair { left, right } => {
            let parts = pair_parts(place);
            let first = fill_object(left.get(), sig, variables, scope, parts.left, store, whole)?;
            let second = fill_object(
                right.get(),
                sig,
                variables,
                scope,
                parts.right,
                store,
                whole,
            )?;
            pair(store.alloc(), first, second)
        }
        PObjForm::Unit => Ok(Obj::Unit),
        PObjForm::Mon { expr } => {
            fill_expression(expr, sig, variables, scope, entries_at(place), store, whole)
        }
        PObjForm::At { head, spine } => {
            if is_dropped(place) {
                return only_object(store.alloc(), place);
            }
            let headed = fill_neutral(spine.as_slice(), sig, variables, scope, head, store, whole)?;
            long_form(store.alloc(), headed.neutral, place)
        }
        PObjForm::Hole => fill_place(store, whole, scope, place),
    }
}

#[tactic(auto, using(clf_syntax::specs::Plain::plain_laws))]
fn lambda(alloc: Global, mode: Mode, body: Obj) -> Result<Obj, Shortage>
    ensures { IfOk result (λ o. plain_obj o ≡ core.lam mode (plain_obj body)) }
{
    Ok(Obj::Lam {
        mode,
        body: Boxed::new(alloc, body)?,
    })
}

#[tactic(auto, using(clf_syntax::specs::Plain::plain_laws))]
fn pair(alloc: Global, left: Obj, right: Obj) -> Result<Obj, Shortage>
    ensures { IfOk result (λ o. plain_obj o ≡ core.pair (plain_obj left) (plain_obj right)) }
{
    Ok(Obj::Pair {
        left: Boxed::new(alloc, left)?,
        right: Boxed::new(alloc, right)?,
    })
}

/// The neutral of a head, and what is done to it.
#[cycle(fill)]
fn fill_neutral<'a>(
    spine: &'a [PElim],
    sig: &'a Signature,
    variables: &'a [Implicit],
    scope: &Scope<'a>,
    head: &'a PName,
    store: &mut Store,
    whole: &mut bool,
) -> Result<Headed<'a>, Shortage>
    ensures { IfOk result (λ h.
        (plain_headed h, state_of store.new whole.new)
        ≡ spec.fill_spine (plain_signature sig.now) (map plain_named variables.now) (plain_scope scope.now)
        (spec.fill_head (plain_signature sig.now) (map plain_named variables.now) (plain_scope scope.now) head.now
        (state_of store.old whole.old)) (spine_of (map desugared_elim spine.now))) }
{
    let mut headed = fill_head(sig, variables, scope, head, store, whole)?;
    for act in spine {
        headed = fill_act(act, sig, variables, scope, headed, store, whole)?;
    }
    Ok(headed)
}

#[cycle(fill)]
#[tactic(auto, using(celf_sugar::specs::Plain::elim_laws))]
fn fill_act<'a>(
    act: &'a PElim,
    sig: &'a Signature,
    variables: &'a [Implicit],
    scope: &Scope<'a>,
    headed: Headed<'a>,
    store: &mut Store,
    whole: &mut bool,
) -> Result<Headed<'a>, Shortage>
    ensures { IfOk result (λ h.
        (plain_headed h, state_of store.new whole.new)
        ≡ spec.fill_act (plain_signature sig.now) (map plain_named variables.now) (plain_scope scope.now)
        (plain_headed headed.entry, state_of store.old whole.old) (desugared_elim act.now)) }
{
    match act {
        PElim::Arg { mode, obj } => {
            let parts = function_parts(headed.place);
            let obj = fill_object(obj, sig, variables, scope, parts.domain, store, whole)?;
            Ok(Headed {
                neutral: applied(headed.neutral, marked(*mode, parts.mode), obj)?,
                place: parts.codomain,
            })
        }
        PElim::First => Ok(first_of(headed)?),
        PElim::Second => Ok(second_of(headed)?),
    }
}

/// The tree of a monadic object, of whose tuple these entries are wanted.
#[cycle(fill)]
fn fill_expression<'a>(
    expr: &'a PExpr,
    sig: &'a Signature,
    variables: &'a [Implicit],
    outer: &Scope<'a>,
    wanted: &'a [SimpleEntry],
    store: &mut Store,
    whole: &mut bool,
) -> Result<Obj, Shortage>
    ensures made { IfOk result (λ o.
        plain_obj o
        ≡ (spec.fill_expression (plain_signature sig.now) (map plain_named variables.now) (plain_scope outer.now)
        (map plain_simple_entry wanted.now) (desugared_expression expr.now) (state_of store.old whole.old)).0) }
    ensures left { OnOk result (state_of store.new whole.new
        ≡ (spec.fill_expression (plain_signature sig.now) (map plain_named variables.now) (plain_scope outer.now)
        (map plain_simple_entry wanted.now) (desugared_expression expr.now) (state_of store.old whole.old)).1) }
{
    let alloc = store.alloc();
    let mut scope = outer.copy(alloc)?;
    let mut steps = Items::new(alloc);
    for step in expr.steps.as_slice() {
        steps.push(fill_step(step, sig, variables, &mut scope, store, whole)?)?;
    }
    let tuple = fill_tuple(
        expr.result.as_slice(),
        sig,
        variables,
        &scope,
        wanted,
        store,
        whole,
    )?;
    let made = monadic(alloc, steps, tuple)?;
    Ok(made)
}

/// Steps and a tuple.
#[tactic(auto, using(clf_syntax::specs::Plain::plain_laws))]
fn monadic(alloc: Global, steps: Items<Step>, tuple: Items<TupleEntry>) -> Result<Obj, Shortage>
    ensures { IfOk result
        (λ o. plain_obj o ≡ expression_of (map plain_step steps) (map plain_entry tuple)) }
{
    let expr = Boxed::new(
        alloc,
        Expr {
            steps,
            result: tuple,
        },
    )?;
    Ok(Obj::Mon { expr })
}

/// A step, whose pattern is bound.
#[cycle(fill)]
#[tactic(auto, using(celf_sugar::specs::Plain::step_laws))]
fn fill_step<'a>(
    written: &'a PStep,
    sig: &'a Signature,
    variables: &'a [Implicit],
    scope: &mut Scope<'a>,
    store: &mut Store,
    whole: &mut bool,
) -> Result<Step, Shortage>
    ensures { IfOk result (λ s.
        ((plain_step s, plain_scope scope.new), state_of store.new whole.new)
        ≡ spec.one_step (plain_signature sig.now) (map plain_named variables.now) (plain_scope scope.old)
        (desugared_step written.now) (state_of store.old whole.old)) }
{
    let alloc = store.alloc();
    let headed = fill_neutral(
        written.spine.as_slice(),
        sig,
        variables,
        scope,
        &written.head,
        store,
        whole,
    )?;
    let entries = entries_at(headed.place);
    let modes = modes_of(alloc, entries, written.pattern.as_slice())?;
    scope.bind_pattern(entries, written.pattern.as_slice())?;
    Ok(step_of(modes, headed.neutral))
}

#[tactic(auto, using(clf_syntax::specs::Plain::plain_laws))]
fn step_of(modes: Modes, rhs: Neutral) -> Step
    ensures { plain_step result ≡ with_mode modes (plain_neutral rhs) }
{
    Step { modes, rhs }
}

/// The modes of a pattern for these entries.
fn modes_of(alloc: Global, entries: &[SimpleEntry], pattern: &[PBinder]) -> Result<Modes, Shortage>
    ensures { IfOk result (λ ms. ms ≡ pattern_modes (map plain_simple_entry entries.now) pattern.now) }
{
    let mut modes = Modes::empty(alloc);
    let mut wanted = entries;
    for binder in pattern {
        let next = next_part(wanted);
        modes.push(marked(binder.mode, next.mode))?;
        wanted = next.later;
    }
    Ok(modes)
}

/// The entries of a tuple.
#[cycle(fill)]
fn fill_tuple<'a>(
    tuple: &'a [PMarked],
    sig: &'a Signature,
    variables: &'a [Implicit],
    scope: &Scope<'a>,
    wanted: &'a [SimpleEntry],
    store: &mut Store,
    whole: &mut bool,
) -> Result<Items<TupleEntry>, Shortage>
    ensures made { IfOk result (λ es.
        map plain_entry es
        ≡ (left_along (spec.fill_entry (plain_signature sig.now) (map plain_named variables.now)
        (plain_scope scope.now)) (
          spec.no_entries_yet (map plain_simple_entry wanted.now),
          state_of store.old whole.old,
        ) (map desugared_marked tuple.now)).0.entries) }
    ensures left { OnOk result (state_of store.new whole.new
        ≡ (left_along (spec.fill_entry (plain_signature sig.now) (map plain_named variables.now)
        (plain_scope scope.now)) (
          spec.no_entries_yet (map plain_simple_entry wanted.now),
          state_of store.old whole.old,
        ) (map desugared_marked tuple.now)).1) }
{
    let mut entries = Items::new(store.alloc());
    let mut wanted = wanted;
    for entry in tuple {
        let next = next_part(wanted);
        entries.push(fill_entry(
            entry, sig, variables, scope, next.mode, next.place, store, whole,
        )?)?;
        wanted = next.later;
    }
    Ok(entries)
}

#[cycle(fill)]
#[tactic(auto, using(celf_sugar::specs::Plain::marked_laws, clf_syntax::specs::Plain::plain_laws))]
fn fill_entry<'a>(
    entry: &'a PMarked,
    sig: &'a Signature,
    variables: &'a [Implicit],
    scope: &Scope<'a>,
    mode: Mode,
    place: Option<&'a Simple>,
    store: &mut Store,
    whole: &mut bool,
) -> Result<TupleEntry, Shortage>
    ensures { IfOk result (λ e.
        (plain_entry e, state_of store.new whole.new)
        ≡ spec.one_entry (plain_signature sig.now) (map plain_named variables.now) (plain_scope scope.now) mode
        (plain_place (option_copied place.entry)) (desugared_marked entry.now) (state_of store.old whole.old)) }
{
    let obj = fill_object(&entry.obj, sig, variables, scope, place, store, whole)?;
    Ok(TupleEntry {
        mode: marked(entry.mode, mode),
        obj,
    })
}
