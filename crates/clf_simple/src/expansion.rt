//! Eta-long forms, written out.
//!
//! On the way down a type the eliminations of the neutral are only noted: each is written where a family or a monad is
//! reached, once it is known how many lambdas were met. So no tree is renamed twice, and `<>` drops them unwritten.
ghost use Rattle.std.specs.Prelude.{◌≡◌, ◌+◌, ◌-◌, ◌<◌, ◌≤◌, ℕ, [], ◌∷◌, ◌++◌, IfOk, length, map};
ghost use Rattle.std.specs.List.{list_all};
ghost use Rattle.clf_syntax.specs.declared.tree.Head.TheVariants.{Var};
ghost use Rattle.clf_syntax.specs.Tree.{head_of, lam, pair};
ghost use Rattle.clf_syntax.specs.Plain.{plain_obj, plain_neutral, plain_elim, plain_entry};
ghost use Rattle.clf_syntax.specs.PlainSimple.{plain_simple, plain_simple_entry, simple_telescope_of};
ghost use Rattle.clf_syntax.specs.Renaming.{ren_neutral, up};
ghost use Rattle.clf_syntax.specs.Renumbered.{fits_elimination, fits_entry};
ghost use Rattle.clf_syntax.specs.Simple.{simple_modes};
ghost use Rattle.clf_syntax.specs.Written.{Writes, fits, fits_head, fits_neutral};
ghost use Rattle.eta_laws.specs.Eta.{at_monad, expansion};
ghost use Rattle.hered_subst.specs.TypedEnvironments.{is_metavariable};
ghost use Rattle.clf_simple.specs.Noted as spec;
ghost use Rattle.clf_simple.specs.Roots.{plain_root, plain_noted, plain_notes};

use clf_syntax::{
    Elim, Expr, Head, Mode, Modes, Neutral, Obj, Or, Simple, SimpleEntry, Step, TooFar, TupleEntry,
};
use sqlite_items::{Boxed, Items};
use std::alloc::{AllocError, Global};

/// What stands under the eliminations: the neutral that is written out, or a variable, by its number.
#[derive(Clone, Copy)]
pub enum Root<'a> {
    Given(&'a Neutral),
    Variable(u64),
}

/// An elimination that is still to be written. An argument is the variable of a lambda on the way, in its eta-long
/// form.
#[derive(Clone, Copy)]
pub enum Noted<'a> {
    Argument { mode: Mode, ty: &'a Simple },
    First,
    Second,
}

/// The form in which a neutral is written out at its simple type: the eta-long one, save that a metavariable at a monad
/// stays. `TooFar` comes exactly where a number that is written would pass 4,294,967,295; else it fails only where
/// memory runs out.
pub fn eta(alloc: Global, ty: &Simple, neutral: &Neutral) -> Result<Obj, Or<TooFar>>
    ensures { Writes plain_obj fits (expansion (plain_simple ty.now) (plain_neutral neutral.now)) result }
{
    let root = Root::Given(neutral);
    expand(alloc, ty, &root, Vec::new(alloc))
}

/// One elimination more.
fn with_note<'a>(noted: Vec<Noted<'a>>, note: Noted<'a>) -> Result<Vec<Noted<'a>>, AllocError>
    ensures { IfOk result
        (λ more. plain_notes more.items ≡ plain_notes noted.entry.items ++ plain_noted note.entry ∷ []) }
{
    let mut more = noted;
    more.push(note)?;
    Ok(more)
}

/// The form of what stands under the eliminations.
#[cycle(expand)]
#[tactic(auto, using(clf_syntax::specs::Plain::plain_laws, clf_syntax::specs::PlainSimple::plain_simple_laws))]
fn expand<'a>(
    alloc: Global,
    ty: &'a Simple,
    root: &Root<'a>,
    noted: Vec<Noted<'a>>,
) -> Result<Obj, Or<TooFar>>
    ensures { Writes plain_obj fits
        (expansion (plain_simple ty.now) (spec.under (plain_notes noted.entry.items) (plain_root root.now)))
        result }
{
    match ty {
        Simple::Atom(_) => Ok(Obj::At {
            neutral: write(alloc, root, noted.as_slice())?,
        }),
        Simple::Fun { mode, dom, cod } => {
            expand_function(alloc, *mode, dom.get(), cod.get(), root, noted)
        }
        Simple::With { left, right } => expand_pair(alloc, left.get(), right.get(), root, noted),
        Simple::Top => Ok(Obj::Unit),
        Simple::Monad { entries } => {
            expand_monad(alloc, entries.as_slice(), root, noted.as_slice())
        }
    }
}

#[cycle(expand)]
#[tactic(auto, using(clf_syntax::specs::Plain::plain_laws))]
fn expand_function<'a>(
    alloc: Global,
    mode: Mode,
    dom: &'a Simple,
    cod: &'a Simple,
    root: &Root<'a>,
    noted: Vec<Noted<'a>>,
) -> Result<Obj, Or<TooFar>>
    ensures { Writes plain_obj fits (lam mode (expansion (plain_simple cod.now) (spec.under
        (plain_notes noted.entry.items ++ spec.argument mode (plain_simple dom.now) ∷ [])
        (plain_root root.now)))) result }
{
    let inner = with_note(noted, Noted::Argument { mode, ty: dom })?;
    let body = expand(alloc, cod, root, inner)?;
    Ok(Obj::Lam {
        mode,
        body: Boxed::new(alloc, body)?,
    })
}

#[cycle(expand)]
#[tactic(auto, using(clf_syntax::specs::Plain::plain_laws))]
fn expand_pair<'a>(
    alloc: Global,
    left: &'a Simple,
    right: &'a Simple,
    root: &Root<'a>,
    noted: Vec<Noted<'a>>,
) -> Result<Obj, Or<TooFar>>
    ensures { Writes plain_obj fits (pair
        (expansion (plain_simple left.now)
        (spec.under (plain_notes noted.entry.items ++ spec.first_part ∷ []) (plain_root root.now)))
        (expansion (plain_simple right.now)
        (spec.under (plain_notes noted.entry.items ++ spec.second_part ∷ []) (plain_root root.now))))
        result }
{
    let first = with_note(Vec::from_slice(alloc, noted.as_slice())?, Noted::First)?;
    let left = expand(alloc, left, root, first)?;
    let second = with_note(noted, Noted::Second)?;
    let right = expand(alloc, right, root, second)?;
    Ok(Obj::Pair {
        left: Boxed::new(alloc, left)?,
        right: Boxed::new(alloc, right)?,
    })
}

/// At a monad a step takes the parts; a metavariable stays as it is.
#[cycle(expand)]
#[tactic(auto, using(clf_syntax::specs::Plain::plain_laws))]
fn expand_monad<'a>(
    alloc: Global,
    entries: &'a [SimpleEntry],
    root: &Root<'a>,
    noted: &[Noted<'a>],
) -> Result<Obj, Or<TooFar>>
    ensures { Writes plain_obj fits (at_monad (is_metavariable (head_of (plain_root root.now)))
        (simple_telescope_of (map plain_simple_entry entries.now))
        (spec.under (plain_notes noted.now) (plain_root root.now))) result }
{
    let neutral = write(alloc, root, noted)?;
    if is_meta(root) {
        return Ok(Obj::At { neutral });
    }
    let modes = modes_of(alloc, entries)?;
    let result = variables(alloc, entries)?;
    let mut steps = Items::new(alloc);
    steps.push(Step {
        modes,
        rhs: neutral,
    })?;
    Ok(Obj::Mon {
        expr: Boxed::new(alloc, Expr { steps, result })?,
    })
}

#[tactic(auto, using(crate::proofs::Lists::neutral_head))]
fn is_meta(root: &Root) -> bool
    ensures { result ≡ is_metavariable (head_of (plain_root root.now)) }
{
    match root {
        Root::Given(neutral) => match neutral.head {
            Head::Meta(_) => true,
            Head::Const(_) | Head::Var(_) => false,
        },
        Root::Variable(_) => false,
    }
}

/// The modes of the entries.
#[tactic(auto, using(crate::proofs::Lists::from_entry))]
fn modes_of(alloc: Global, entries: &[SimpleEntry]) -> Result<Modes, AllocError>
    ensures { IfOk result (λ ms. ms ≡ simple_modes (simple_telescope_of (map plain_simple_entry entries.now))) }
{
    let mut modes = Modes::empty(alloc);
    for entry in entries {
        modes.push(entry.mode)?;
    }
    Ok(modes)
}

/// The newest variables, one for each entry.
#[cycle(expand)]
fn variables(alloc: Global, entries: &[SimpleEntry]) -> Result<Items<TupleEntry>, Or<TooFar>>
    ensures { Writes (λ es. map plain_entry es) (list_all fits_entry)
        (spec.variable_entries (simple_telescope_of (map plain_simple_entry entries.now))) result }
{
    let mut tuple = Items::new(alloc);
    for place in 0..entries.len() {
        let newer = entries.len() - 1 - place;
        tuple.push(variable_entry(alloc, &entries[place], newer as u64)?)?;
    }
    Ok(tuple)
}

#[cycle(expand)]
#[tactic(auto, using(clf_syntax::specs::Plain::plain_laws, clf_syntax::specs::PlainSimple::plain_simple_laws))]
fn variable_entry(alloc: Global, entry: &SimpleEntry, number: u64) -> Result<TupleEntry, Or<TooFar>>
    ensures { Writes plain_entry fits_entry (spec.variable_entry (plain_simple_entry entry.now) number) result }
{
    Ok(TupleEntry {
        mode: entry.mode,
        obj: expand_variable(alloc, &entry.ty, number)?,
    })
}

/// What stands under the eliminations, raised past the lambdas that were met, and the eliminations.
#[cycle(expand)]
#[tactic(auto, using(clf_syntax::specs::Plain::plain_laws))]
fn write<'a>(alloc: Global, root: &Root<'a>, noted: &[Noted<'a>]) -> Result<Neutral, Or<TooFar>>
    ensures { Writes plain_neutral fits_neutral (spec.under (plain_notes noted.now) (plain_root root.now)) result }
{
    let eliminations = write_noted(alloc, noted)?;
    let Neutral { head, mut spine } = raise_root(alloc, root, lambdas(noted))?;
    spine.append(eliminations)?;
    Ok(Neutral { head, spine })
}

/// How many lambdas were met: one for each argument.
fn lambdas(noted: &[Noted]) -> u64
    ensures { result ≡ spec.lambdas (plain_notes noted.now) }
{
    let mut met: u64 = 0;
    for note in noted {
        if is_argument(note) {
            met += 1;
        }
    }
    met
}

fn is_argument(note: &Noted) -> bool
    ensures { result ≡ spec.is_argument (plain_noted note.now) }
{
    match note {
        Noted::Argument { .. } => true,
        Noted::First | Noted::Second => false,
    }
}

#[cycle(expand)]
fn write_noted<'a>(alloc: Global, noted: &[Noted<'a>]) -> Result<Items<Elim>, Or<TooFar>>
    ensures { Writes (λ es. map plain_elim es) (list_all fits_elimination) (spec.eliminations (plain_notes noted.now))
        result }
{
    let mut newer = lambdas(noted);
    let mut written = Items::new(alloc);
    for note in noted {
        newer = past(note, newer);
        written.push(write_elimination(alloc, note, newer)?)?;
    }
    Ok(written)
}

/// How many of these lambdas were met after this elimination.
fn past(note: &Noted, lambdas: u64) -> u64
    ensures { result ≡ lambdas - spec.bound_by (plain_noted note.now) }
{
    if is_argument(note) {
        lambdas.saturating_sub(1)
    } else {
        lambdas
    }
}

#[cycle(expand)]
#[tactic(auto, using(clf_syntax::specs::Plain::plain_laws))]
fn write_elimination<'a>(alloc: Global, note: &Noted<'a>, number: u64) -> Result<Elim, Or<TooFar>>
    ensures { Writes plain_elim fits_elimination (spec.elimination (plain_noted note.now) number) result }
{
    match note {
        Noted::Argument { mode, ty } => Ok(Elim::Arg {
            mode: *mode,
            obj: expand_variable(alloc, ty, number)?,
        }),
        Noted::First => Ok(Elim::First),
        Noted::Second => Ok(Elim::Second),
    }
}

/// The eta-long form of a variable.
#[cycle(expand)]
fn expand_variable(alloc: Global, ty: &Simple, number: u64) -> Result<Obj, Or<TooFar>>
    ensures { Writes plain_obj fits (spec.long_variable (plain_simple ty.now) number) result }
{
    let root = Root::Variable(number);
    expand(alloc, ty, &root, Vec::new(alloc))
}

fn raise_root(alloc: Global, root: &Root, by: u64) -> Result<Neutral, Or<TooFar>>
    ensures { Writes plain_neutral fits_neutral (ren_neutral (up by) (plain_root root.now)) result }
{
    match root {
        Root::Given(neutral) => raise(alloc, neutral, by),
        Root::Variable(number) => raise_variable(alloc, *number, by),
    }
}

#[tactic(auto, using(clf_syntax::specs::Plain::plain_laws))]
fn raise_variable(alloc: Global, number: u64, by: u64) -> Result<Neutral, Or<TooFar>>
    ensures { Writes plain_neutral fits_neutral (spec.variable (number + by)) result }
{
    let raised = number.saturating_add(by);
    if raised <= u64::from(u32::MAX) {
        Ok(Neutral {
            head: Head::Var(raised as u32),
            spine: Items::new(alloc),
        })
    } else {
        Err(Or::Fault(TooFar))
    }
}

/// Every free variable rises.
#[tactic(auto, using(crate::proofs::Raising::raising_laws))]
fn raise(alloc: Global, neutral: &Neutral, by: u64) -> Result<Neutral, Or<TooFar>>
    ensures { Writes plain_neutral fits_neutral (ren_neutral (up by) (plain_neutral neutral.now)) result }
{
    if by <= u64::from(u32::MAX) {
        neutral.shift(alloc, by as u32, 0)
    } else {
        raise_closed(alloc, neutral)
    }
}

/// Past 2^32 lambdas no free variable can be written, and what has none stays as it is.
fn raise_closed(alloc: Global, neutral: &Neutral) -> Result<Neutral, Or<TooFar>>
    ensures { (by : ℕ) → 4294967296 ≤ by →
        Writes plain_neutral fits_neutral (ren_neutral (up by) (plain_neutral neutral.now)) result }
{
    let raised = neutral.shift(alloc, u32::MAX, 0)?;
    raised.shift(alloc, 1, 0)
}
