//! Free variables get other numbers.
ghost use Rattle.std.specs.Prelude.{◌≡◌, ◌+◌, ◌<◌, ◌≤◌, ◌^◌, IfOk, [], map};
ghost use Rattle.std.specs.List.{list_all};
ghost use Rattle.clf_syntax.specs.declared.tree.Head.TheVariants.{Var};
ghost use Rattle.clf_syntax.specs.Plain.{plain_obj, plain_neutral, plain_elim, plain_expr, plain_step, plain_entry};
ghost use Rattle.clf_syntax.specs.PlainTypes.{plain_ty, plain_tele, plain_tele_entry, plain_kind};
ghost use Rattle.clf_syntax.specs.TypeTree.{family as family_type, telescope_of};
ghost use Rattle.clf_syntax.specs.Renaming as spec;
ghost use Rattle.clf_syntax.specs.Renamings.{renumbering_by};
ghost use Rattle.clf_syntax.specs.Shift as shifts;
ghost use Rattle.clf_syntax.specs.Written.{Writes, fits, fits_expression, fits_head, fits_kind, fits_neutral, fits_telescope, fits_type};
ghost use Rattle.clf_syntax.specs.Renumbered as inner;

use crate::fault::{Or, TooFar};
use crate::tree::{Elim, Expr, Head, Kind, Neutral, Obj, Step, Tele, TeleEntry, TupleEntry, Ty};
use sqlite_items::{Boxed, Items};
use std::alloc::{AllocError, Global};

/// What becomes of free variables: variable `i` becomes `images[i]` where there is such a place, else `i - images.len()
/// + rest`.
#[derive(Drop)]
pub struct Renaming {
    pub images: Vec<u32>,
    pub rest: u32,
}

/// A number of binders, raised by further ones. No tree with 2^64 binders fits memory.
pub fn deeper(depth: u64, binders: usize) -> Result<u64, AllocError>
    ensures { IfOk result (λ d. d ≡ depth + binders) }
{
    match depth.checked_add(binders as u64) {
        Some(deeper) => Ok(deeper),
        None => Err(AllocError),
    }
}

/// What becomes of a free variable.
fn image(names: &Renaming, index: u32) -> u64
    ensures value { result ≡ renumbering_by names.now index }
    ensures small { result < 2 ^ 33 }
{
    let rest = names.rest;
    match names.images.get(index as usize).copied() {
        Some(image) => u64::from(image),
        None => u64::from(index).saturating_sub(names.images.len() as u64) + u64::from(rest),
    }
}

fn rename_head(head: Head, names: &Renaming, depth: u64) -> Result<Head, Or<TooFar>>
    ensures { Writes (λ h. h) fits_head (spec.ren_head (spec.lifted depth (renumbering_by names.now)) head) result }
{
    match head {
        Head::Const(place) => Ok(Head::Const(place)),
        Head::Meta(meta) => Ok(Head::Meta(meta)),
        Head::Var(index) => rename_variable(index, names, depth),
    }
}

fn rename_variable(index: u32, names: &Renaming, depth: u64) -> Result<Head, Or<TooFar>>
    ensures { Writes (λ h. h) fits_head (Var (spec.lifted depth (renumbering_by names.now) index)) result }
{
    if u64::from(index) < depth {
        return Ok(Head::Var(index));
    }
    let number = image(names, index - depth as u32) + depth;
    if number < 0x1_0000_0000 {
        Ok(Head::Var(number as u32))
    } else {
        Err(Or::Fault(TooFar))
    }
}

#[cycle(rename)]
#[tactic(auto, using(crate::specs::Plain::plain_laws, crate::proofs::Renumbered::renumber_laws))]
fn rename_object(alloc: Global, obj: &Obj, names: &Renaming, depth: u64) -> Result<Obj, Or<TooFar>>
    ensures { Writes plain_obj fits (inner.renumber (renumbering_by names.now) depth (plain_obj obj.now)) result }
{
    match obj {
        Obj::Lam { mode, body } => {
            let body = rename_object(alloc, body.get(), names, deeper(depth, 1)?)?;
            Ok(Obj::Lam {
                mode: *mode,
                body: Boxed::new(alloc, body)?,
            })
        }
        Obj::Pair { left, right } => {
            let left = rename_object(alloc, left.get(), names, depth)?;
            let right = rename_object(alloc, right.get(), names, depth)?;
            Ok(Obj::Pair {
                left: Boxed::new(alloc, left)?,
                right: Boxed::new(alloc, right)?,
            })
        }
        Obj::Unit => Ok(Obj::Unit),
        Obj::Mon { expr } => {
            let expr = rename_expression(alloc, expr.get(), names, depth)?;
            Ok(Obj::Mon {
                expr: Boxed::new(alloc, expr)?,
            })
        }
        Obj::At { neutral } => Ok(Obj::At {
            neutral: rename_neutral(alloc, neutral, names, depth)?,
        }),
        Obj::Hole => Ok(Obj::Hole),
    }
}

#[cycle(rename)]
#[tactic(auto, using(crate::specs::Plain::plain_laws, crate::proofs::Renumbered::renumber_laws))]
fn rename_neutral(
    alloc: Global,
    neutral: &Neutral,
    names: &Renaming,
    depth: u64,
) -> Result<Neutral, Or<TooFar>>
    ensures { Writes plain_neutral fits_neutral
        (inner.renumber_neutral (renumbering_by names.now) depth (plain_neutral neutral.now)) result }
{
    let head = rename_head(neutral.head, names, depth)?;
    let spine = rename_spine(alloc, neutral.spine.as_slice(), names, depth)?;
    Ok(Neutral { head, spine })
}

#[cycle(rename)]
#[tactic(auto, using(crate::specs::Plain::plain_laws, crate::proofs::Renumbered::renumber_laws))]
fn rename_spine(
    alloc: Global,
    spine: &[Elim],
    names: &Renaming,
    depth: u64,
) -> Result<Items<Elim>, Or<TooFar>>
    ensures { Writes (λ es. map plain_elim es) (list_all inner.fits_elimination)
        (map (inner.renumber_elimination (renumbering_by names.now) depth) (map plain_elim spine.now)) result }
{
    let mut renamed = Items::new(alloc);
    for act in spine {
        renamed.push(rename_elimination(alloc, act, names, depth)?)?;
    }
    Ok(renamed)
}

#[cycle(rename)]
#[tactic(auto, using(crate::specs::Plain::plain_laws, crate::proofs::Renumbered::renumber_laws))]
fn rename_elimination(
    alloc: Global,
    act: &Elim,
    names: &Renaming,
    depth: u64,
) -> Result<Elim, Or<TooFar>>
    ensures { Writes plain_elim inner.fits_elimination
        (inner.renumber_elimination (renumbering_by names.now) depth (plain_elim act.now)) result }
{
    match act {
        Elim::Arg { mode, obj } => Ok(Elim::Arg {
            mode: *mode,
            obj: rename_object(alloc, obj, names, depth)?,
        }),
        Elim::First => Ok(Elim::First),
        Elim::Second => Ok(Elim::Second),
    }
}

#[cycle(rename)]
#[tactic(auto, using(crate::specs::Plain::plain_laws, crate::proofs::Renumbered::renumber_laws))]
fn rename_expression(
    alloc: Global,
    expr: &Expr,
    names: &Renaming,
    depth: u64,
) -> Result<Expr, Or<TooFar>>
    ensures { Writes plain_expr fits_expression
        (inner.renumber_expression (renumbering_by names.now) depth (plain_expr expr.now)) result }
{
    let mut inner = depth;
    let mut steps = Items::new(alloc);
    for step in expr.steps.as_slice() {
        steps.push(rename_step(alloc, step, names, inner)?)?;
        inner = deeper(inner, step.modes.len())?;
    }
    let result = rename_tuple(alloc, expr.result.as_slice(), names, inner)?;
    Ok(Expr { steps, result })
}

#[cycle(rename)]
#[tactic(auto, using(crate::specs::Plain::plain_laws, crate::proofs::Renumbered::renumber_laws))]
fn rename_step(alloc: Global, step: &Step, names: &Renaming, depth: u64) -> Result<Step, Or<TooFar>>
    ensures { Writes plain_step inner.fits_step
        (inner.renumber_step (renumbering_by names.now) depth (plain_step step.now)) result }
{
    let modes = step.modes.copy(alloc)?;
    Ok(Step {
        modes,
        rhs: rename_neutral(alloc, &step.rhs, names, depth)?,
    })
}

#[cycle(rename)]
#[tactic(auto, using(crate::specs::Plain::plain_laws, crate::proofs::Renumbered::renumber_laws))]
fn rename_tuple(
    alloc: Global,
    tuple: &[TupleEntry],
    names: &Renaming,
    depth: u64,
) -> Result<Items<TupleEntry>, Or<TooFar>>
    ensures { Writes (λ es. map plain_entry es) (list_all inner.fits_entry)
        (map (inner.renumber_entry (renumbering_by names.now) depth) (map plain_entry tuple.now)) result }
{
    let mut renamed = Items::new(alloc);
    for entry in tuple {
        renamed.push(rename_tuple_entry(alloc, entry, names, depth)?)?;
    }
    Ok(renamed)
}

#[cycle(rename)]
#[tactic(auto, using(crate::specs::Plain::plain_laws, crate::proofs::Renumbered::renumber_laws))]
fn rename_tuple_entry(
    alloc: Global,
    entry: &TupleEntry,
    names: &Renaming,
    depth: u64,
) -> Result<TupleEntry, Or<TooFar>>
    ensures { Writes plain_entry inner.fits_entry
        (inner.renumber_entry (renumbering_by names.now) depth (plain_entry entry.now)) result }
{
    Ok(TupleEntry {
        mode: entry.mode,
        obj: rename_object(alloc, &entry.obj, names, depth)?,
    })
}

fn rename_indices(
    alloc: Global,
    indices: &[Obj],
    names: &Renaming,
    depth: u64,
) -> Result<Items<Obj>, Or<TooFar>>
    ensures { Writes (λ ns. map plain_obj ns) (list_all fits)
        (map (inner.renumber (renumbering_by names.now) depth) (map plain_obj indices.now)) result }
{
    let mut renamed = Items::new(alloc);
    for index in indices {
        renamed.push(rename_object(alloc, index, names, depth)?)?;
    }
    Ok(renamed)
}

#[tactic(auto, using(crate::specs::PlainTypes::plain_type_laws))]
fn rename_family(
    alloc: Global,
    family: u32,
    indices: &[Obj],
    names: &Renaming,
    depth: u64,
) -> Result<Ty, Or<TooFar>>
    ensures { Writes plain_ty fits_type
        (family_type family (map (inner.renumber (renumbering_by names.now) depth) (map plain_obj indices.now)))
        result }
{
    Ok(Ty::Fam {
        family,
        indices: rename_indices(alloc, indices, names, depth)?,
    })
}

#[cycle(rename_type)]
#[tactic(auto, using(crate::specs::PlainTypes::plain_type_laws, crate::proofs::Renumbered::renumber_type_laws))]
fn rename_type(alloc: Global, ty: &Ty, names: &Renaming, depth: u64) -> Result<Ty, Or<TooFar>>
    ensures { Writes plain_ty fits_type (inner.renumber_type (renumbering_by names.now) depth (plain_ty ty.now))
        result }
{
    match ty {
        Ty::Fam { family, indices } => {
            rename_family(alloc, *family, indices.as_slice(), names, depth)
        }
        Ty::Fun { mode, dom, cod } => {
            let dom = rename_type(alloc, dom.get(), names, depth)?;
            let cod = rename_type(alloc, cod.get(), names, deeper(depth, 1)?)?;
            Ok(Ty::Fun {
                mode: *mode,
                dom: Boxed::new(alloc, dom)?,
                cod: Boxed::new(alloc, cod)?,
            })
        }
        Ty::With { left, right } => {
            let left = rename_type(alloc, left.get(), names, depth)?;
            let right = rename_type(alloc, right.get(), names, depth)?;
            Ok(Ty::With {
                left: Boxed::new(alloc, left)?,
                right: Boxed::new(alloc, right)?,
            })
        }
        Ty::Top => Ok(Ty::Top),
        Ty::Monad { tele } => Ok(Ty::Monad {
            tele: rename_telescope(alloc, tele, names, depth)?,
        }),
    }
}

#[cycle(rename_type)]
#[tactic(auto, using(crate::specs::PlainTypes::plain_type_laws, crate::proofs::Renumbered::renumber_type_laws))]
fn rename_telescope(
    alloc: Global,
    tele: &Tele,
    names: &Renaming,
    depth: u64,
) -> Result<Tele, Or<TooFar>>
    ensures { Writes plain_tele fits_telescope
        (inner.renumber_telescope (renumbering_by names.now) depth (plain_tele tele.now)) result }
{
    Ok(Tele {
        entries: rename_entries(alloc, tele.entries.as_slice(), names, depth)?,
    })
}

#[cycle(rename_type)]
#[tactic(auto, using(crate::specs::PlainTypes::plain_type_laws, crate::proofs::Renumbered::renumber_type_laws))]
fn rename_entries(
    alloc: Global,
    entries: &[TeleEntry],
    names: &Renaming,
    depth: u64,
) -> Result<Items<TeleEntry>, Or<TooFar>>
    ensures { Writes (λ es. telescope_of (map plain_tele_entry es)) fits_telescope (inner.renumber_telescope
        (renumbering_by names.now) depth (telescope_of (map plain_tele_entry entries.now))) result }
{
    let mut inner = depth;
    let mut renamed = Items::new(alloc);
    for entry in entries {
        renamed.push(rename_entry(alloc, entry, names, inner)?)?;
        inner = deeper(inner, 1)?;
    }
    Ok(renamed)
}

#[cycle(rename_type)]
#[tactic(auto, using(crate::specs::PlainTypes::plain_type_laws, crate::proofs::Renumbered::renumber_type_laws))]
fn rename_entry(
    alloc: Global,
    entry: &TeleEntry,
    names: &Renaming,
    depth: u64,
) -> Result<TeleEntry, Or<TooFar>>
    ensures { Writes plain_tele_entry inner.fits_tele_entry
        (inner.renumber_tele_entry (renumbering_by names.now) depth (plain_tele_entry entry.now)) result }
{
    Ok(TeleEntry {
        mode: entry.mode,
        ty: rename_type(alloc, &entry.ty, names, depth)?,
    })
}

fn rename_arguments(
    alloc: Global,
    args: &[Ty],
    names: &Renaming,
    depth: u64,
) -> Result<Items<Ty>, Or<TooFar>>
    ensures { Writes (λ ts. map plain_ty ts) fits_kind
        (inner.renumber_kind (renumbering_by names.now) depth (map plain_ty args.now)) result }
{
    let mut inner = depth;
    let mut renamed = Items::new(alloc);
    for arg in args {
        renamed.push(rename_type(alloc, arg, names, inner)?)?;
        inner = deeper(inner, 1)?;
    }
    Ok(renamed)
}

/// The renaming that raises all variables.
fn raising(alloc: Global, by: u32) -> Renaming
    ensures { renumbering_by result ≡ spec.renumbering [] by }
{
    Renaming {
        images: Vec::new(alloc),
        rest: by,
    }
}

impl Obj {
    /// Every free variable from number `from` on rises by `by`. `TooFar` comes exactly where a number that is written
    /// would pass 4,294,967,295.
    #[tactic(auto, using(crate::proofs::Renumbered::shift_laws))]
    pub fn shift(&self, alloc: Global, by: u32, from: u32) -> Result<Obj, Or<TooFar>>
        ensures { Writes plain_obj fits (shifts.shift by from (plain_obj self.now)) result }
    {
        rename_object(alloc, self, &raising(alloc, by), u64::from(from))
    }

    /// Each free variable becomes what the renaming says. `TooFar` comes exactly where a number that is written would
    /// pass 4,294,967,295.
    #[tactic(auto, using(crate::proofs::Renumbered::rename_laws))]
    pub fn rename(&self, alloc: Global, names: &Renaming) -> Result<Obj, Or<TooFar>>
        ensures { Writes plain_obj fits (spec.ren (renumbering_by names.now) (plain_obj self.now)) result }
    {
        rename_object(alloc, self, names, 0)
    }
}

impl Neutral {
    /// Every free variable from number `from` on rises by `by`. `TooFar` comes exactly where a number that is written
    /// would pass 4,294,967,295.
    #[tactic(auto, using(crate::proofs::Renumbered::shift_laws))]
    pub fn shift(&self, alloc: Global, by: u32, from: u32) -> Result<Neutral, Or<TooFar>>
        ensures { Writes plain_neutral fits_neutral (shifts.shift_neutral by from (plain_neutral self.now)) result }
    {
        rename_neutral(alloc, self, &raising(alloc, by), u64::from(from))
    }

    /// Each free variable becomes what the renaming says. `TooFar` comes exactly where a number that is written would
    /// pass 4,294,967,295.
    #[tactic(auto, using(crate::proofs::Renumbered::rename_laws))]
    pub fn rename(&self, alloc: Global, names: &Renaming) -> Result<Neutral, Or<TooFar>>
        ensures { Writes plain_neutral fits_neutral
            (spec.ren_neutral (renumbering_by names.now) (plain_neutral self.now)) result }
    {
        rename_neutral(alloc, self, names, 0)
    }
}

impl Expr {
    /// Every free variable from number `from` on rises by `by`. `TooFar` comes exactly where a number that is written
    /// would pass 4,294,967,295.
    #[tactic(auto, using(crate::proofs::Renumbered::shift_laws))]
    pub fn shift(&self, alloc: Global, by: u32, from: u32) -> Result<Expr, Or<TooFar>>
        ensures { Writes plain_expr fits_expression (shifts.shift_expression by from (plain_expr self.now)) result }
    {
        rename_expression(alloc, self, &raising(alloc, by), u64::from(from))
    }

    /// Each free variable becomes what the renaming says. `TooFar` comes exactly where a number that is written would
    /// pass 4,294,967,295.
    #[tactic(auto, using(crate::proofs::Renumbered::rename_laws))]
    pub fn rename(&self, alloc: Global, names: &Renaming) -> Result<Expr, Or<TooFar>>
        ensures { Writes plain_expr fits_expression
            (spec.ren_expression (renumbering_by names.now) (plain_expr self.now)) result }
    {
        rename_expression(alloc, self, names, 0)
    }
}

impl Ty {
    /// Every free variable from number `from` on rises by `by`. `TooFar` comes exactly where a number that is written
    /// would pass 4,294,967,295.
    #[tactic(auto, using(crate::proofs::Renumbered::shift_laws))]
    pub fn shift(&self, alloc: Global, by: u32, from: u32) -> Result<Ty, Or<TooFar>>
        ensures { Writes plain_ty fits_type (shifts.shift_type by from (plain_ty self.now)) result }
    {
        rename_type(alloc, self, &raising(alloc, by), u64::from(from))
    }

    /// Each free variable becomes what the renaming says. `TooFar` comes exactly where a number that is written would
    /// pass 4,294,967,295.
    #[tactic(auto, using(crate::proofs::Renumbered::rename_laws))]
    pub fn rename(&self, alloc: Global, names: &Renaming) -> Result<Ty, Or<TooFar>>
        ensures { Writes plain_ty fits_type (spec.ren_type (renumbering_by names.now) (plain_ty self.now)) result }
    {
        rename_type(alloc, self, names, 0)
    }
}

impl Tele {
    /// Every free variable from number `from` on rises by `by`. `TooFar` comes exactly where a number that is written
    /// would pass 4,294,967,295.
    #[tactic(auto, using(crate::proofs::Renumbered::shift_laws))]
    pub fn shift(&self, alloc: Global, by: u32, from: u32) -> Result<Tele, Or<TooFar>>
        ensures { Writes plain_tele fits_telescope (shifts.shift_telescope by from (plain_tele self.now)) result }
    {
        rename_telescope(alloc, self, &raising(alloc, by), u64::from(from))
    }

    /// Each free variable becomes what the renaming says. `TooFar` comes exactly where a number that is written would
    /// pass 4,294,967,295.
    #[tactic(auto, using(crate::proofs::Renumbered::rename_laws))]
    pub fn rename(&self, alloc: Global, names: &Renaming) -> Result<Tele, Or<TooFar>>
        ensures { Writes plain_tele fits_telescope (spec.ren_telescope (renumbering_by names.now) (plain_tele self.now))
            result }
    {
        rename_telescope(alloc, self, names, 0)
    }
}

impl Kind {
    /// Every free variable from number `from` on rises by `by`. `TooFar` comes exactly where a number that is written
    /// would pass 4,294,967,295.
    #[tactic(auto, using(crate::proofs::Renumbered::shift_laws))]
    pub fn shift(&self, alloc: Global, by: u32, from: u32) -> Result<Kind, Or<TooFar>>
        ensures { Writes plain_kind fits_kind (shifts.shift_kind by from (plain_kind self.now)) result }
    {
        let args = rename_arguments(
            alloc,
            self.args.as_slice(),
            &raising(alloc, by),
            u64::from(from),
        )?;
        Ok(Kind { args })
    }

    /// Each free variable becomes what the renaming says. `TooFar` comes exactly where a number that is written would
    /// pass 4,294,967,295.
    #[tactic(auto, using(crate::proofs::Renumbered::rename_laws))]
    pub fn rename(&self, alloc: Global, names: &Renaming) -> Result<Kind, Or<TooFar>>
        ensures { Writes plain_kind fits_kind (spec.ren_kind (renumbering_by names.now) (plain_kind self.now)) result }
    {
        let args = rename_arguments(alloc, self.args.as_slice(), names, 0)?;
        Ok(Kind { args })
    }
}
