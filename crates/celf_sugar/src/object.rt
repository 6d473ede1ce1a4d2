//! Plain objects.
ghost use Rattle.std.specs.Prelude.{◌≡◌, IfOk, map, [], ◌∷◌, ◌++◌};
ghost use Rattle.std.specs.List.{flat_map};
ghost use Rattle.celf_surface.specs.declared.surface.SObj.{out-SObj};
ghost use Rattle.celf_surface.specs.Surface.{object_tree, argument_tree, step_tree, tuple_tree, expression_tree, pattern_tree};
ghost use Rattle.celf_sugar.specs.PlainTree.{tuple_of};
ghost use Rattle.celf_sugar.specs.Plain.{desugared_object, desugared_form, desugared_elim, desugared_step, desugared_marked, desugared_expression};
ghost use Rattle.celf_sugar.specs.Sugar.{object as object_of, head as head_of, acts as acts_of, steps as steps_of, entries_of_tuple, binders as binders_of, mark as mark_of};
ghost use Rattle.celf_sugar.specs.SugarLists.{act_of, plain_step_of};

use crate::plain::{PBinder, PElim, PExpr, PMarked, PName, PObj, PObjForm, PStep};
use celf_surface::{SArg, SExpr, SMode, SObj, SObjForm, SPat, SStep, STuple};
use clf_syntax::{Mode, Name};
use sqlite_items::{Boxed, Items};
use std::alloc::{AllocError, Global};

/// The plain object of an object. It fails only where memory runs out.
#[cycle(object)]
#[tactic(auto, using(crate::specs::Plain::object_laws))]
pub fn object(alloc: Global, obj: &SObj) -> Result<PObj, AllocError>
    ensures { IfOk result (λ o. desugared_object o ≡ object_of (object_tree obj.now)) }
{
    Ok(PObj {
        span: obj.span,
        form: object_form(alloc, obj)?,
    })
}

/// The plain object of an object, in a box.
#[cycle(object)]
pub fn boxed_object(alloc: Global, obj: &SObj) -> Result<Boxed<PObj>, AllocError>
    ensures { IfOk result (λ o. desugared_object o ≡ object_of (object_tree obj.now)) }
{
    Boxed::new(alloc, object(alloc, obj)?)
}

#[cycle(object)]
#[tactic(auto, using(crate::specs::SugarLists::written_object_laws, crate::specs::Plain::form_laws))]
fn object_form(alloc: Global, obj: &SObj) -> Result<PObjForm, AllocError>
    ensures { IfOk result (λ f. desugared_form f (out-SObj obj.now).span ≡ object_of (object_tree obj.now)) }
{
    match &obj.form {
        SObjForm::Lam { mode, name, body } => {
            let name = copy_name(alloc, name)?;
            Ok(PObjForm::Lam {
                mode: *mode,
                name,
                body: boxed_object(alloc, body.get())?,
            })
        }
        SObjForm::Pair { left, right } => {
            let left = boxed_object(alloc, left.get())?;
            let right = boxed_object(alloc, right.get())?;
            Ok(PObjForm::Pair { left, right })
        }
        SObjForm::Unit => Ok(PObjForm::Unit),
        SObjForm::Hole => Ok(PObjForm::Hole),
        SObjForm::Braces { expr } => Ok(PObjForm::Mon {
            expr: expression(alloc, expr.get())?,
        }),
        SObjForm::App { .. }
        | SObjForm::Named { .. }
        | SObjForm::First { .. }
        | SObjForm::Second { .. } => {
            let head = head_name(alloc, obj)?;
            Ok(PObjForm::At {
                head,
                spine: spine_of_head(alloc, obj)?,
            })
        }
    }
}

/// The head of an object; a name without bytes where it has none.
#[tactic(auto, using(crate::specs::SugarLists::written_object_laws))]
fn head_name(alloc: Global, obj: &SObj) -> Result<PName, AllocError>
    ensures { IfOk result (λ n. n ≡ head_of (object_tree obj.now)) }
{
    match &obj.form {
        SObjForm::App { head, args: _ } => head_name(alloc, head.get()),
        SObjForm::Named { name, dollar } => Ok(PName {
            name: name.copy(alloc)?,
            dollar: *dollar,
            span: obj.span,
        }),
        SObjForm::First { body } | SObjForm::Second { body } => head_name(alloc, body.get()),
        SObjForm::Lam { .. }
        | SObjForm::Hole
        | SObjForm::Unit
        | SObjForm::Pair { .. }
        | SObjForm::Braces { .. } => Ok(PName {
            name: Name::new(alloc, "")?,
            dollar: false,
            span: obj.span,
        }),
    }
}

/// What is done to the head of an object.
#[cycle(object)]
#[tactic(auto, using(crate::specs::SugarLists::written_object_laws, crate::specs::Plain::elim_laws, crate::specs::SugarLists::sugar_laws))]
fn spine_of_head(alloc: Global, obj: &SObj) -> Result<Items<PElim>, AllocError>
    ensures { IfOk result (λ es. map desugared_elim es ≡ acts_of (object_tree obj.now)) }
{
    match &obj.form {
        SObjForm::App { head, args } => {
            let spine = spine_of_head(alloc, head.get())?;
            joined(spine, arguments(alloc, args.as_slice())?)
        }
        SObjForm::First { body } => { projected(spine_of_head(alloc, body.get())?, PElim::First) }
        SObjForm::Second { body } => { projected(spine_of_head(alloc, body.get())?, PElim::Second) }
        SObjForm::Named { .. }
        | SObjForm::Lam { .. }
        | SObjForm::Hole
        | SObjForm::Unit
        | SObjForm::Pair { .. }
        | SObjForm::Braces { .. } => Ok(Items::new(alloc)),
    }
}

/// A spine with more after it.
fn joined(spine: Items<PElim>, more: Items<PElim>) -> Result<Items<PElim>, AllocError>
    ensures { IfOk result (λ es. map desugared_elim es ≡ map desugared_elim spine ++ map desugared_elim more) }
{
    let mut spine = spine;
    spine.append(more)?;
    Ok(spine)
}

/// A spine with a projection after it.
fn projected(spine: Items<PElim>, projection: PElim) -> Result<Items<PElim>, AllocError>
    ensures { IfOk result (λ es. map desugared_elim es ≡ map desugared_elim spine ++ desugared_elim projection ∷ []) }
{
    let mut spine = spine;
    spine.push(projection)?;
    Ok(spine)
}

#[cycle(object)]
fn arguments(alloc: Global, args: &[SArg]) -> Result<Items<PElim>, AllocError>
    ensures { IfOk result (λ es. map desugared_elim es ≡ map act_of (map argument_tree args.now)) }
{
    let mut elims = Items::new(alloc);
    for arg in args {
        elims.push(argument(alloc, arg)?)?;
    }
    Ok(elims)
}

#[cycle(object)]
#[tactic(auto, using(crate::specs::SugarLists::written_part_laws, crate::specs::Plain::elim_laws))]
fn argument(alloc: Global, arg: &SArg) -> Result<PElim, AllocError>
    ensures { IfOk result (λ e. desugared_elim e ≡ act_of (argument_tree arg.now)) }
{
    Ok(PElim::Arg {
        mode: arg.mode,
        obj: object(alloc, &arg.obj)?,
    })
}

#[cycle(object)]
#[tactic(auto, using(crate::specs::Plain::expression_laws, crate::specs::SugarLists::sugar_laws))]
fn expression(alloc: Global, expr: &SExpr) -> Result<PExpr, AllocError>
    ensures { IfOk result (λ e. desugared_expression e
        ≡ (steps_of (expression_tree expr.now).0, tuple_of (entries_of_tuple (expression_tree expr.now).1))) }
{
    let steps = steps(alloc, expr.steps.as_slice())?;
    Ok(PExpr {
        steps,
        result: tuple(alloc, &expr.result)?,
    })
}

#[cycle(object)]
fn steps(alloc: Global, steps: &[SStep]) -> Result<Items<PStep>, AllocError>
    ensures { IfOk result (λ ss. map desugared_step ss ≡ map plain_step_of (map step_tree steps.now)) }
{
    let mut plain = Items::new(alloc);
    for written in steps {
        plain.push(step(alloc, written)?)?;
    }
    Ok(plain)
}

#[cycle(object)]
#[tactic(auto, using(crate::specs::SugarLists::written_part_laws, crate::specs::Plain::step_laws))]
fn step(alloc: Global, step: &SStep) -> Result<PStep, AllocError>
    ensures { IfOk result (λ s. desugared_step s ≡ plain_step_of (step_tree step.now)) }
{
    let pattern = binders(alloc, &step.pattern)?;
    let head = head_name(alloc, &step.rhs)?;
    Ok(PStep {
        pattern,
        head,
        spine: spine_of_head(alloc, &step.rhs)?,
    })
}

/// The entries of a tuple, as one flat list.
#[cycle(object)]
#[tactic(auto, using(crate::specs::SugarLists::written_tuple_laws, crate::specs::SugarLists::sugar_laws))]
fn tuple(alloc: Global, tuple: &STuple) -> Result<Items<PMarked>, AllocError>
    ensures { IfOk result (λ es. map desugared_marked es ≡ entries_of_tuple (tuple_tree tuple.now)) }
{
    match tuple {
        STuple::One => Ok(Items::new(alloc)),
        STuple::List(parts) => tuples(alloc, parts.as_slice()),
        STuple::Marked { mode, obj } => marked(alloc, mark(*mode), obj),
        STuple::Bare(obj) => marked(alloc, SMode::Bare, obj),
    }
}

#[cycle(object)]
fn tuples(alloc: Global, tuples: &[STuple]) -> Result<Items<PMarked>, AllocError>
    ensures { IfOk result (λ es. map desugared_marked es ≡ flat_map entries_of_tuple (map tuple_tree tuples.now)) }
{
    let mut entries = Items::new(alloc);
    for part in tuples {
        entries.append(tuple(alloc, part)?)?;
    }
    Ok(entries)
}

/// One entry of a tuple.
#[cycle(object)]
#[tactic(auto, using(crate::specs::Plain::marked_laws))]
fn marked(alloc: Global, mode: SMode, obj: &SObj) -> Result<Items<PMarked>, AllocError>
    ensures { IfOk result (λ es. map desugared_marked es ≡ (mode, object_of (object_tree obj.now)) ∷ []) }
{
    let mut entries = Items::new(alloc);
    entries.push(PMarked {
        mode,
        obj: object(alloc, obj)?,
    })?;
    Ok(entries)
}

/// The mark of an entry.
fn mark(mode: Mode) -> SMode
    ensures { result ≡ mark_of mode }
{
    match mode {
        Mode::Persistent => SMode::Persistent,
        Mode::Affine => SMode::Affine,
        Mode::Linear => SMode::Linear,
    }
}

/// The entries of a pattern, as one flat list.
#[cycle(binders)]
#[tactic(auto, using(crate::specs::SugarLists::written_pattern_laws, crate::specs::SugarLists::sugar_laws))]
fn binders(alloc: Global, pattern: &SPat) -> Result<Items<PBinder>, AllocError>
    ensures { IfOk result (λ bs. bs ≡ binders_of (pattern_tree pattern.now)) }
{
    match pattern {
        SPat::One => Ok(Items::new(alloc)),
        SPat::Entry { mode, name } => {
            let mut entries = Items::new(alloc);
            entries.push(PBinder {
                mode: *mode,
                name: copy_name(alloc, name)?,
            })?;
            Ok(entries)
        }
        SPat::List(parts) => all_binders(alloc, parts.as_slice()),
    }
}

#[cycle(binders)]
fn all_binders(alloc: Global, patterns: &[SPat]) -> Result<Items<PBinder>, AllocError>
    ensures { IfOk result (λ bs. bs ≡ flat_map binders_of (map pattern_tree patterns.now)) }
{
    let mut entries = Items::new(alloc);
    for pattern in patterns {
        entries.append(binders(alloc, pattern)?)?;
    }
    Ok(entries)
}

/// An equal name. It fails only where memory runs out.
fn copy_name(alloc: Global, name: &Option<Name>) -> Result<Option<Name>, AllocError>
    ensures { IfOk result (λ n. n ≡ name.now) }
{
    match name {
        None => Ok(None),
        Some(name) => Ok(Some(name.copy(alloc)?)),
    }
}
