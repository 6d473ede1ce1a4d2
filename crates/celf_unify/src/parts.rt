//! The parts of objects, and equations of them.
ghost use Rattle.std.specs.Prelude.{◌≡◌, [], ◌∷◌, ◌++◌, IfOk, map};
ghost use Rattle.clf_syntax.specs.Plain.{plain_neutral, plain_obj};
ghost use Rattle.clf_syntax.specs.PlainSimple.{plain_simple, plain_simple_entry};
ghost use Rattle.clf_syntax.specs.Tree.{PlainNeutral, PlainObject, atomic, pair};
ghost use Rattle.clf_syntax.specs.TypeTree.{arrow, simple_with};
ghost use Rattle.celf_constraints.specs.Equated.{plain_equation, plain_locals};
ghost use Rattle.metavars.specs.Stored.{Stored};
ghost use Rattle.celf_unify.specs.Examined.{TakenApart};
ghost use Rattle.celf_unify.specs.Gathered.{consts_in, metas_in};
ghost use Rattle.celf_unify.specs.Judged.{IsLambda, IsRigid};
ghost use Rattle.celf_unify.specs.Sided.{posed};

use crate::put_in::{copy_locals, with_equation};
use celf_constraints::Equation;
use clf_syntax::{Mode, Neutral, Obj, Simple, SimpleEntry};
use std::alloc::{AllocError, Global};

/// The body of a lambda.
#[tactic(auto, using(clf_syntax::specs::Plain::plain_laws))]
fn body_of<'o>(obj: &'o Obj) -> &'o Obj
    requires lambda { (b : PlainObject) × IsLambda (plain_obj obj.now) b }
    ensures { IsLambda (plain_obj obj.now) (plain_obj result.now) }
{
    match obj {
        Obj::Lam { mode: _, body } => body.get(),
        Obj::Pair { .. } | Obj::Unit | Obj::Mon { .. } | Obj::At { .. } | Obj::Hole => {
            unreachable!()
        }
    }
}

/// The halves of a pair.
#[derive(Clone, Copy)]
struct Halves<'o> {
    first: &'o Obj,
    second: &'o Obj,
}

#[tactic(auto, using(clf_syntax::specs::Plain::plain_laws))]
fn halves_of<'o>(obj: &'o Obj) -> Halves<'o>
    requires pair { (l r : PlainObject) × (plain_obj obj.now ≡ pair l r) }
    ensures { plain_obj obj.now ≡ pair (plain_obj result.first.now) (plain_obj result.second.now) }
{
    match obj {
        Obj::Pair { left, right } => Halves {
            first: left.get(),
            second: right.get(),
        },
        Obj::Lam { .. } | Obj::Unit | Obj::Mon { .. } | Obj::At { .. } | Obj::Hole => {
            unreachable!()
        }
    }
}

/// The neutral of an atomic object.
#[tactic(auto, using(clf_syntax::specs::Plain::plain_laws))]
pub fn neutral_of<'o>(obj: &'o Obj) -> &'o Neutral
    requires atomic { (n : PlainNeutral) × (plain_obj obj.now ≡ atomic n) }
    ensures { plain_obj obj.now ≡ atomic (plain_neutral result.now) }
{
    match obj {
        Obj::At { neutral } => neutral,
        Obj::Lam { .. } | Obj::Pair { .. } | Obj::Unit | Obj::Mon { .. } | Obj::Hole => {
            unreachable!()
        }
    }
}

/// The equation of two objects over these locals.
pub fn equation_of(
    alloc: Global,
    locals: Vec<SimpleEntry>,
    left: &Obj,
    right: &Obj,
    ty: &Simple,
) -> Result<Equation, AllocError>
    ensures { IfOk result (λ e. plain_equation e
        ≡ posed locals.items (plain_simple ty.now) (plain_obj left.now) (plain_obj right.now)) }
{
    Ok(Equation {
        locals,
        left: left.copy(alloc)?,
        right: right.copy(alloc)?,
        ty: ty.copy(alloc)?,
    })
}

/// The locals, and one more.
fn under(
    alloc: Global,
    locals: &[SimpleEntry],
    mode: Mode,
    ty: &Simple,
) -> Result<Vec<SimpleEntry>, AllocError>
    ensures { IfOk result (λ inner.
        plain_locals inner.items ≡ (mode, plain_simple ty.now) ∷ plain_locals locals.now) }
{
    let local = local_of(alloc, mode, ty)?;
    with_local(copy_locals(alloc, locals)?, local)
}

/// A local of this type.
#[tactic(auto, using(clf_syntax::specs::PlainSimple::plain_simple_laws))]
fn local_of(alloc: Global, mode: Mode, ty: &Simple) -> Result<SimpleEntry, AllocError>
    ensures { IfOk result (λ local. plain_simple_entry local ≡ (mode, plain_simple ty.now)) }
{
    let ty = ty.copy(alloc)?;
    Ok(SimpleEntry { mode, ty })
}

/// One local more.
fn with_local(locals: Vec<SimpleEntry>, local: SimpleEntry) -> Result<Vec<SimpleEntry>, AllocError>
    ensures { IfOk result (λ inner. inner.items ≡ locals.items ++ local ∷ []) }
{
    let mut inner = locals;
    inner.push(local)?;
    Ok(inner)
}

/// The equation of the bodies, where the sides are lambdas.
pub fn lambda_parts(
    alloc: Global,
    equation: &Equation,
    mode: Mode,
    dom: &Simple,
    cod: &Simple,
) -> Result<Vec<Equation>, AllocError>
    requires function { (s : Stored) × IsRigid s (plain_equation equation.now)
        × (plain_simple equation.now.ty ≡ arrow mode (plain_simple dom.now) (plain_simple cod.now)) }
    ensures { IfOk result (λ parts. (s : Stored) → IsRigid s (plain_equation equation.now)
        → plain_simple equation.now.ty ≡ arrow mode (plain_simple dom.now) (plain_simple cod.now)
        → TakenApart (consts_in s) (metas_in s) (plain_equation equation.now) (map plain_equation parts.items)) }
{
    let left = body_of(&equation.left);
    let right = body_of(&equation.right);
    let locals = under(alloc, equation.locals.as_slice(), mode, dom)?;
    let part = equation_of(alloc, locals, left, right, cod)?;
    with_equation(Vec::new(alloc), part)
}

/// The equations of the halves, the second one first, where the sides are pairs.
pub fn pair_parts(
    alloc: Global,
    equation: &Equation,
    first: &Simple,
    second: &Simple,
) -> Result<Vec<Equation>, AllocError>
    requires both { (s : Stored) × IsRigid s (plain_equation equation.now)
        × (plain_simple equation.now.ty ≡ simple_with (plain_simple first.now) (plain_simple second.now)) }
    ensures { IfOk result (λ parts. (s : Stored) → IsRigid s (plain_equation equation.now)
        → plain_simple equation.now.ty ≡ simple_with (plain_simple first.now) (plain_simple second.now)
        → TakenApart (consts_in s) (metas_in s) (plain_equation equation.now) (map plain_equation parts.items)) }
{
    let left = halves_of(&equation.left);
    let right = halves_of(&equation.right);
    let outer = copy_locals(alloc, equation.locals.as_slice())?;
    let above = equation_of(alloc, outer, left.first, right.first, first)?;
    let locals = copy_locals(alloc, equation.locals.as_slice())?;
    let below = equation_of(alloc, locals, left.second, right.second, second)?;
    let parts = with_equation(Vec::new(alloc), below)?;
    with_equation(parts, above)
}
