//! The calls of the kernel for objects and neutrals.
ghost use Rattle.clf_syntax.specs.Plain.{plain_obj, plain_expr, plain_neutral};
ghost use Rattle.clf_syntax.specs.PlainTypes.{plain_ty, plain_tele};
ghost use Rattle.clf_sig.specs.Signature.{plain_signature};
ghost use Rattle.use_contexts.specs.Marks.{context, marks};
ghost use Rattle.clf_syntax.specs.Simple.{SimplyFormed, SimplyFormedTelescope};
ghost use Rattle.typing_laws.specs.SimpleTyping.{families_of, simple_of};
ghost use Rattle.clf_decision.specs.Starts.{Starts};
ghost use Rattle.clf_decision.specs.Hereditary.{hereditary};
ghost use Rattle.clf_kernel.specs.Exact.{ChecksObject, ChecksExpression, InfersNeutral};
ghost use Rattle.clf_decision.specs.Checking.{checked, checked_expression, inferred};
ghost use Rattle.clf_kernel.specs.Answers.{plain_left, plain_inferred};
ghost use Rattle.clf_kernel.specs.Judge.{IsRowOver};
ghost use Rattle.clf_kernel.specs.Stops.{Gives};

use crate::judge::Judge;
use crate::refusal::{Inferred, Refusal, Stop, fault};
use clf_sig::Signature;
use clf_syntax::{Expr, Neutral, Obj, OrWide, Tele, Ty};
use std::alloc::Global;
use use_contexts::{Ctx, Holding, Left};

/// What the check of an object against a type leaves of a holding.
///
/// It refuses where no part of the holding types the object, with the path and the cause of a part that the rules
/// refuse. There is one such path with one such cause, and one such rest (`clf_decision::decided`), but for slack where
/// no linear entry is left: there it has nothing to take, and is answered or not.
#[tactic(auto, using(crate::proofs::Stops::answer_laws, crate::proofs::Exactness::exact_laws))]
pub fn check_object(
    alloc: Global,
    sig: &Signature,
    ctx: &Ctx,
    holding: &Holding,
    obj: &Obj,
    ty: &Ty,
) -> Result<Left, OrWide<Refusal>>
    requires starts { Starts (plain_signature sig.now) (context ctx.now) (marks holding.now) }
    requires formed { SimplyFormed (families_of (plain_signature sig.now))
        (simple_of (plain_signature sig.now) (context ctx.now)) (plain_ty ty.now) }
    ensures exact { ChecksObject (plain_signature sig.now) (context ctx.now) (marks holding.now) (plain_obj obj.now)
        (plain_ty ty.now) result }
{
    match check_in_copy(alloc, sig, ctx, holding, obj, ty) {
        Ok(left) => Ok(left),
        Err(stop) => Err(fault(stop)),
    }
}

/// The type of a neutral, and what it leaves of a holding.
///
/// It refuses where no part of the holding types the neutral, with the path and the cause of a part that the rules
/// refuse. There is one such path with one such cause, and one such type and rest (`clf_decision::decided`), but for
/// slack as at `check_object`.
#[tactic(auto, using(crate::proofs::Stops::answer_laws, crate::proofs::Exactness::exact_laws))]
pub fn infer(
    alloc: Global,
    sig: &Signature,
    ctx: &Ctx,
    holding: &Holding,
    neutral: &Neutral,
) -> Result<Inferred, OrWide<Refusal>>
    requires starts { Starts (plain_signature sig.now) (context ctx.now) (marks holding.now) }
    ensures exact { InfersNeutral (plain_signature sig.now) (context ctx.now) (marks holding.now)
        (plain_neutral neutral.now) result }
{
    match infer_in_copy(alloc, sig, ctx, holding, neutral) {
        Ok(found) => Ok(found),
        Err(stop) => Err(fault(stop)),
    }
}

/// What the check of an expression against a telescope leaves of a holding. It refuses as `check_object` does of `{E}`.
#[tactic(auto, using(crate::proofs::Stops::answer_laws, crate::proofs::Exactness::exact_laws))]
pub fn check_run(
    alloc: Global,
    sig: &Signature,
    ctx: &Ctx,
    holding: &Holding,
    expr: &Expr,
    tele: &Tele,
) -> Result<Left, OrWide<Refusal>>
    requires starts { Starts (plain_signature sig.now) (context ctx.now) (marks holding.now) }
    requires formed { SimplyFormedTelescope (families_of (plain_signature sig.now))
        (simple_of (plain_signature sig.now) (context ctx.now)) (plain_tele tele.now) }
    ensures exact { ChecksExpression (plain_signature sig.now) (context ctx.now) (marks holding.now)
        (plain_expr expr.now) (plain_tele tele.now) result }
{
    match run_in_copy(alloc, sig, ctx, holding, expr, tele) {
        Ok(left) => Ok(left),
        Err(stop) => Err(fault(stop)),
    }
}

/// The check in a copy of the context, which grows and shrinks with the scopes of the expression.
#[tactic(auto, using(crate::proofs::Stops::stop_laws))]
fn run_in_copy(
    alloc: Global,
    sig: &Signature,
    ctx: &Ctx,
    holding: &Holding,
    expr: &Expr,
    tele: &Tele,
) -> Result<Left, Stop>
    requires { IsRowOver (context ctx.now) holding.now }
    ensures { Gives plain_left (checked_expression hereditary (plain_signature sig.now) (context ctx.now)
        (marks holding.now) 0 (plain_expr expr.now) (plain_tele tele.now)) result }
{
    let mut judge = Judge::over(alloc, sig, ctx)?;
    let row = holding.copy(alloc)?;
    judge.check_expression(expr, tele, row)
}

/// The check in a copy of the context, which grows and shrinks with the scopes of the object.
#[tactic(auto, using(crate::proofs::Stops::stop_laws))]
fn check_in_copy(
    alloc: Global,
    sig: &Signature,
    ctx: &Ctx,
    holding: &Holding,
    obj: &Obj,
    ty: &Ty,
) -> Result<Left, Stop>
    requires { IsRowOver (context ctx.now) holding.now }
    ensures { Gives plain_left (checked hereditary (plain_signature sig.now) (context ctx.now) (marks holding.now)
        (plain_obj obj.now) (plain_ty ty.now)) result }
{
    let mut judge = Judge::over(alloc, sig, ctx)?;
    let row = holding.copy(alloc)?;
    judge.check(obj, ty, row)
}

/// The type in a copy of the context, which grows and shrinks with the scopes of the arguments.
#[tactic(auto, using(crate::proofs::Stops::stop_laws))]
fn infer_in_copy(
    alloc: Global,
    sig: &Signature,
    ctx: &Ctx,
    holding: &Holding,
    neutral: &Neutral,
) -> Result<Inferred, Stop>
    requires { IsRowOver (context ctx.now) holding.now }
    ensures { Gives plain_inferred (inferred hereditary (plain_signature sig.now) (context ctx.now) (marks holding.now)
        (plain_neutral neutral.now)) result }
{
    let mut judge = Judge::over(alloc, sig, ctx)?;
    let row = holding.copy(alloc)?;
    judge.infer_neutral(neutral, row)
}
