//! Heads of neutrals: their types, and what they leave.
ghost use Rattle.std.specs.Prelude.{◌≡◌, ◌+◌, ◌≤◌, ◌<◌, ◌^◌, false, IfOk, IfErr, length, slice_get, option_map, option_copied};
ghost use Rattle.clf_syntax.specs.PlainTypes.{plain_ty, plain_tele};
ghost use Rattle.clf_syntax.specs.Renaming.{ren_type, ren_telescope, up};
ghost use Rattle.clf_sig.specs.Entry.{constant_type as type_of_constant};
ghost use Rattle.clf_sig.specs.Signature.{plain_signature};
ghost use Rattle.use_contexts.specs.Marks.{marks};
ghost use Rattle.clf_rules.specs.Refusal.{level as level_of};
ghost use Rattle.clf_decision.specs.Outcome.{passed};
ghost use Rattle.clf_decision.specs.Checking.{head_left, constant_left, variable_left};
ghost use Rattle.clf_kernel.specs.Answers.{plain_inferred};
ghost use Rattle.clf_kernel.specs.Judge.{IsRowOf, signature_of, context_of};
ghost use Rattle.clf_kernel.specs.Stops.{Gives, IsShort};

use crate::judge::Judge;
use crate::refusal::{Cause, Inferred, Stop, refuse, unwritten};
use clf_sig::{Class, Signature};
use clf_syntax::{Head, Tele, Ty};
use std::alloc::Global;
use use_contexts::{Holding, Left, take};

impl Judge<'_> {
    /// The type of a head, and what it leaves of a row.
    pub fn infer_head(&self, head: Head, row: Holding) -> Result<Inferred, Stop>
        requires marked { IsRowOf self.now row }
        ensures outcome { Gives plain_inferred
            (head_left (signature_of self.now) (context_of self.now) (marks row) head) result }
        ensures marked { IfOk result (λ found. IsRowOf self.now found.left.row) }
    {
        match head {
            Head::Const(constant) => self.infer_constant(constant, row),
            Head::Var(var) => self.infer_variable(var, row),
            Head::Meta(_) => Err(refuse(self.alloc, Cause::NotClosed)),
        }
    }

    fn infer_constant(&self, constant: u32, row: Holding) -> Result<Inferred, Stop>
        ensures outcome { Gives plain_inferred
            (constant_left constant (marks row) (type_of_constant (signature_of self.now) constant)) result }
        ensures row { IfOk result (λ found. found.left.row ≡ row) }
    {
        match constant_type(self.sig, constant) {
            Some(ty) => head_of(self.alloc, ty, row),
            None => Err(refuse(
                self.alloc,
                Cause::UnknownHead {
                    head: Head::Const(constant),
                },
            )),
        }
    }

    fn infer_variable(&self, var: u32, row: Holding) -> Result<Inferred, Stop>
        requires marked { IsRowOf self.now row }
        ensures outcome { Gives plain_inferred
            (variable_left (context_of self.now) (marks row) var (slice_get (context_of self.now) var)) result }
        ensures marked { IfOk result (λ found. IsRowOf self.now found.left.row) }
    {
        if var as usize >= self.ctx.len() {
            return Err(refuse(
                self.alloc,
                Cause::UnknownHead {
                    head: Head::Var(var),
                },
            ));
        }
        let mut row = row;
        match take(&self.ctx, &mut row, var) {
            Ok(_) => variable_of(self.alloc, &self.ctx.entry(var as usize).ty, var, row),
            Err(_) => Err(refuse(
                self.alloc,
                Cause::NotHeld {
                    level: self.level(var),
                },
            )),
        }
    }

    /// The level of a variable, which is the number in its printed name.
    pub fn level(&self, var: u32) -> u32
        requires there { var ≤ length (context_of self.now) }
        ensures { result ≡ level_of (context_of self.now) var }
    {
        (self.ctx.len() - var as usize) as u32
    }
}

/// The type of a constant; `None` where none stands at this place.
fn constant_type(sig: &Signature, constant: u32) -> Option<&Ty>
    ensures { option_map plain_ty (option_copied result) ≡ type_of_constant (plain_signature sig.now) constant }
{
    match &sig.entry(constant)?.class {
        Class::Family(_) => None,
        Class::Constant(ty) => Some(ty),
    }
}

/// A variable, whose type is renumbered past itself and the newer entries.
#[tactic(auto, using(crate::proofs::Stops::stop_laws))]
fn variable_of(alloc: Global, ty: &Ty, var: u32, row: Holding) -> Result<Inferred, Stop>
    requires { var + 1 < 2 ^ 32 }
    ensures outcome { Gives plain_inferred (passed (ren_type (up (var + 1)) (plain_ty ty.now), (marks row, false)))
        result }
    ensures row { IfOk result (λ found. found.left.row ≡ row) }
{
    Ok(Inferred {
        ty: raised_type(alloc, ty, var + 1)?,
        left: Left { row, slack: false },
    })
}

/// A type past so many newer variables.
#[tactic(auto, using(crate::proofs::Raised::raised_laws))]
fn raised_type(alloc: Global, ty: &Ty, by: u32) -> Result<Ty, Stop>
    ensures raised { IfOk result (λ t. plain_ty t ≡ ren_type (up by) (plain_ty ty.now)) }
    ensures short { IfErr result IsShort }
{
    match ty.shift(alloc, by, 0) {
        Ok(ty) => Ok(ty),
        Err(why) => Err(unwritten(alloc, why)),
    }
}

/// A telescope past so many newer variables.
#[tactic(auto, using(crate::proofs::Raised::raised_laws))]
pub fn raised_telescope(alloc: Global, tele: &Tele, by: u32) -> Result<Tele, Stop>
    ensures raised { IfOk result (λ t. plain_tele t ≡ ren_telescope (up by) (plain_tele tele.now)) }
    ensures short { IfErr result IsShort }
{
    match tele.shift(alloc, by, 0) {
        Ok(tele) => Ok(tele),
        Err(why) => Err(unwritten(alloc, why)),
    }
}

/// A head of this type, which leaves this row.
fn head_of(alloc: Global, ty: &Ty, row: Holding) -> Result<Inferred, Stop>
    ensures outcome { Gives plain_inferred (passed (plain_ty ty.now, (marks row, false))) result }
    ensures row { IfOk result (λ found. found.left.row ≡ row) }
{
    Ok(Inferred {
        ty: ty.copy(alloc)?,
        left: Left { row, slack: false },
    })
}
