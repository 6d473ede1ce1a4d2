//! The parts of the check that look into no part of an object.
ghost use Rattle.std.specs.Prelude.{◌≡◌, [], IfOk, length, map};
ghost use Rattle.clf_syntax.specs.Plain.{plain_obj};
ghost use Rattle.clf_syntax.specs.PlainTypes.{plain_ty};
ghost use Rattle.use_contexts.specs.Context.{modes};
ghost use Rattle.use_contexts.specs.Marks.{marks};
ghost use Rattle.use_contexts.specs.Rows.{newest_difference};
ghost use Rattle.clf_decision.specs.Checking.{joined_left, unit_left, atomic_left, found_left, indices_left, first_unjoined, first_left, second_left};
ghost use Rattle.clf_rules.specs.Refusal.{index_differs};
ghost use Rattle.trace_equal.specs.Difference.{DiffersAt};
ghost use Rattle.clf_kernel.specs.Answers.{plain_left, plain_inferred};
ghost use Rattle.clf_kernel.specs.Judge.{IsRowOf, context_of};
ghost use Rattle.clf_kernel.specs.Stops.{Gives, Ends};

use crate::judge::Judge;
use crate::refusal::{AtType, Cause, Inferred, Stop, refuse, refuse_at, refuse_type};
use clf_syntax::{Obj, Ty};
use std::alloc::Global;
use trace_equal::first_difference;
use use_contexts::{Differ, Holding, Left, join_add};

#[tactic(auto, using(clf_syntax::specs::PlainTypes::plain_type_laws, crate::proofs::Stops::stop_laws))]
pub fn check_unit(alloc: Global, ty: &Ty, row: Holding) -> Result<Left, Stop>
    ensures outcome { Gives plain_left (unit_left (marks row) (plain_ty ty.now)) result }
    ensures row { IfOk result (λ left. left.row ≡ row) }
{
    match ty {
        Ty::Top => Ok(Left { row, slack: true }),
        Ty::Fam { .. } | Ty::Fun { .. } | Ty::With { .. } | Ty::Monad { .. } => {
            Err(refuse_type(alloc, AtType::NotTop, ty))
        }
    }
}

impl Judge<'_> {
    /// An atomic object stands at the family that its neutral has, at joined indices.
    #[tactic(auto, using(clf_syntax::specs::PlainTypes::plain_type_laws, crate::proofs::Stops::stop_laws))]
    pub fn check_atomic(&self, ty: &Ty, found: Inferred) -> Result<Left, Stop>
        ensures outcome { Gives plain_left (atomic_left (context_of self.now) (plain_ty ty.now) (plain_inferred found))
            result }
        ensures row { IfOk result (λ left. left.row ≡ found.left.row) }
    {
        match ty {
            Ty::Fam { family, indices } => { self.check_family(*family, indices.as_slice(), found) }
            Ty::Fun { .. } | Ty::With { .. } | Ty::Top | Ty::Monad { .. } => {
                // By a call: dropped here, each form of the type would be a case of this function.
                drop(found.ty);
                Err(refuse_type(self.alloc, AtType::NotAtomic, ty))
            }
        }
    }

    #[tactic(auto, using(clf_syntax::specs::PlainTypes::plain_type_laws, crate::proofs::Stops::stop_laws))]
    fn check_family(&self, wanted: u32, indices: &[Obj], found: Inferred) -> Result<Left, Stop>
        ensures outcome { Gives plain_left (found_left (context_of self.now) wanted (map plain_obj indices.now)
            (plain_ty found.ty) (plain_left found.left)) result }
        ensures row { IfOk result (λ left. left.row ≡ found.left.row) }
    {
        let Inferred { ty, left } = found;
        match ty {
            Ty::Fam {
                family,
                indices: found,
            } => {
                if family != wanted {
                    drop(found);
                    let found = family;
                    return Err(refuse(self.alloc, Cause::FamilyDiffers { found, wanted }));
                }
                self.check_indices(found.as_slice(), indices, left)
            }
            ty @ (Ty::Fun { .. } | Ty::With { .. } | Ty::Top | Ty::Monad { .. }) => {
                Err(refuse(self.alloc, Cause::NotAtomic { ty }))
            }
        }
    }

    /// The indices that are found are joined with those that are wanted.
    #[tactic(auto, using(crate::proofs::Stops::stop_laws, crate::proofs::Differences::none_differs))]
    fn check_indices(&self, found: &[Obj], wanted: &[Obj], left: Left) -> Result<Left, Stop>
        ensures outcome { Gives plain_left (indices_left (context_of self.now)
            (first_unjoined (map plain_obj found.now) (map plain_obj wanted.now)) (plain_left left)) result }
        ensures row { IfOk result (λ outer. outer.row ≡ left.row) }
    {
        match first_difference(self.alloc, found, wanted)? {
            None => Ok(left),
            Some(place) => self.differ_at(place, found, wanted, left),
        }
    }

    /// A refusal at two indices that are not joined, unless the lists differ by their lengths, which formation has
    /// excluded.
    #[tactic(auto, using(crate::proofs::Stops::stop_laws, crate::proofs::Differences::one_ends))]
    fn differ_at(
        &self,
        place: usize,
        found: &[Obj],
        wanted: &[Obj],
        left: Left,
    ) -> Result<Left, Stop>
        requires there { DiffersAt place (map plain_obj found.now) (map plain_obj wanted.now) }
        ensures outcome { Gives plain_left (indices_left (context_of self.now)
            (first_unjoined (map plain_obj found.now) (map plain_obj wanted.now)) (plain_left left)) result }
        ensures row { IfOk result (λ outer. outer.row ≡ left.row) }
    {
        if place >= found.len() || place >= wanted.len() {
            return Ok(left);
        }
        Err(self.refuse_indices(&found[place], &wanted[place]))
    }

    /// A refusal at two indices that are not joined.
    fn refuse_indices(&self, found: &Obj, wanted: &Obj) -> Stop
        ensures { Ends [] (index_differs (length (context_of self.now)) (plain_obj found.now) (plain_obj wanted.now))
            result }
    {
        let scope = self.ctx.len() as u32;
        match (found.copy(self.alloc), wanted.copy(self.alloc)) {
            (Ok(found), Ok(wanted)) => refuse(
                self.alloc,
                Cause::IndexDiffers {
                    scope,
                    found,
                    wanted,
                },
            ),
            _ => Stop::NoMemory,
        }
    }

    /// What both parts of a pair leave.
    #[tactic(auto, using(crate::proofs::Stops::stop_laws))]
    pub fn join(&self, first: Left, second: Left) -> Result<Left, Stop>
        requires first_marked { IsRowOf self.now first.row }
        requires second_marked { IsRowOf self.now second.row }
        ensures outcome { Gives plain_left (joined_left (context_of self.now) (plain_left first) (plain_left second)
            (newest_difference (modes (context_of self.now)) (marks first.row) first.slack (marks second.row)
            second.slack)) result }
        ensures marked { IfOk result (λ left. IsRowOf self.now left.row) }
    {
        match join_add(&self.ctx, first, second) {
            Ok(left) => Ok(left),
            Err(Differ(var)) => Err(refuse(
                self.alloc,
                Cause::PairsDiffer {
                    level: self.level(var),
                },
            )),
        }
    }
}

#[tactic(auto, using(clf_syntax::specs::PlainTypes::plain_type_laws, crate::proofs::Stops::stop_laws))]
pub fn first_part(alloc: Global, place: usize, found: Inferred) -> Result<Inferred, Stop>
    ensures outcome { Gives plain_inferred (first_left place (plain_inferred found)) result }
    ensures row { IfOk result (λ part. part.left ≡ found.left) }
{
    let Inferred { ty, left } = found;
    match ty {
        Ty::With {
            left: first,
            right: _,
        } => Ok(Inferred {
            ty: first.into_inner(),
            left,
        }),
        found @ (Ty::Fam { .. } | Ty::Fun { .. } | Ty::Top | Ty::Monad { .. }) => {
            Err(refuse_at(alloc, place, Cause::NotPair { found }))
        }
    }
}

#[tactic(auto, using(clf_syntax::specs::PlainTypes::plain_type_laws, crate::proofs::Stops::stop_laws))]
pub fn second_part(alloc: Global, place: usize, found: Inferred) -> Result<Inferred, Stop>
    ensures outcome { Gives plain_inferred (second_left place (plain_inferred found)) result }
    ensures row { IfOk result (λ part. part.left ≡ found.left) }
{
    let Inferred { ty, left } = found;
    match ty {
        Ty::With {
            left: _,
            right: second,
        } => Ok(Inferred {
            ty: second.into_inner(),
            left,
        }),
        found @ (Ty::Fam { .. } | Ty::Fun { .. } | Ty::Top | Ty::Monad { .. }) => {
            Err(refuse_at(alloc, place, Cause::NotPair { found }))
        }
    }
}
