//! The equations of objects at types.
ghost use Rattle.std.specs.Prelude.{◌≡◌, ◌∷◌, OnOk};
ghost use Rattle.clf_syntax.specs.Plain.{plain_obj, plain_expr, plain_neutral};
ghost use Rattle.clf_syntax.specs.PlainTypes.{plain_ty};
ghost use Rattle.clf_syntax.specs.Tree.{atomic};
ghost use Rattle.celf_gather.specs.Gathered.{gathered, inferred, expression_after, lambda_after, unit_after, monadic_after, atomic_after, leaf_after, filled_after, is_filled};
ghost use Rattle.celf_gather.specs.Stops.{Gives};
ghost use Rattle.celf_gather.specs.Walks.{IsBack, scene_of, context_of, found_of};

use crate::known::Known;
use crate::stop::Stop;
use crate::walk::Walk;
use clf_syntax::{Expr, Head, Mode, Neutral, Obj, Ty, is_same_mode};

impl Known<'_> {
    /// The equations of an object at a type.
    #[cycle(gather)]
    #[tactic(auto, using(clf_syntax::specs::Plain::plain_laws, clf_syntax::specs::PlainTypes::plain_type_laws, clf_simple::proofs::Lists::neutral_head, crate::proofs::Stopping::stop_laws))]
    pub fn gather(&self, walk: &mut Walk, obj: &Obj, ty: &Ty) -> Result<(), Stop>
        ensures outcome { Gives (λ _. found_of walk.new) (gathered (scene_of self.now) (context_of walk.old)
            (plain_obj obj.now) (plain_ty ty.now) (found_of walk.old)) result }
        ensures back { OnOk result (IsBack walk.old walk.new) }
    {
        match obj {
            Obj::Lam { mode, body } => self.gather_lambda(walk, *mode, body.get(), ty),
            Obj::Pair { left, right } => match ty {
                Ty::With {
                    left: first,
                    right: second,
                } => {
                    self.gather(walk, left.get(), first.get())?;
                    self.gather(walk, right.get(), second.get())
                }
                Ty::Fam { .. } | Ty::Fun { .. } | Ty::Top | Ty::Monad { .. } => Err(Stop::Misfit),
            },
            Obj::Unit => gather_unit(walk, ty),
            Obj::Mon { expr } => self.gather_monadic(walk, expr.get(), ty),
            Obj::At { neutral } => match neutral.head {
                Head::Meta(_) => self.gather_filled(walk, obj, ty),
                Head::Const(_) | Head::Var(_) => self.gather_leaf(walk, neutral, ty),
            },
            Obj::Hole => Ok(()),
        }
    }

    /// A lambda stands at a function of its mode.
    #[cycle(gather)]
    #[tactic(auto, using(clf_syntax::specs::PlainTypes::plain_type_laws, crate::proofs::Stopping::stop_laws))]
    fn gather_lambda(&self, walk: &mut Walk, mode: Mode, body: &Obj, ty: &Ty) -> Result<(), Stop>
        ensures outcome { Gives (λ _. found_of walk.new) (lambda_after mode (plain_ty ty.now) (λ a c.
            gathered (scene_of self.now) ((mode, a) ∷ context_of walk.old) (plain_obj body.now) c
            (found_of walk.old))) result }
        ensures back { OnOk result (IsBack walk.old walk.new) }
    {
        match ty {
            Ty::Fun {
                mode: wanted,
                dom,
                cod,
            } => {
                if !is_same_mode(mode, *wanted) {
                    return Err(Stop::Misfit);
                }
                self.gather_body(walk, mode, body, dom.get(), cod.get())
            }
            Ty::Fam { .. } | Ty::With { .. } | Ty::Top | Ty::Monad { .. } => Err(Stop::Misfit),
        }
    }

    /// The equations of a lambda's body, under its variable.
    #[cycle(gather)]
    #[tactic(auto, using(crate::proofs::Stopping::stop_laws, crate::proofs::Contexts::back_laws))]
    fn gather_body(
        &self,
        walk: &mut Walk,
        mode: Mode,
        body: &Obj,
        dom: &Ty,
        cod: &Ty,
    ) -> Result<(), Stop>
        ensures outcome { Gives (λ _. found_of walk.new) (gathered (scene_of self.now)
            ((mode, plain_ty dom.now) ∷ context_of walk.old) (plain_obj body.now) (plain_ty cod.now)
            (found_of walk.old)) result }
        ensures back { OnOk result (IsBack walk.old walk.new) }
    {
        let older = walk.ctx.entries.len();
        walk.enter(self.alloc, mode, dom)?;
        self.gather(walk, body, cod)?;
        walk.leave_to(older);
        Ok(())
    }

    /// A monadic object stands at a monad.
    #[cycle(gather)]
    #[tactic(auto, using(clf_syntax::specs::PlainTypes::plain_type_laws, crate::proofs::Stopping::stop_laws))]
    fn gather_monadic(&self, walk: &mut Walk, expr: &Expr, ty: &Ty) -> Result<(), Stop>
        ensures outcome { Gives (λ _. found_of walk.new) (monadic_after (plain_ty ty.now) (λ s.
            expression_after (scene_of self.now) (context_of walk.old) (plain_expr expr.now) s
            (found_of walk.old))) result }
        ensures back { OnOk result (IsBack walk.old walk.new) }
    {
        match ty {
            Ty::Monad { tele } => self.gather_expression(walk, expr, tele),
            Ty::Fam { .. } | Ty::Fun { .. } | Ty::With { .. } | Ty::Top => Err(Stop::Misfit),
        }
    }

    /// A neutral stands at the family that it has.
    #[cycle(gather)]
    #[tactic(auto, using(clf_syntax::specs::PlainTypes::plain_type_laws, crate::proofs::Stopping::stop_laws))]
    fn gather_leaf(&self, walk: &mut Walk, neutral: &Neutral, ty: &Ty) -> Result<(), Stop>
        ensures outcome { Gives (λ _. found_of walk.new) (leaf_after (scene_of self.now) (context_of walk.old)
            (plain_ty ty.now) (inferred (scene_of self.now) (context_of walk.old) (plain_neutral neutral.now)
            (found_of walk.old))) result }
        ensures back { OnOk result (IsBack walk.old walk.new) }
    {
        match ty {
            Ty::Fam { family, indices } => {
                let found = self.infer(walk, neutral)?;
                self.pair_found(walk, *family, indices.as_slice(), found)
            }
            Ty::Fun { .. } | Ty::With { .. } | Ty::Top | Ty::Monad { .. } => Err(Stop::Misfit),
        }
    }

    /// Nothing is gathered of an object to be filled in.
    #[tactic(auto, using(crate::proofs::Stopping::stop_laws))]
    fn gather_filled(&self, walk: &mut Walk, obj: &Obj, ty: &Ty) -> Result<(), Stop>
        ensures outcome { Gives (λ _. found_of walk.new) (filled_after (is_filled (scene_of self.now)
            (context_of walk.old) (plain_obj obj.now) (plain_ty ty.now)) (found_of walk.old)) result }
        ensures back { OnOk result (IsBack walk.old walk.new) }
    {
        if self.is_filled(walk, obj, ty)? {
            Ok(())
        } else {
            Err(Stop::Misfit)
        }
    }
}

/// `<>` stands at `<T>`.
#[tactic(auto, using(clf_syntax::specs::PlainTypes::plain_type_laws))]
fn gather_unit(walk: &Walk, ty: &Ty) -> Result<(), Stop>
    ensures outcome { Gives (λ _. found_of walk.now) (unit_after (plain_ty ty.now) (found_of walk.now)) result }
{
    match ty {
        Ty::Top => Ok(()),
        Ty::Fam { .. } | Ty::Fun { .. } | Ty::With { .. } | Ty::Monad { .. } => Err(Stop::Misfit),
    }
}
