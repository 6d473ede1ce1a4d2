//! Leaves: neutrals at families, and what is to be filled in.
ghost use Rattle.std.specs.Prelude.{◌≡◌, map, IfOk, IfErr, OnOk};
ghost use Rattle.clf_syntax.specs.Plain.{plain_obj, plain_neutral};
ghost use Rattle.clf_syntax.specs.PlainTypes.{plain_ty};
ghost use Rattle.clf_syntax.specs.Simple.{erase as erased};
ghost use Rattle.use_contexts.specs.Marks.{context};
ghost use Rattle.gathering.specs.Setting.{simple_locals as locals_of};
ghost use Rattle.typing_laws.specs.SimpleTyping.{families_of};
ghost use Rattle.celf_constraints.specs.Equated.{plain_equation};
ghost use Rattle.celf_gather.specs.Gathered.{pairs_after, known_pairs, found_after, is_filled};
ghost use Rattle.celf_gather.specs.Stops.{Gives, IsShort};
ghost use Rattle.celf_gather.specs.Walks.{IsBack, scene_of, context_of, found_of};

use crate::known::Known;
use crate::locals::simple_locals;
use crate::stop::Stop;
use crate::walk::Walk;
use celf_constraints::Equation;
use clf_simple::simply_typed;
use clf_syntax::{Obj, Ty, erase};
use use_contexts::Ctx;

impl Known<'_> {
    /// The equations of a neutral's type, which is the family at which it stands, and the indices wanted.
    #[tactic(auto, using(clf_syntax::specs::PlainTypes::plain_type_laws, crate::proofs::Stopping::stop_laws))]
    pub fn pair_found(
        &self,
        walk: &mut Walk,
        family: u32,
        wanted: &[Obj],
        found: Ty,
    ) -> Result<(), Stop>
        ensures outcome { Gives (λ _. found_of walk.new) (found_after (scene_of self.now) (context_of walk.old) family
            (map plain_obj wanted.now) (plain_ty found, found_of walk.old)) result }
        ensures back { OnOk result (IsBack walk.old walk.new) }
    {
        match found {
            Ty::Fam {
                family: number,
                indices,
            } => {
                if number != family {
                    return Err(Stop::Misfit);
                }
                self.pair_indices(walk, family, indices.as_slice(), wanted)
            }
            Ty::Fun { .. } | Ty::With { .. } | Ty::Top | Ty::Monad { .. } => Err(Stop::Misfit),
        }
    }

    /// The equations of a family's indices.
    #[tactic(auto, using(crate::proofs::Stopping::stop_laws))]
    fn pair_indices(
        &self,
        walk: &mut Walk,
        family: u32,
        found: &[Obj],
        wanted: &[Obj],
    ) -> Result<(), Stop>
        ensures outcome { Gives (λ _. found_of walk.new) (known_pairs (locals_of (context_of walk.old))
            (families_of (scene_of self.now).signature family) (map plain_obj found.now)
            (map plain_obj wanted.now) (found_of walk.old)) result }
        ensures back { OnOk result (IsBack walk.old walk.new) }
    {
        match self.family_kind(family) {
            Some(kind) => self.pair_at(walk, kind.args.as_slice(), found, wanted),
            None => Err(Stop::Misfit),
        }
    }

    /// An equation for each pair of indices, at its argument.
    #[tactic(auto, using(crate::proofs::Stopping::stop_laws))]
    fn pair_at(
        &self,
        walk: &mut Walk,
        args: &[Ty],
        found: &[Obj],
        wanted: &[Obj],
    ) -> Result<(), Stop>
        ensures outcome { Gives (λ _. found_of walk.new) (pairs_after (locals_of (context_of walk.old))
            (map erased (map plain_ty args.now)) (map plain_obj found.now) (map plain_obj wanted.now)
            (found_of walk.old)) result }
        ensures back { OnOk result (IsBack walk.old walk.new) }
    {
        if found.len() != args.len() {
            return Err(Stop::Misfit);
        }
        if wanted.len() != args.len() {
            return Err(Stop::Misfit);
        }
        for place in 0..args.len() {
            let equation = self.equate(&walk.ctx, &args[place], &found[place], &wanted[place])?;
            walk.found.push(equation)?;
        }
        Ok(())
    }

    /// The equation of two indices over the variables in scope.
    fn equate(&self, ctx: &Ctx, ty: &Ty, left: &Obj, right: &Obj) -> Result<Equation, Stop>
        ensures equation { IfOk result (λ e.
            plain_equation e
            ≡ record {
              locals = locals_of (context ctx.now);
              left = plain_obj left.now;
              right = plain_obj right.now;
              type = erased (plain_ty ty.now);
            }) }
        ensures short { IfErr result IsShort }
    {
        let locals = simple_locals(self.alloc, ctx)?;
        let left = left.copy(self.alloc)?;
        let right = right.copy(self.alloc)?;
        Ok(Equation {
            locals,
            left,
            right,
            ty: erase(self.alloc, ty)?,
        })
    }

    /// Whether an object has the erasure of a type.
    #[tactic(auto, using(crate::proofs::Stopping::stop_laws))]
    pub fn is_filled(&self, walk: &Walk, obj: &Obj, ty: &Ty) -> Result<bool, Stop>
        ensures filled { IfOk result (λ b. b ≡ is_filled (scene_of self.now) (context_of walk.now) (plain_obj obj.now)
            (plain_ty ty.now)) }
        ensures short { IfErr result IsShort }
    {
        let locals = simple_locals(self.alloc, &walk.ctx)?;
        let simple = erase(self.alloc, ty)?;
        let typed = simply_typed(
            self.alloc,
            self.store.consts(),
            self.store.metas(),
            locals.as_slice(),
            obj,
            &simple,
        )?;
        Ok(typed)
    }
}
