//! The types of heads.
ghost use Rattle.clf_syntax.specs.PlainTypes.{plain_ty};
ghost use Rattle.clf_syntax.specs.declared.tree.Head.TheVariants.{Const, Var};
ghost use Rattle.celf_gather.specs.Gathered.{with_type};
ghost use Rattle.celf_gather.specs.Scene.{head_type};
ghost use Rattle.celf_gather.specs.Stops.{Gives};
ghost use Rattle.celf_gather.specs.Walks.{scene_of, context_of, found_of};

use crate::known::Known;
use crate::putting::raised_type;
use crate::stop::Stop;
use crate::walk::Walk;
use clf_syntax::{Head, Ty, Want};

impl Known<'_> {
    /// The type of a head. A metavariable has none.
    #[tactic(auto, using(crate::proofs::Stopping::stop_laws))]
    pub fn infer_head(&self, walk: &Walk, head: Head) -> Result<Ty, Stop>
        ensures { Gives (λ t. (plain_ty t, found_of walk.now)) (with_type
            (head_type (scene_of self.now) (context_of walk.now) head) (found_of walk.now)) result }
    {
        match head {
            Head::Const(constant) => self.infer_constant(walk, constant),
            Head::Var(var) => self.infer_variable(walk, var),
            Head::Meta(_) => Err(Stop::Misfit),
        }
    }

    #[tactic(auto, using(crate::proofs::Stopping::stop_laws))]
    fn infer_constant(&self, walk: &Walk, constant: u32) -> Result<Ty, Stop>
        ensures { Gives (λ t. (plain_ty t, found_of walk.now)) (with_type
            (head_type (scene_of self.now) (context_of walk.now) (Const constant)) (found_of walk.now)) result }
    {
        match self.given_type(constant) {
            Some(ty) => Ok(ty.copy(self.alloc)?),
            None => Err(Stop::Misfit),
        }
    }

    /// A variable's type is renumbered past itself and the newer entries.
    #[tactic(auto, using(crate::proofs::Stopping::stop_laws))]
    fn infer_variable(&self, walk: &Walk, var: u32) -> Result<Ty, Stop>
        ensures { Gives (λ t. (plain_ty t, found_of walk.now)) (with_type
            (head_type (scene_of self.now) (context_of walk.now) (Var var)) (found_of walk.now)) result }
    {
        if var as usize >= walk.ctx.len() {
            return Err(Stop::Misfit);
        }
        match var.checked_add(1) {
            Some(by) => raised_type(self.alloc, &walk.ctx.entry(var as usize).ty, by),
            None => Err(Stop::Short(Want::too_far(self.alloc))),
        }
    }
}
