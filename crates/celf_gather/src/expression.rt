//! The equations of expressions: along the steps, then the tuple, and back over the ends of the steps' scopes.
ghost use Rattle.std.specs.Prelude.{◌≡◌, map, OnOk};
ghost use Rattle.clf_syntax.specs.Modes.{same_mode};
ghost use Rattle.clf_syntax.specs.Plain.{plain_expr, plain_step};
ghost use Rattle.clf_syntax.specs.PlainTypes.{plain_ty, plain_tele, plain_tele_entry};
ghost use Rattle.clf_syntax.specs.TypeTree.{telescope_of};
ghost use Rattle.celf_gather.specs.Gathered.{expression_after, each_after, step_after, entered, modes_fit};
ghost use Rattle.celf_gather.specs.Stops.{Gives};
ghost use Rattle.celf_gather.specs.Walks.{IsBack, IsGrown, scene_of, context_of, found_of};

use crate::known::Known;
use crate::putting::raised_telescope;
use crate::stop::Stop;
use crate::walk::Walk;
use clf_syntax::{Expr, Mode, Step, Tele, TeleEntry, Ty, is_same_mode};

impl Known<'_> {
    /// The equations of an expression at a telescope.
    #[cycle(gather)]
    #[tactic(auto, using(clf_syntax::specs::Plain::plain_laws, crate::proofs::Stopping::stop_laws, crate::proofs::Contexts::back_laws))]
    pub fn gather_expression(&self, walk: &mut Walk, expr: &Expr, tele: &Tele) -> Result<(), Stop>
        ensures outcome { Gives (λ _. found_of walk.new) (expression_after (scene_of self.now) (context_of walk.old)
            (plain_expr expr.now) (plain_tele tele.now) (found_of walk.old)) result }
        ensures back { OnOk result (IsBack walk.old walk.new) }
    {
        let older = walk.ctx.entries.len();
        self.enter_steps(walk, expr.steps.as_slice())?;
        let types = raised_telescope(self.alloc, tele, walk.ctx.entries.len() - older)?;
        self.gather_tuple(walk, expr.result.as_slice(), types.entries)?;
        walk.leave_to(older);
        Ok(())
    }

    /// The equations of steps, whose variables become the newest.
    #[cycle(gather)]
    #[tactic(auto, using(crate::proofs::Stopping::stop_laws))]
    fn enter_steps(&self, walk: &mut Walk, steps: &[Step]) -> Result<(), Stop>
        ensures outcome { Gives (λ _. (context_of walk.new, found_of walk.new)) (each_after
            (step_after (scene_of self.now)) (map plain_step steps.now) (context_of walk.old, found_of walk.old))
            result }
        ensures grown { OnOk result (IsGrown walk.old walk.new) }
    {
        for step in steps {
            self.enter_step(walk, step)?;
        }
        Ok(())
    }

    /// The equations of a step.
    #[cycle(gather)]
    #[tactic(auto, using(clf_syntax::specs::Plain::plain_laws, crate::proofs::Stopping::stop_laws))]
    fn enter_step(&self, walk: &mut Walk, step: &Step) -> Result<(), Stop>
        ensures outcome { Gives (λ _. (context_of walk.new, found_of walk.new)) (step_after (scene_of self.now)
            (plain_step step.now) (context_of walk.old, found_of walk.old)) result }
        ensures grown { OnOk result (IsGrown walk.old walk.new) }
    {
        let ty = self.infer(walk, &step.rhs)?;
        self.open(walk, step.modes.as_slice(), ty)
    }

    /// The entries of the right side's monad become the newest variables.
    #[tactic(auto, using(clf_syntax::specs::PlainTypes::plain_type_laws, crate::proofs::Stopping::stop_laws, crate::proofs::Contexts::entered_context))]
    fn open(&self, walk: &mut Walk, modes: &[Mode], ty: Ty) -> Result<(), Stop>
        ensures outcome { Gives (λ _. (context_of walk.new, found_of walk.new)) (entered modes.now
            (context_of walk.old) (plain_ty ty, found_of walk.old)) result }
        ensures grown { OnOk result (IsGrown walk.old walk.new) }
    {
        match ty {
            Ty::Monad { tele } => {
                if !has_modes(tele.entries.as_slice(), modes) {
                    return Err(Stop::Misfit);
                }
                walk.enter_entries(self.alloc, tele.entries)
            }
            Ty::Fam { .. } | Ty::Fun { .. } | Ty::With { .. } | Ty::Top => Err(Stop::Misfit),
        }
    }
}

/// Whether these are the modes of the entries.
fn has_modes(entries: &[TeleEntry], modes: &[Mode]) -> bool
    ensures { result ≡ modes_fit (telescope_of (map plain_tele_entry entries.now)) modes.now }
{
    if entries.len() != modes.len() {
        return false;
    }
    for place in 0..entries.len() {
        if !has_mode(&entries[place], &modes[place]) {
            return false;
        }
    }
    true
}

fn has_mode(entry: &TeleEntry, mode: &Mode) -> bool
    ensures { result ≡ same_mode mode.now entry.now.mode }
{
    is_same_mode(*mode, entry.mode)
}
