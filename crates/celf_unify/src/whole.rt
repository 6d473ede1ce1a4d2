//! The call.
ghost use Rattle.std.specs.Prelude.{IfErr, IfOk};
ghost use Rattle.clf_syntax.specs.Wide.{IsWant};
ghost use Rattle.celf_constraints.specs.Equated.{equations_in};
ghost use Rattle.metavars.specs.Stored.{IsPart};
ghost use Rattle.celf_unify.specs.Passes.{IsReady};
ghost use Rattle.celf_unify.specs.Answers.{Answers, FlatAnswers, IsLeft};

use crate::answer::Unified;
use crate::pass::{Pass, one_pass};
use celf_constraints::Equations;
use clf_syntax::Want;
use metavars::Store;
use std::alloc::Global;

/// Solves the equations as far as it can, by passes over all of them until one solves nothing. The store is only added
/// to, whatever the answer. Flat equations in a flat store are solved or clash, and what is added is flat.
pub fn unify(alloc: Global, store: &mut Store, equations: &Equations) -> Result<Unified, Want>
    requires ready { IsReady store.old (equations_in equations.now) }
    ensures answers { IfOk result (λ u. Answers store.old (equations_in equations.now) store.new u) }
    ensures flat { IfOk result (λ u. FlatAnswers store.old (equations_in equations.now) store.new u) }
    ensures added { IsPart store.old store.new }
    ensures ready { IfOk result (λ _. IsReady store.new (equations_in equations.now)) }
    ensures wanting { IfErr result IsWant }
{
    loop {
        match one_pass(alloc, store, equations)? {
            Pass::Again => {}
            Pass::Left(left) => return Ok(with_left(left)),
            Pass::Clash(clash) => return Ok(Unified::Clash(clash)),
        }
    }
}

/// The answer where these equations are left.
fn with_left(left: Equations) -> Unified
    ensures { IsLeft (equations_in left) result }
{
    if left.as_slice().is_empty() {
        Unified::Solved
    } else {
        Unified::Stuck(left)
    }
}
