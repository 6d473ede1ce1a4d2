//! What a check runs in.
ghost use Rattle.use_contexts.specs.Marks.{context};
ghost use Rattle.clf_kernel.specs.Numbered.{IsNumbered};

use crate::refusal::{Stop, too_far};
use clf_sig::Signature;
use std::alloc::Global;
use use_contexts::Ctx;

/// A signature, and a context, which grows under binders and shrinks at the ends of their scopes.
#[derive(Drop)]
pub struct Judge<'a> {
    pub alloc: Global,
    pub sig: &'a Signature,
    pub ctx: Ctx,
    ghost numbered: { IsNumbered (context ctx) },
}

impl<'a> Judge<'a> {
    ghost use Rattle.std.specs.Prelude.{◌≡◌, IfOk, IfErr};
    ghost use Rattle.clf_sig.specs.Signature.{plain_signature};
    ghost use Rattle.clf_kernel.specs.Judge.{signature_of, context_of};
    ghost use Rattle.clf_kernel.specs.Stops.{IsShort};

    /// A judge over a copy of a context.
    #[tactic(auto, using(crate::proofs::Stops::stop_laws))]
    pub fn over(alloc: Global, sig: &'a Signature, ctx: &Ctx) -> Result<Judge<'a>, Stop>
        ensures signature { IfOk result (λ judge. signature_of judge ≡ plain_signature sig.now) }
        ensures context { IfOk result (λ judge. context_of judge ≡ context ctx.now) }
        ensures short { IfErr result IsShort }
    {
        if ctx.len() > u32::MAX as usize {
            return Err(too_far(alloc));
        }
        let ctx = ctx.copy(alloc)?;
        Ok(Judge { alloc, sig, ctx })
    }
}
