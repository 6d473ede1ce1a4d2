//! The equations of whole items.
ghost use Rattle.std.specs.Prelude.{◌≡◌, ◌++◌, [], map, IfOk, IfErr, IfSome, None, OnOk};
ghost use Rattle.std.specs.List.{slice_get};
ghost use Rattle.clf_syntax.specs.Plain.{plain_obj};
ghost use Rattle.clf_syntax.specs.PlainTypes.{plain_ty};
ghost use Rattle.clf_syntax.specs.Simple.{erase};
ghost use Rattle.clf_syntax.specs.Wide.{IsWant};
ghost use Rattle.clf_sig.specs.Core.{plain_core};
ghost use Rattle.clf_sig.specs.Entry.{simple_types};
ghost use Rattle.clf_sig.specs.Signature.{plain_signature, plain_class};
ghost use Rattle.store_laws.specs.Additions.{meta_types};
ghost use Rattle.metavars.specs.Stored.{constants, additions};
ghost use Rattle.elaboration_laws.specs.ItemSetting.{item_setting};
ghost use Rattle.celf_elaboration.specs.Items.{CoreGathers};
ghost use Rattle.celf_constraints.specs.Equated.{equations_in};
ghost use Rattle.celf_gather.specs.Formed.{class_after, core_after, type_after};
ghost use Rattle.hered_put.specs.Function.{after};
ghost use Rattle.celf_gather.specs.Gathered.{gathered};
ghost use Rattle.celf_gather.specs.Holes.{GathersNothing};
ghost use Rattle.celf_gather.specs.Stops.{Gives};
ghost use Rattle.celf_gather.specs.Walks.{IsBack, scene_of, context_of, found_of};

use crate::known::Known;
use crate::stop::Stop;
use crate::walk::Walk;
use celf_constraints::Equations;
use clf_sig::{Class, Core, Signature};
use clf_syntax::{Obj, Ty, Want};
use metavars::Store;
use std::alloc::Global;
use use_contexts::Ctx;

/// The equations of an item, in the order of its parts. Implicit variables are constants past those of the signature,
/// of the types `variables`; a metavariable is an object to be filled in.
///
/// `None` where nothing is gathered of the item.
pub fn gather(
    alloc: Global,
    sig: &Signature,
    variables: &[Ty],
    store: &Store,
    core: &Core,
) -> Result<Option<Equations>, Want>
    requires constants { constants store.now
        ≡ simple_types (plain_signature sig.now) ++ map erase (map plain_ty variables.now) }
    ensures gathered { IfOk result (λ found. IfSome found (λ q. CoreGathers (plain_signature sig.now)
        (item_setting (plain_signature sig.now) (map plain_ty variables.now)
        (slice_get (meta_types (additions store.now)))) (plain_core core.now) (equations_in q))) }

    // Where none is answered, none is gathered, over a formed setting and where no hole stands in the core.
    ensures refused { IfOk result (λ found. found ≡ None → GathersNothing (plain_signature sig.now)
        (item_setting (plain_signature sig.now) (map plain_ty variables.now)
        (slice_get (meta_types (additions store.now)))) (plain_core core.now)) }
    ensures wanting { IfErr result IsWant }
{
    let known = Known {
        alloc,
        sig,
        variables,
        store,
    };
    let mut walk = Walk {
        ctx: Ctx::empty(alloc),
        found: Equations::new(alloc),
    };
    match known.gather_core(&mut walk, core) {
        Ok(()) => Ok(Some(walk.found)),
        Err(Stop::Misfit) => Ok(None),
        Err(Stop::Short(want)) => Err(want),
    }
}

impl Known<'_> {
    /// The equations of a core. A directive's type comes before its objects.
    #[tactic(auto, using(clf_syntax::specs::PlainTypes::plain_type_laws, crate::proofs::Stopping::stop_laws))]
    fn gather_core(&self, walk: &mut Walk, core: &Core) -> Result<(), Stop>
        requires empty { context_of walk.old ≡ [] }
        ensures outcome { Gives (λ _. found_of walk.new)
            (core_after (scene_of self.now) (plain_core core.now) (found_of walk.old)) result }
    {
        match core {
            Core::Declare { name: _, entry } => self.gather_class(walk, &entry.class),
            Core::Query { ty } => self.form_type(walk, ty),
            Core::Trace { tele } => self.form_telescope(walk, tele.entries.as_slice()),
            Core::Equal { left, right, ty } => {
                self.gather_at(walk, left, ty)?;
                self.gather(walk, right, ty)
            }
            Core::Check { obj, ty } => self.gather_at(walk, obj, ty),
        }
    }

    /// The equations of a kind or a type.
    #[tactic(auto, using(crate::proofs::Stopping::stop_laws))]
    fn gather_class(&self, walk: &mut Walk, class: &Class) -> Result<(), Stop>
        requires empty { context_of walk.old ≡ [] }
        ensures outcome { Gives (λ _. found_of walk.new)
            (class_after (scene_of self.now) (plain_class class.now) (found_of walk.old)) result }
    {
        match class {
            Class::Family(kind) => self.form_arguments(walk, kind.args.as_slice()),
            Class::Constant(ty) => self.form_type(walk, ty),
        }
    }

    /// The equations of a type, and of an object at it.
    #[tactic(auto, using(crate::proofs::Stopping::stop_laws))]
    fn gather_at(&self, walk: &mut Walk, obj: &Obj, ty: &Ty) -> Result<(), Stop>
        ensures outcome { Gives (λ _. found_of walk.new) (after
            (type_after (scene_of self.now) (context_of walk.old) (plain_ty ty.now) (found_of walk.old))
            (gathered (scene_of self.now) (context_of walk.old) (plain_obj obj.now) (plain_ty ty.now))) result }
        ensures back { OnOk result (IsBack walk.old walk.new) }
    {
        self.form_type(walk, ty)?;
        self.gather(walk, obj, ty)
    }
}
