//! Solutions, put into types. A solution has no free variable, so the entries of a telescope are done one by one.
ghost use Rattle.std.specs.Prelude.{map};
ghost use Rattle.clf_syntax.specs.TypeTree.{telescope_of};
ghost use Rattle.clf_syntax.specs.Plain.{plain_obj};
ghost use Rattle.clf_syntax.specs.PlainTypes.{plain_ty, plain_tele, plain_tele_entry};
ghost use Rattle.metavars.specs.Becoming as becoming;
ghost use Rattle.metavars.specs.Outcomes.{Gives};

use crate::instantiate::{Looking, put_object};
use clf_syntax::{Obj, Tele, TeleEntry, Ty};
use hered_put::PutFault;
use sqlite_items::{Boxed, Items};

#[cycle(put_type)]
#[tactic(auto, using(clf_syntax::specs::PlainTypes::plain_type_laws, crate::proofs::Becomings::becoming_laws))]
pub fn put_type(looking: &Looking<'_>, ty: &Ty) -> Result<Ty, PutFault>
    ensures { Gives (becoming.NoTyping looking.now.store.now (plain_ty ty.now))
        (λ x. becoming.Typing looking.now.store.now (plain_ty ty.now) (plain_ty x)) result }
{
    let alloc = looking.alloc;
    match ty {
        Ty::Fam { family, indices } => Ok(Ty::Fam {
            family: *family,
            indices: put_indices(looking, indices.as_slice())?,
        }),
        Ty::Fun { mode, dom, cod } => {
            let dom = put_type(looking, dom.get())?;
            let cod = put_type(looking, cod.get())?;
            Ok(Ty::Fun {
                mode: *mode,
                dom: Boxed::new(alloc, dom)?,
                cod: Boxed::new(alloc, cod)?,
            })
        }
        Ty::With { left, right } => {
            let left = put_type(looking, left.get())?;
            let right = put_type(looking, right.get())?;
            Ok(Ty::With {
                left: Boxed::new(alloc, left)?,
                right: Boxed::new(alloc, right)?,
            })
        }
        Ty::Top => Ok(Ty::Top),
        Ty::Monad { tele } => Ok(Ty::Monad {
            tele: put_telescope(looking, tele)?,
        }),
    }
}

fn put_indices(looking: &Looking<'_>, indices: &[Obj]) -> Result<Items<Obj>, PutFault>
    ensures { Gives (becoming.NoIndices looking.now.store.now (map plain_obj indices.now)) (λ xs.
        becoming.Each (becoming.Object looking.now.store.now) (map plain_obj indices.now) (map plain_obj xs)) result }
{
    let mut put = Items::new(looking.alloc);
    for index in indices {
        put.push(put_object(looking, index)?)?;
    }
    Ok(put)
}

#[cycle(put_type)]
#[tactic(auto, using(clf_syntax::specs::PlainTypes::plain_type_laws, crate::proofs::Becomings::becoming_laws))]
fn put_telescope(looking: &Looking<'_>, tele: &Tele) -> Result<Tele, PutFault>
    ensures { Gives (becoming.NoTelescope looking.now.store.now (plain_tele tele.now))
        (λ x. becoming.TelescopeOf looking.now.store.now (plain_tele tele.now) (plain_tele x)) result }
{
    Ok(Tele {
        entries: put_entries(looking, tele.entries.as_slice())?,
    })
}

#[cycle(put_type)]
fn put_entries(looking: &Looking<'_>, entries: &[TeleEntry]) -> Result<Items<TeleEntry>, PutFault>
    ensures { Gives (becoming.NoTelescope looking.now.store.now (telescope_of (map plain_tele_entry entries.now)))
        (λ xs. becoming.Each (becoming.TypingEntry looking.now.store.now) (map plain_tele_entry entries.now)
        (map plain_tele_entry xs)) result }
{
    let mut put = Items::new(looking.alloc);
    for entry in entries {
        put.push(put_entry(looking, entry)?)?;
    }
    Ok(put)
}

#[cycle(put_type)]
#[tactic(auto, using(clf_syntax::specs::PlainTypes::plain_type_laws, crate::proofs::Becomings::becoming_laws))]
fn put_entry(looking: &Looking<'_>, entry: &TeleEntry) -> Result<TeleEntry, PutFault>
    ensures { Gives (becoming.NoTypingEntry looking.now.store.now (plain_tele_entry entry.now)) (λ x.
        becoming.TypingEntry looking.now.store.now (plain_tele_entry entry.now) (plain_tele_entry x)) result }
{
    Ok(TeleEntry {
        mode: entry.mode,
        ty: put_type(looking, &entry.ty)?,
    })
}
