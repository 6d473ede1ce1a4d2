//! What is left of a written type without its indices.
ghost use Rattle.std.specs.Prelude.{◌≡◌, map, IfOk, option_map};
ghost use Rattle.clf_syntax.specs.PlainSimple.{plain_simple_entry, simple_telescope_of};
ghost use Rattle.clf_syntax.specs.TypeTree as core_type;
ghost use Rattle.clf_sig.specs.Signature.{plain_signature};
ghost use Rattle.celf_sugar.specs.Plain.{desugared_type, desugared_telescope, desugared_entry};
ghost use Rattle.celf_places.specs.Locals.{plain_place};
ghost use Rattle.celf_places.specs.Combined.{combined, with_mode};
ghost use Rattle.celf_places.specs.SimpleTypes as spec;
ghost use Rattle.celf_places.specs.Along.{read_along, stateless, simple_entry as simple_entry_of, bound_place};

use crate::in_box::boxed;
use celf_names::family_named;
use celf_sugar::{PEntry, PTele, PTy, PTyForm};
use clf_sig::Signature;
use clf_syntax::{Mode, Name, Shortage, Simple, SimpleEntry};
use sqlite_items::{Boxed, Items};
use std::alloc::Global;

/// What is left of a type without its indices; none where a name in it is that of no family. It fails only where memory
/// runs out.
#[cycle(simple)]
#[tactic(auto, using(celf_names::proofs::Forms::type_laws, crate::proofs::Forms::simple_top_laws))]
pub fn simple_of(alloc: Global, sig: &Signature, ty: &PTy) -> Result<Option<Simple>, Shortage>
    ensures { IfOk result (λ t. plain_place t ≡ spec.simple_type (plain_signature sig.now) (desugared_type ty.now)) }
{
    match &ty.form {
        PTyForm::Family { head, indices: _ } => Ok(atom(family_named(sig, head.name.as_str()))),
        PTyForm::Fun {
            mode,
            name: _,
            dom,
            cod,
        } => {
            let dom = boxed(alloc, simple_of(alloc, sig, dom.get()))?;
            let cod = boxed(alloc, simple_of(alloc, sig, cod.get()))?;
            Ok(function(*mode, dom, cod))
        }
        PTyForm::With { left, right } => {
            let left = boxed(alloc, simple_of(alloc, sig, left.get()))?;
            let right = boxed(alloc, simple_of(alloc, sig, right.get()))?;
            Ok(both(left, right))
        }
        PTyForm::Top => Ok(Some(Simple::Top)),
        PTyForm::Monad { tele } => simple_monad(alloc, sig, tele),
    }
}

#[tactic(auto, using(clf_syntax::specs::PlainSimple::plain_simple_laws))]
fn atom(family: Option<u32>) -> Option<Simple>
    ensures { plain_place result ≡ option_map core_type.base family }
{
    let family = family?;
    Some(Simple::Atom(family))
}

#[tactic(auto, using(clf_syntax::specs::PlainSimple::plain_simple_laws))]
fn function(mode: Mode, dom: Option<Boxed<Simple>>, cod: Option<Boxed<Simple>>) -> Option<Simple>
    ensures { plain_place result ≡ combined (core_type.arrow mode) (plain_place dom) (plain_place cod) }
{
    let dom = dom?;
    let cod = cod?;
    Some(Simple::Fun { mode, dom, cod })
}

#[tactic(auto, using(clf_syntax::specs::PlainSimple::plain_simple_laws))]
fn both(left: Option<Boxed<Simple>>, right: Option<Boxed<Simple>>) -> Option<Simple>
    ensures { plain_place result ≡ combined core_type.simple_with (plain_place left) (plain_place right) }
{
    let left = left?;
    let right = right?;
    Some(Simple::With { left, right })
}

/// What is left of a monad.
#[cycle(simple)]
#[tactic(auto, using(celf_names::proofs::Forms::telescope_laws, crate::specs::Along::simple_list_laws))]
fn simple_monad(alloc: Global, sig: &Signature, tele: &PTele) -> Result<Option<Simple>, Shortage>
    ensures { IfOk result (λ t.
        plain_place t
        ≡ option_map core_type.lax
        (spec.simple_telescope (plain_signature sig.now) (desugared_telescope tele.now))) }
{
    let entries = simple_entries(alloc, sig, tele.entries.as_slice())?;
    Ok(monad(entries))
}

#[tactic(auto, using(clf_syntax::specs::PlainSimple::plain_simple_laws))]
fn monad(entries: Option<Items<SimpleEntry>>) -> Option<Simple>
    ensures { plain_place result
        ≡ option_map core_type.lax (option_map simple_telescope_of (option_map (map plain_simple_entry) entries)) }
{
    let entries = entries?;
    Some(Simple::Monad { entries })
}

#[cycle(simple)]
fn simple_entries(
    alloc: Global,
    sig: &Signature,
    entries: &[PEntry],
) -> Result<Option<Items<SimpleEntry>>, Shortage>
    ensures { IfOk result (λ es.
        option_map (map plain_simple_entry) es
        ≡ read_along (simple_entry_of (plain_signature sig.now)) stateless tt
        (map desugared_entry entries.now)) }
{
    let mut simple = Items::new(alloc);
    for entry in entries {
        match simple_entry(alloc, sig, entry)? {
            Some(entry) => simple.push(entry)?,
            None => return Ok(None),
        }
    }
    Ok(Some(simple))
}

#[cycle(simple)]
#[tactic(auto, using(celf_sugar::specs::Plain::entry_laws))]
fn simple_entry(
    alloc: Global,
    sig: &Signature,
    entry: &PEntry,
) -> Result<Option<SimpleEntry>, Shortage>
    ensures { IfOk result (λ e.
        option_map plain_simple_entry e
        ≡ simple_entry_of (plain_signature sig.now) tt (desugared_entry entry.now)) }
{
    let ty = simple_of(alloc, sig, &entry.ty)?;
    Ok(entry_of(entry.mode, ty))
}

#[tactic(auto, using(clf_syntax::specs::PlainSimple::plain_simple_laws))]
fn entry_of(mode: Mode, ty: Option<Simple>) -> Option<SimpleEntry>
    ensures { option_map plain_simple_entry result ≡ option_map (with_mode mode) (plain_place ty) }
{
    let ty = ty?;
    Some(SimpleEntry { mode, ty })
}

/// The simple type of what a function or an entry binds, where it has a name.
pub fn bound_simple(
    alloc: Global,
    sig: &Signature,
    name: &Option<Name>,
    ty: &PTy,
) -> Result<Option<Boxed<Simple>>, Shortage>
    ensures { IfOk result (λ t.
        (name.now, plain_place t) ≡ spec.local_of (plain_signature sig.now) name.now (desugared_type ty.now)) }
{
    match name {
        Some(_) => boxed(alloc, simple_of(alloc, sig, ty)),
        None => Ok(None),
    }
}

/// Those of entries, in order.
pub fn bound_simples(
    alloc: Global,
    sig: &Signature,
    entries: &[PEntry],
) -> Result<Items<Option<Boxed<Simple>>>, Shortage>
    ensures { IfOk result
        (λ ts. map plain_place ts ≡ map (bound_place (plain_signature sig.now)) (map desugared_entry entries.now)) }
{
    let mut simples = Items::new(alloc);
    for entry in entries {
        simples.push(bound_entry(alloc, sig, entry)?)?;
    }
    Ok(simples)
}

#[tactic(auto, using(celf_sugar::specs::Plain::entry_laws))]
fn bound_entry(
    alloc: Global,
    sig: &Signature,
    entry: &PEntry,
) -> Result<Option<Boxed<Simple>>, Shortage>
    ensures { IfOk result (λ t. plain_place t ≡ bound_place (plain_signature sig.now) (desugared_entry entry.now)) }
{
    bound_simple(alloc, sig, &entry.name, &entry.ty)
}
