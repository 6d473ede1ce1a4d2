//! The reading of types and telescopes.
ghost use Rattle.std.specs.Prelude.{◌≡◌, ◌∷◌, Some, None, map, get_or, IfOk, OnOk, option_copied, option_map};
ghost use Rattle.clf_syntax.specs.Plain.{plain_obj};
ghost use Rattle.clf_syntax.specs.PlainTypes.{plain_ty, plain_tele, plain_tele_entry};
ghost use Rattle.clf_syntax.specs.PlainSimple.{plain_simple, plain_simple_entry};
ghost use Rattle.clf_sig.specs.Signature.{plain_signature};
ghost use Rattle.celf_sugar.specs.Plain.{desugared_object, desugared_type, desugared_telescope, desugared_entry};
ghost use Rattle.celf_places.specs.Locals.{plain_place, plain_locals};
ghost use Rattle.celf_explicit.specs.Types as spec;
ghost use Rattle.celf_places.specs.Along.{read_along, bound_place};
ghost use Rattle.celf_explicit.specs.Lists.{read_entry as read_entry_of, behind_entry};

use crate::objects::read_object;
use crate::trees::{both, family, function, monad, telescope, telescope_entry};
use celf_places::{Locals, arguments_of, bound_simple, bound_simples, boxed, family_of, next_part};
use celf_sugar::{PEntry, PObj, PTele, PTy, PTyForm};
use clf_sig::Signature;
use clf_syntax::{Name, Obj, Shortage, Simple, SimpleEntry, Tele, TeleEntry, Ty};
use sqlite_items::{Boxed, Items};
use std::alloc::Global;

/// The core of a type under these locals; none where something would have to be found, or where a name in it has no
/// meaning.
#[cycle(types)]
#[tactic(auto, using(celf_names::proofs::Forms::type_laws, crate::proofs::Forms::core_type_laws))]
pub fn read_type<'a>(
    ty: &'a PTy,
    alloc: Global,
    sig: &'a Signature,
    locals: &mut Locals<'a>,
) -> Result<Option<Ty>, Shortage>
    ensures read { IfOk result (λ t.
        option_map plain_ty t
        ≡ spec.read_type (plain_signature sig.now) (plain_locals locals.old) (desugared_type ty.now)) }
    ensures kept { OnOk result (locals.new ≡ locals.old) }
{
    match &ty.form {
        PTyForm::Family { head, indices } => match family_of(sig, head) {
            Some(family) => at_indices(alloc, sig, locals, family, indices.as_slice()),
            None => Ok(None),
        },
        PTyForm::Fun {
            mode,
            name,
            dom,
            cod,
        } => {
            let simple = bound_simple(alloc, sig, name, dom.get())?;
            let dom = boxed(alloc, read_type(dom.get(), alloc, sig, locals))?;
            let cod = boxed(
                alloc,
                read_under(cod.get(), alloc, sig, name, simple, locals),
            )?;
            Ok(function(*mode, dom, cod))
        }
        PTyForm::With { left, right } => {
            let left = boxed(alloc, read_type(left.get(), alloc, sig, locals))?;
            let right = boxed(alloc, read_type(right.get(), alloc, sig, locals))?;
            Ok(both(left, right))
        }
        PTyForm::Top => Ok(Some(Ty::Top)),
        PTyForm::Monad { tele } => Ok(monad(read_telescope(tele, alloc, sig, locals)?)),
    }
}

/// The core of a type under one local more.
#[cycle(types)]
fn read_under<'a>(
    ty: &'a PTy,
    alloc: Global,
    sig: &'a Signature,
    name: &'a Option<Name>,
    simple: Option<Boxed<Simple>>,
    locals: &mut Locals<'a>,
) -> Result<Option<Ty>, Shortage>
    ensures read { IfOk result (λ t.
        option_map plain_ty t
        ≡ spec.read_type (plain_signature sig.now) ((name.now, plain_place simple) ∷ plain_locals locals.old)
        (desugared_type ty.now)) }
    ensures kept { OnOk result (locals.new ≡ locals.old) }
{
    match simple {
        Some(simple) => read_inner(ty, alloc, sig, name, simple.get(), locals),
        None => {
            locals.push(name, None)?;
            let read = read_type(ty, alloc, sig, locals);
            locals.pop();
            read
        }
    }
}

/// The core of a type under a local of this simple type. The locals are copied, since they need not last as long as the
/// others.
#[cycle(types)]
fn read_inner<'a>(
    ty: &'a PTy,
    alloc: Global,
    sig: &'a Signature,
    name: &'a Option<Name>,
    simple: &'a Simple,
    outer: &Locals<'a>,
) -> Result<Option<Ty>, Shortage>
    ensures { IfOk result (λ t.
        option_map plain_ty t
        ≡ spec.read_type (plain_signature sig.now)
        ((name.now, Some (plain_simple simple.now)) ∷ plain_locals outer.now) (desugared_type ty.now)) }
{
    let mut inner = outer.copy(alloc)?;
    inner.push(name, Some(simple))?;
    read_type(ty, alloc, sig, &mut inner)
}

/// The core of a telescope under these locals.
#[cycle(types)]
#[tactic(auto, using(celf_names::proofs::Forms::telescope_laws, crate::specs::Lists::type_list_laws))]
pub fn read_telescope<'a>(
    tele: &'a PTele,
    alloc: Global,
    sig: &'a Signature,
    locals: &mut Locals<'a>,
) -> Result<Option<Tele>, Shortage>
    ensures read { IfOk result (λ s.
        option_map plain_tele s
        ≡ spec.read_telescope (plain_signature sig.now) (plain_locals locals.old)
        (desugared_telescope tele.now)) }
    ensures kept { OnOk result (locals.new ≡ locals.old) }
{
    let simples = bound_simples(alloc, sig, tele.entries.as_slice())?;
    let entries = read_entries(
        tele.entries.as_slice(),
        alloc,
        sig,
        simples.as_slice(),
        locals,
    )?;
    Ok(telescope(entries))
}

/// The cores of entries that bind these simple types. The locals are copied, since they need not last as long as the
/// others.
#[cycle(types)]
fn read_entries<'a>(
    entries: &'a [PEntry],
    alloc: Global,
    sig: &'a Signature,
    simples: &'a [Option<Boxed<Simple>>],
    outer: &Locals<'a>,
) -> Result<Option<Items<TeleEntry>>, Shortage>
    requires { map plain_place simples.now
        ≡ map (bound_place (plain_signature sig.now)) (map desugared_entry entries.now) }
    ensures { IfOk result (λ es.
        option_map (map plain_tele_entry) es
        ≡ read_along (read_entry_of (plain_signature sig.now)) (behind_entry (plain_signature sig.now))
        (plain_locals outer.now) (map desugared_entry entries.now)) }
{
    let mut locals = outer.copy(alloc)?;
    let mut read = Items::new(alloc);
    for (index, entry) in entries.iter().enumerate() {
        match read_entry(entry, alloc, sig, &mut locals)? {
            Some(entry) => read.push(entry)?,
            None => return Ok(None),
        }
        locals.push(&entry.name, place_at(simples, index))?;
    }
    Ok(Some(read))
}

/// The simple type at a place.
fn place_at<'a>(simples: &'a [Option<Boxed<Simple>>], index: usize) -> Option<&'a Simple>
    ensures { option_copied result ≡ get_or simples.now index None }
{
    match simples.get(index)? {
        Some(simple) => Some(simple.get()),
        None => None,
    }
}

#[cycle(types)]
#[tactic(auto, using(celf_sugar::specs::Plain::entry_laws))]
fn read_entry<'a>(
    entry: &'a PEntry,
    alloc: Global,
    sig: &'a Signature,
    locals: &mut Locals<'a>,
) -> Result<Option<TeleEntry>, Shortage>
    ensures read { IfOk result (λ e.
        option_map plain_tele_entry e
        ≡ read_entry_of (plain_signature sig.now) (plain_locals locals.old) (desugared_entry entry.now)) }
    ensures kept { OnOk result (locals.new ≡ locals.old) }
{
    let ty = read_type(&entry.ty, alloc, sig, locals)?;
    Ok(telescope_entry(entry.mode, ty))
}

/// A family at indices.
fn at_indices<'a>(
    alloc: Global,
    sig: &'a Signature,
    locals: &mut Locals<'a>,
    head: u32,
    indices: &'a [PObj],
) -> Result<Option<Ty>, Shortage>
    ensures read { IfOk result (λ t.
        option_map plain_ty t
        ≡ spec.at_indices (plain_signature sig.now) (plain_locals locals.old) (map desugared_object indices.now)
        head) }
    ensures kept { OnOk result (locals.new ≡ locals.old) }
{
    // Most families stand alone, and then nothing of the locals is needed.
    if indices.is_empty() {
        return Ok(family(head, Some(Items::new(alloc))));
    }
    let wanted = arguments_of(alloc, sig, head)?;
    let indices = read_indices(indices, alloc, sig, wanted.as_slice(), locals)?;
    Ok(family(head, indices))
}

/// Indices, each at what is wanted of it. The locals are copied, since they need not last as long as the others.
#[tactic(auto, using(crate::specs::Lists::index_list_laws))]
fn read_indices<'a>(
    indices: &'a [PObj],
    alloc: Global,
    sig: &'a Signature,
    wanted: &'a [SimpleEntry],
    outer: &Locals<'a>,
) -> Result<Option<Items<Obj>>, Shortage>
    ensures { IfOk result (λ os.
        option_map (map plain_obj) os
        ≡ spec.read_indices (plain_signature sig.now) (plain_locals outer.now)
        (map plain_simple_entry wanted.now) (map desugared_object indices.now)) }
{
    let mut locals = outer.copy(alloc)?;
    let mut read = Items::new(alloc);
    let mut wanted = wanted;
    for index in indices {
        let next = next_part(wanted);
        match read_object(index, alloc, sig, next.place, &mut locals)? {
            Some(obj) => read.push(obj)?,
            None => return Ok(None),
        }
        wanted = next.later;
    }
    Ok(Some(read))
}
