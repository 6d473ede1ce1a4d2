//! Plain types, kinds and telescopes.
ghost use Rattle.std.specs.Prelude.{◌≡◌, ◌∷◌, ◌++◌, [], IfOk, map, Some, None};
ghost use Rattle.clf_syntax.specs.declared.tree.Mode.TheVariants.{Persistent};
ghost use Rattle.celf_surface.specs.Surface.{surface, object_tree};
ghost use Rattle.celf_sugar.specs.Plain.{desugared_type, desugared_entry, desugared_object, class_of};
ghost use Rattle.celf_sugar.specs.Sugar.{reading, functions as functions_of, is_kind as is_kind_of, kind_arguments as kind_arguments_of, class as class_of_type, object as object_of, unbraced as unbraced_of};
ghost use Rattle.celf_sugar.specs.PlainTree.{function, both, family, monad, top, telescope_of};

use crate::object::object;
use crate::plain::{PClass, PEntry, PName, PObj, PTele, PTy, PTyForm};
use celf_surface::{Arrow, SObj, SType, STypeForm, Span};
use clf_syntax::{Mode, Name};
use sqlite_items::{Boxed, Items};
use std::alloc::{AllocError, Global};

/// The plain type of a type. It fails only where memory runs out.
#[cycle(types)]
#[tactic(auto, using(crate::specs::SugarLists::written_type_laws))]
pub fn plain_type_of(alloc: Global, ty: &SType) -> Result<PTy, AllocError>
    ensures { IfOk result (λ t. desugared_type t ≡ (reading (surface ty.now)).as_type) }
{
    match &ty.form {
        STypeForm::Pi { name, dom, rest } => {
            let dom = boxed_type(alloc, dom.get())?;
            pi_type(alloc, rest.get(), ty.span, name, dom)
        }
        STypeForm::Arrow { arrow, left, right } => match arrow {
            Arrow::To => {
                let dom = boxed_type(alloc, left.get())?;
                arrow_type(alloc, right.get(), ty.span, Mode::Persistent, dom)
            }
            Arrow::Back => {
                let dom = boxed_type(alloc, right.get())?;
                arrow_type(alloc, left.get(), ty.span, Mode::Persistent, dom)
            }
            Arrow::Affine => {
                let dom = boxed_type(alloc, left.get())?;
                arrow_type(alloc, right.get(), ty.span, Mode::Affine, dom)
            }
            Arrow::Lolli => {
                let doms = entries(alloc, left.get())?;
                lolli_type(alloc, right.get(), ty.span, doms)
            }
            Arrow::BackLolli => {
                let doms = entries(alloc, right.get())?;
                lolli_type(alloc, left.get(), ty.span, doms)
            }
        },
        STypeForm::With { left, right } => {
            let left = boxed_type(alloc, left.get())?;
            with_type(alloc, right.get(), ty.span, left)
        }
        STypeForm::Family {
            name,
            dollar,
            at,
            indices,
        } => family_type(alloc, ty.span, name, *dollar, *at, indices.as_slice()),
        STypeForm::Braces { body } => {
            let entries = entries(alloc, body.get())?;
            Ok(monad_type(ty.span, entries))
        }
        // The other forms but `<T>` are at fault here, and what is answered is not used.
        STypeForm::Top
        | STypeForm::TypeWord
        | STypeForm::Exists { .. }
        | STypeForm::Tensor { .. }
        | STypeForm::Marked { .. }
        | STypeForm::One => Ok(top_type(ty.span)),
    }
}

/// The plain type of a type, in a box.
#[cycle(types)]
fn boxed_type(alloc: Global, ty: &SType) -> Result<Boxed<PTy>, AllocError>
    ensures { IfOk result (λ t. desugared_type t ≡ (reading (surface ty.now)).as_type) }
{
    Boxed::new(alloc, plain_type_of(alloc, ty)?)
}

/// The function that binds a name, given its domain.
#[cycle(types)]
fn pi_type(
    alloc: Global,
    cod: &SType,
    span: Span,
    name: &Name,
    dom: Boxed<PTy>,
) -> Result<PTy, AllocError>
    ensures { IfOk result (λ t. desugared_type t
        ≡ function span Persistent (Some name.now) (desugared_type dom) (reading (surface cod.now)).as_type) }
{
    let cod = boxed_type(alloc, cod)?;
    let name = name.copy(alloc)?;
    Ok(function_type(span, Mode::Persistent, Some(name), dom, cod))
}

/// The function that binds no name, given its domain.
#[cycle(types)]
fn arrow_type(
    alloc: Global,
    cod: &SType,
    span: Span,
    mode: Mode,
    dom: Boxed<PTy>,
) -> Result<PTy, AllocError>
    ensures { IfOk result (λ t. desugared_type t
        ≡ function span mode None (desugared_type dom) (reading (surface cod.now)).as_type) }
{
    let cod = boxed_type(alloc, cod)?;
    Ok(function_type(span, mode, None, dom, cod))
}

/// One function for each entry of a domain, in order, and then a type.
#[cycle(types)]
fn lolli_type(
    alloc: Global,
    cod: &SType,
    span: Span,
    doms: Items<PEntry>,
) -> Result<PTy, AllocError>
    ensures { IfOk result (λ t. desugared_type t
        ≡ functions_of span (map desugared_entry doms) (reading (surface cod.now)).as_type) }
{
    let cod = boxed_type(alloc, cod)?;
    functions(alloc, span, doms, cod)
}

/// A type, given the left one of the two that it is both of.
#[cycle(types)]
fn with_type(alloc: Global, right: &SType, span: Span, left: Boxed<PTy>) -> Result<PTy, AllocError>
    ensures { IfOk result (λ t. desugared_type t
        ≡ both span (desugared_type left) (reading (surface right.now)).as_type) }
{
    let right = boxed_type(alloc, right)?;
    Ok(both_type(span, left, right))
}

/// The entries of the telescope of a type: those of a synchronous type, or one linear entry.
#[cycle(types)]
#[tactic(auto, using(crate::specs::SugarLists::written_type_laws))]
pub fn entries(alloc: Global, ty: &SType) -> Result<Items<PEntry>, AllocError>
    ensures { IfOk result (λ es. map desugared_entry es ≡ (reading (surface ty.now)).as_entries) }
{
    match &ty.form {
        STypeForm::Exists { name, dom, rest } => {
            let name = name.copy(alloc)?;
            let dom = plain_type_of(alloc, dom.get())?;
            entries_behind(alloc, rest.get(), name, dom)
        }
        STypeForm::Tensor { left, right } => {
            let first = entries(alloc, left.get())?;
            entries_of_factors(alloc, right.get(), first)
        }
        STypeForm::Marked { mode, body } => {
            let ty = plain_type_of(alloc, body.get())?;
            one_entry(alloc, *mode, None, ty)
        }
        STypeForm::One => Ok(Items::new(alloc)),
        STypeForm::Pi { .. }
        | STypeForm::Arrow { .. }
        | STypeForm::With { .. }
        | STypeForm::TypeWord
        | STypeForm::Family { .. }
        | STypeForm::Top
        | STypeForm::Braces { .. } => {
            let ty = plain_type_of(alloc, ty)?;
            one_entry(alloc, Mode::Linear, None, ty)
        }
    }
}

/// The entries of a telescope after one that binds a name, and that one first.
#[cycle(types)]
fn entries_behind(
    alloc: Global,
    rest: &SType,
    name: Name,
    dom: PTy,
) -> Result<Items<PEntry>, AllocError>
    ensures { IfOk result (λ es. map desugared_entry es
        ≡ (Persistent, Some name, desugared_type dom) ∷ (reading (surface rest.now)).as_entries) }
{
    let bound = bound_entry(alloc, name, dom)?;
    joined(bound, entries(alloc, rest)?)
}

/// The entries of the later factors of a product, which may be many, after those of the first.
#[cycle(types)]
#[tactic(auto, using(crate::specs::SugarLists::written_type_laws))]
fn entries_of_factors(
    alloc: Global,
    factors: &SType,
    first: Items<PEntry>,
) -> Result<Items<PEntry>, AllocError>
    ensures { IfOk result (λ es. map desugared_entry es
        ≡ map desugared_entry first ++ (reading (surface factors.now)).as_entries) }
{
    let mut found = first;
    let mut rest = factors;
    while let STypeForm::Tensor { left, right } = &rest.form {
        found = joined(found, entries(alloc, left.get())?)?;
        rest = right.get();
    }
    joined(found, entries(alloc, rest)?)
}

/// Some entries, and more after them.
fn joined(entries: Items<PEntry>, more: Items<PEntry>) -> Result<Items<PEntry>, AllocError>
    ensures { IfOk result (λ es. map desugared_entry es ≡ map desugared_entry entries ++ map desugared_entry more) }
{
    let mut entries = entries;
    entries.append(more)?;
    Ok(entries)
}

/// One persistent entry alone, which binds a name.
fn bound_entry(alloc: Global, name: Name, ty: PTy) -> Result<Items<PEntry>, AllocError>
    ensures { IfOk result (λ es. map desugared_entry es ≡ (Persistent, Some name, desugared_type ty) ∷ []) }
{
    one_entry(alloc, Mode::Persistent, Some(name), ty)
}

/// One entry alone.
#[tactic(auto, using(crate::specs::Plain::entry_laws))]
fn one_entry(
    alloc: Global,
    mode: Mode,
    name: Option<Name>,
    ty: PTy,
) -> Result<Items<PEntry>, AllocError>
    ensures { IfOk result (λ es. map desugared_entry es ≡ (mode, name, desugared_type ty) ∷ []) }
{
    let mut entries = Items::new(alloc);
    entries.push(PEntry { mode, name, ty })?;
    Ok(entries)
}

fn function_type(
    span: Span,
    mode: Mode,
    name: Option<Name>,
    dom: Boxed<PTy>,
    cod: Boxed<PTy>,
) -> PTy
    ensures { desugared_type result ≡ function span mode name (desugared_type dom) (desugared_type cod) }
{
    PTy {
        span,
        form: PTyForm::Fun {
            mode,
            name,
            dom,
            cod,
        },
    }
}

fn both_type(span: Span, left: Boxed<PTy>, right: Boxed<PTy>) -> PTy
    ensures { desugared_type result ≡ both span (desugared_type left) (desugared_type right) }
{
    PTy {
        span,
        form: PTyForm::With { left, right },
    }
}

fn family_type(
    alloc: Global,
    span: Span,
    name: &Name,
    dollar: bool,
    at: Span,
    indices: &[SObj],
) -> Result<PTy, AllocError>
    ensures { IfOk result (λ t.
        desugared_type t
        ≡ family span (record { name = name.now; dollar = dollar; span = at })
        (map object_of (map object_tree indices.now))) }
{
    let head = PName {
        name: name.copy(alloc)?,
        dollar,
        span: at,
    };
    let indices = plain_objects(alloc, indices)?;
    Ok(PTy {
        span,
        form: PTyForm::Family { head, indices },
    })
}

fn monad_type(span: Span, entries: Items<PEntry>) -> PTy
    ensures { desugared_type result ≡ monad span (telescope_of (map desugared_entry entries)) }
{
    let tele = PTele { entries };
    PTy {
        span,
        form: PTyForm::Monad { tele },
    }
}

fn top_type(span: Span) -> PTy
    ensures { desugared_type result ≡ top span }
{
    PTy {
        span,
        form: PTyForm::Top,
    }
}

/// One function for each entry, in order, and then a type.
fn functions(
    alloc: Global,
    span: Span,
    doms: Items<PEntry>,
    cod: Boxed<PTy>,
) -> Result<PTy, AllocError>
    ensures { IfOk result (λ t. desugared_type t ≡ functions_of span (map desugared_entry doms) (desugared_type cod)) }
{
    let mut doms = doms;
    let mut cod = cod;
    while let Some(entry) = doms.pop() {
        cod = function_of_entry(alloc, span, entry, cod)?;
    }
    Ok(cod.into_inner())
}

#[tactic(auto, using(crate::specs::Plain::entry_laws))]
fn function_of_entry(
    alloc: Global,
    span: Span,
    entry: PEntry,
    cod: Boxed<PTy>,
) -> Result<Boxed<PTy>, AllocError>
    ensures { IfOk result (λ t. desugared_type t ≡ function span
        (desugared_entry entry).0 (desugared_entry entry).1 (desugared_entry entry).2 (desugared_type cod)) }
{
    let PEntry { mode, name, ty } = entry;
    let dom = Boxed::new(alloc, ty)?;
    Boxed::new(alloc, function_type(span, mode, name, dom, cod))
}

fn plain_objects(alloc: Global, objs: &[SObj]) -> Result<Items<PObj>, AllocError>
    ensures { IfOk result (λ os. map desugared_object os ≡ map object_of (map object_tree objs.now)) }
{
    let mut plain = Items::new(alloc);
    for obj in objs {
        plain.push(object(alloc, obj)?)?;
    }
    Ok(plain)
}

/// What a declaration with this type or kind declares. It fails only where memory runs out.
#[tactic(auto, using(crate::specs::Plain::telescope_laws))]
pub fn class(alloc: Global, ty: &SType) -> Result<PClass, AllocError>
    ensures { IfOk result (λ c. class_of c ≡ class_of_type (surface ty.now)) }
{
    if is_kind(ty) {
        let entries = kind_arguments(alloc, ty)?;
        Ok(PClass::Family(PTele { entries }))
    } else {
        Ok(PClass::Constant(plain_type_of(alloc, ty)?))
    }
}

/// Whether the word `type` stands at the end, after `Pi`, `->` and `<-` alone.
#[tactic(auto, using(crate::specs::SugarLists::written_type_laws))]
fn is_kind(ty: &SType) -> bool
    ensures { result ≡ is_kind_of (surface ty.now) }
{
    match &ty.form {
        STypeForm::Pi {
            name: _,
            dom: _,
            rest,
        } => is_kind(rest.get()),
        STypeForm::Arrow { arrow, left, right } => match arrow {
            Arrow::To => is_kind(right.get()),
            Arrow::Back => is_kind(left.get()),
            Arrow::Lolli | Arrow::BackLolli | Arrow::Affine => false,
        },
        STypeForm::TypeWord => true,
        STypeForm::Exists { .. }
        | STypeForm::Tensor { .. }
        | STypeForm::Marked { .. }
        | STypeForm::With { .. }
        | STypeForm::Family { .. }
        | STypeForm::Top
        | STypeForm::One
        | STypeForm::Braces { .. } => false,
    }
}

/// The arguments of a kind.
#[cycle(kind_arguments)]
#[tactic(auto, using(crate::specs::SugarLists::written_type_laws))]
fn kind_arguments(alloc: Global, ty: &SType) -> Result<Items<PEntry>, AllocError>
    ensures { IfOk result (λ es. map desugared_entry es ≡ kind_arguments_of (surface ty.now)) }
{
    match &ty.form {
        STypeForm::Pi { name, dom, rest } => {
            let name = name.copy(alloc)?;
            arguments_behind(alloc, rest.get(), Some(name), dom.get())
        }
        STypeForm::Arrow { arrow, left, right } => match arrow {
            Arrow::To => arguments_behind(alloc, right.get(), None, left.get()),
            Arrow::Back => arguments_behind(alloc, left.get(), None, right.get()),
            Arrow::Lolli | Arrow::BackLolli | Arrow::Affine => Ok(Items::new(alloc)),
        },
        STypeForm::Exists { .. }
        | STypeForm::Tensor { .. }
        | STypeForm::Marked { .. }
        | STypeForm::With { .. }
        | STypeForm::TypeWord
        | STypeForm::Family { .. }
        | STypeForm::Top
        | STypeForm::One
        | STypeForm::Braces { .. } => Ok(Items::new(alloc)),
    }
}

/// The arguments of a kind after one, and that one first.
#[cycle(kind_arguments)]
fn arguments_behind(
    alloc: Global,
    rest: &SType,
    name: Option<Name>,
    dom: &SType,
) -> Result<Items<PEntry>, AllocError>
    ensures { IfOk result (λ es. map desugared_entry es
        ≡ (Persistent, name, (reading (surface dom.now)).as_type) ∷ kind_arguments_of (surface rest.now)) }
{
    let dom = plain_type_of(alloc, dom)?;
    let argument = one_entry(alloc, Mode::Persistent, name, dom)?;
    joined(argument, kind_arguments(alloc, rest)?)
}

/// The type without the braces around the whole, again and again.
#[tactic(auto, using(crate::specs::SugarLists::written_type_laws))]
pub fn unbraced(ty: &SType) -> &SType
    ensures { surface result.now ≡ unbraced_of (surface ty.now) }
{
    match &ty.form {
        STypeForm::Braces { body } => unbraced(body.get()),
        STypeForm::Pi { .. }
        | STypeForm::Exists { .. }
        | STypeForm::Arrow { .. }
        | STypeForm::Tensor { .. }
        | STypeForm::Marked { .. }
        | STypeForm::With { .. }
        | STypeForm::TypeWord
        | STypeForm::Family { .. }
        | STypeForm::Top
        | STypeForm::One => ty,
    }
}
