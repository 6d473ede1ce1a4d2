//! The making of types, each with the bytes that it covers.
ghost use Rattle.std.specs.Prelude.{◌≡◌, IfOk, map};
ghost use Rattle.celf_surface.specs.Surface.{surface, pi as pi_tree, exists as exists_tree, arrow as arrow_tree, tensor as tensor_tree, marked as marked_tree, both as both_tree, braced as braced_tree, family as family_tree, type_word as word_tree, top as top_tree, one as one_tree, object_tree};

use celf_surface::{Arrow, SObj, SType, STypeForm, Span};
use clf_syntax::{Mode, Name};
use sqlite_items::{Boxed, Items};
use std::alloc::{AllocError, Global};

/// `Pi name: dom. rest`.
#[tactic(auto, using(celf_surface::specs::Surface::surface_laws))]
pub fn pi(
    alloc: Global,
    span: Span,
    name: Name,
    dom: Boxed<SType>,
    rest: Boxed<SType>,
) -> Result<Boxed<SType>, AllocError>
    ensures { IfOk result (λ t. surface t ≡ pi_tree span name (surface dom) (surface rest)) }
{
    Boxed::new(
        alloc,
        SType {
            span,
            form: STypeForm::Pi { name, dom, rest },
        },
    )
}

/// `Exists name: dom. rest`.
#[tactic(auto, using(celf_surface::specs::Surface::surface_laws))]
pub fn exists(
    alloc: Global,
    span: Span,
    name: Name,
    dom: Boxed<SType>,
    rest: Boxed<SType>,
) -> Result<Boxed<SType>, AllocError>
    ensures { IfOk result (λ t. surface t ≡ exists_tree span name (surface dom) (surface rest)) }
{
    Boxed::new(
        alloc,
        SType {
            span,
            form: STypeForm::Exists { name, dom, rest },
        },
    )
}

/// Two types with an arrow between them.
#[tactic(auto, using(celf_surface::specs::Surface::surface_laws))]
pub fn arrow(
    alloc: Global,
    span: Span,
    arrow: Arrow,
    left: Boxed<SType>,
    right: Boxed<SType>,
) -> Result<Boxed<SType>, AllocError>
    ensures { IfOk result (λ t. surface t ≡ arrow_tree span arrow (surface left) (surface right)) }
{
    Boxed::new(
        alloc,
        SType {
            span,
            form: STypeForm::Arrow { arrow, left, right },
        },
    )
}

/// `left * right`.
#[tactic(auto, using(celf_surface::specs::Surface::surface_laws))]
pub fn tensor(
    alloc: Global,
    span: Span,
    left: Boxed<SType>,
    right: Boxed<SType>,
) -> Result<Boxed<SType>, AllocError>
    ensures { IfOk result (λ t. surface t ≡ tensor_tree span (surface left) (surface right)) }
{
    Boxed::new(
        alloc,
        SType {
            span,
            form: STypeForm::Tensor { left, right },
        },
    )
}

/// `!body` or `@body`.
#[tactic(auto, using(celf_surface::specs::Surface::surface_laws))]
pub fn marked(
    alloc: Global,
    span: Span,
    mode: Mode,
    body: Boxed<SType>,
) -> Result<Boxed<SType>, AllocError>
    ensures { IfOk result (λ t. surface t ≡ marked_tree span mode (surface body)) }
{
    Boxed::new(
        alloc,
        SType {
            span,
            form: STypeForm::Marked { mode, body },
        },
    )
}

/// `left & right`.
#[tactic(auto, using(celf_surface::specs::Surface::surface_laws))]
pub fn both(
    alloc: Global,
    span: Span,
    left: Boxed<SType>,
    right: Boxed<SType>,
) -> Result<Boxed<SType>, AllocError>
    ensures { IfOk result (λ t. surface t ≡ both_tree span (surface left) (surface right)) }
{
    Boxed::new(
        alloc,
        SType {
            span,
            form: STypeForm::With { left, right },
        },
    )
}

/// `{body}`.
#[tactic(auto, using(celf_surface::specs::Surface::surface_laws))]
pub fn braced(alloc: Global, span: Span, body: Boxed<SType>) -> Result<Boxed<SType>, AllocError>
    ensures { IfOk result (λ t. surface t ≡ braced_tree span (surface body)) }
{
    Boxed::new(
        alloc,
        SType {
            span,
            form: STypeForm::Braces { body },
        },
    )
}

/// A family with its indices; `at` covers its name.
#[tactic(auto, using(celf_surface::specs::Surface::surface_laws))]
pub fn family(
    alloc: Global,
    span: Span,
    name: Name,
    dollar: bool,
    at: Span,
    indices: Items<SObj>,
) -> Result<Boxed<SType>, AllocError>
    ensures { IfOk result (λ t. surface t ≡ family_tree span name dollar at (map object_tree indices)) }
{
    Boxed::new(
        alloc,
        SType {
            span,
            form: STypeForm::Family {
                name,
                dollar,
                at,
                indices,
            },
        },
    )
}

/// The word `type`.
#[tactic(auto, using(celf_surface::specs::Surface::surface_laws))]
pub fn type_word(alloc: Global, span: Span) -> Result<Boxed<SType>, AllocError>
    ensures { IfOk result (λ t. surface t ≡ word_tree span) }
{
    Boxed::new(
        alloc,
        SType {
            span,
            form: STypeForm::TypeWord,
        },
    )
}

/// `<T>`.
#[tactic(auto, using(celf_surface::specs::Surface::surface_laws))]
pub fn top(alloc: Global, span: Span) -> Result<Boxed<SType>, AllocError>
    ensures { IfOk result (λ t. surface t ≡ top_tree span) }
{
    Boxed::new(
        alloc,
        SType {
            span,
            form: STypeForm::Top,
        },
    )
}

/// `1`.
#[tactic(auto, using(celf_surface::specs::Surface::surface_laws))]
pub fn one(alloc: Global, span: Span) -> Result<Boxed<SType>, AllocError>
    ensures { IfOk result (λ t. surface t ≡ one_tree span) }
{
    Boxed::new(
        alloc,
        SType {
            span,
            form: STypeForm::One,
        },
    )
}
