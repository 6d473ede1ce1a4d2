//! Whether simple types are the same.
ghost use Rattle.std.specs.Prelude.{◌≡◌, map};
ghost use Rattle.clf_syntax.specs.PlainSimple.{plain_simple, plain_simple_entry, simple_telescope_of};
ghost use Rattle.clf_simple.specs.Decision as spec;

use clf_syntax::{Simple, SimpleEntry, is_same_mode};

/// Whether two simple types are the same.
#[cycle(same)]
#[tactic(auto, using(clf_syntax::specs::PlainSimple::plain_simple_laws))]
pub fn same_type(ty: &Simple, other: &Simple) -> bool
    ensures { result ≡ spec.same_type (plain_simple ty.now) (plain_simple other.now) }
{
    match ty {
        Simple::Atom(family) => match other {
            Simple::Atom(second) => *family == *second,
            Simple::Fun { .. } | Simple::With { .. } | Simple::Top | Simple::Monad { .. } => false,
        },
        Simple::Fun { mode, dom, cod } => match other {
            Simple::Fun {
                mode: second,
                dom: from,
                cod: to,
            } => {
                is_same_mode(*mode, *second)
                    && same_type(dom.get(), from.get())
                    && same_type(cod.get(), to.get())
            }
            Simple::Atom(_) | Simple::With { .. } | Simple::Top | Simple::Monad { .. } => false,
        },
        Simple::With { left, right } => match other {
            Simple::With {
                left: first,
                right: second,
            } => same_type(left.get(), first.get()) && same_type(right.get(), second.get()),
            Simple::Atom(_) | Simple::Fun { .. } | Simple::Top | Simple::Monad { .. } => false,
        },
        Simple::Top => match other {
            Simple::Top => true,
            Simple::Atom(_) | Simple::Fun { .. } | Simple::With { .. } | Simple::Monad { .. } => {
                false
            }
        },
        Simple::Monad { entries } => match other {
            Simple::Monad { entries: second } => {
                same_entries(entries.as_slice(), second.as_slice())
            }
            Simple::Atom(_) | Simple::Fun { .. } | Simple::With { .. } | Simple::Top => false,
        },
    }
}

#[cycle(same)]
#[tactic(auto, using(clf_simple::proofs::Lists::from_place))]
fn same_entries(entries: &[SimpleEntry], others: &[SimpleEntry]) -> bool
    ensures { result
        ≡ spec.same_telescope (simple_telescope_of (map plain_simple_entry entries.now))
        (simple_telescope_of (map plain_simple_entry others.now)) }
{
    if entries.len() != others.len() {
        return false;
    }
    for place in 0..entries.len() {
        if !same_entry(&entries[place], &others[place]) {
            return false;
        }
    }
    true
}

#[cycle(same)]
#[tactic(auto, using(clf_syntax::specs::PlainSimple::plain_simple_laws))]
fn same_entry(entry: &SimpleEntry, other: &SimpleEntry) -> bool
    ensures { result ≡ spec.same_entry (plain_simple_entry entry.now) (plain_simple_entry other.now) }
{
    is_same_mode(entry.mode, other.mode) && same_type(&entry.ty, &other.ty)
}
