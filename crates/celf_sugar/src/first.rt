//! The first of the faults of an item.
ghost use Rattle.std.specs.Prelude.{◌≡◌, Option, None, Some};
ghost use Rattle.celf_sugar.specs.Earliest.{sooner as sooner_of};
ghost use Rattle.celf_sugar.specs.Faults.{fault_start};
ghost use Rattle.celf_sugar.specs.Answers.{as_fault, first_found};

use crate::fault::SugarFault;
use celf_surface::Span;

/// The first place of each fault in an item.
#[derive(Clone, Copy)]
pub struct Found {
    pub kind_place: Option<Span>,
    pub not_async: Option<Span>,
    pub redex: Option<Span>,
    pub out_of_range: Option<Span>,
    pub bad_implicit: Option<Span>,
}

/// The fault that begins first; of those that begin at one byte, the first in the order of `SugarFault`.
pub fn first(found: Found) -> Option<SugarFault>
    ensures { result ≡ first_found found }
{
    let numbers = sooner_fault(
        out_of_range(found.out_of_range),
        bad_implicit(found.bad_implicit),
    );
    let parts = sooner_fault(redex(found.redex), numbers);
    let types = sooner_fault(not_async(found.not_async), parts);
    sooner_fault(kind_place(found.kind_place), types)
}

/// Of two faults the one that begins earlier, and the first where they begin at one byte.
fn sooner_fault(first: Option<SugarFault>, other: Option<SugarFault>) -> Option<SugarFault>
    ensures { result ≡ sooner_of fault_start first other }
{
    match (first, other) {
        (None, other) => other,
        (Some(first), None) => Some(first),
        (Some(first), Some(other)) => {
            if start(&other) < start(&first) {
                Some(other)
            } else {
                Some(first)
            }
        }
    }
}

/// The byte at which the part at fault begins.
fn start(fault: &SugarFault) -> u32
    ensures { result ≡ fault_start fault.now }
{
    match fault {
        SugarFault::KindPlace(span)
        | SugarFault::NotAsync(span)
        | SugarFault::Redex(span)
        | SugarFault::OutOfRange(span)
        | SugarFault::BadImplicit(span) => span.start,
        SugarFault::NoMemory => 0,
    }
}

fn kind_place(place: Option<Span>) -> Option<SugarFault>
    ensures { result ≡ as_fault SugarFault.KindPlace place }
{
    match place {
        None => None,
        Some(span) => Some(SugarFault::KindPlace(span)),
    }
}

fn not_async(place: Option<Span>) -> Option<SugarFault>
    ensures { result ≡ as_fault SugarFault.NotAsync place }
{
    match place {
        None => None,
        Some(span) => Some(SugarFault::NotAsync(span)),
    }
}

fn redex(place: Option<Span>) -> Option<SugarFault>
    ensures { result ≡ as_fault SugarFault.Redex place }
{
    match place {
        None => None,
        Some(span) => Some(SugarFault::Redex(span)),
    }
}

fn out_of_range(place: Option<Span>) -> Option<SugarFault>
    ensures { result ≡ as_fault SugarFault.OutOfRange place }
{
    match place {
        None => None,
        Some(span) => Some(SugarFault::OutOfRange(span)),
    }
}

fn bad_implicit(place: Option<Span>) -> Option<SugarFault>
    ensures { result ≡ as_fault SugarFault.BadImplicit place }
{
    match place {
        None => None,
        Some(span) => Some(SugarFault::BadImplicit(span)),
    }
}
