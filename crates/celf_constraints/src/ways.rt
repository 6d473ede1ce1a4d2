//! The places of a metavariable from which the way, from place to place of the same local, comes to an end.
ghost use Rattle.std.specs.Prelude.{◌≡◌, ◌↔◌, ◌<◌, ℕ, true, false, IfOk, IsTrue, MatchOption, Some, length, map};
ghost use Rattle.pattern_laws.specs.Patterns.{Ends, mask_at};
ghost use Rattle.celf_constraints.specs.Ended.{StandsAt, LeadsOn, IsOpen, EndsIn};
ghost use Rattle.celf_constraints.specs.Reading.{plain_places};

use crate::locals::{is_local, locals_of, stands_before};
use crate::places::Places;
use std::alloc::{AllocError, Global};

/// Of two lists of places, for each place of the first whether the way from it comes to an end. It fails only where
/// memory runs out.
pub fn ends(
    alloc: Global,
    places: &Places<'_>,
    others: &Places<'_>,
) -> Result<Vec<bool>, AllocError>
    ensures lengths { IfOk result (λ held. length held.items ≡ length places.now.places.items) }
    ensures ends { IfOk result (λ held. (j : ℕ)
        → (mask_at held.items j ≡ true) ↔ Ends (plain_places places.now) (plain_places others.now) j) }
{
    let from = locals_of(alloc, places.places.as_slice())?;
    let to = locals_of(alloc, others.places.as_slice())?;
    grow(alloc, from.as_slice(), to.as_slice())
}

/// The set of places grows until nothing is added.
fn grow(alloc: Global, from: &[Option<u32>], to: &[Option<u32>]) -> Result<Vec<bool>, AllocError>
    ensures lengths { IfOk result (λ held. length held.items ≡ length from.now) }
    ensures ends { IfOk result (λ held. (j : ℕ) → (mask_at held.items j ≡ true) ↔ EndsIn from.now to.now j) }
{
    let mut held = none_held(alloc, from)?;
    while let Some(place) = next_end(from, to, held.as_slice()) {
        held[place] = true;
    }
    Ok(held)
}

/// No place is held.
fn none_held(alloc: Global, from: &[Option<u32>]) -> Result<Vec<bool>, AllocError>
    ensures { IfOk result (λ held. held.items ≡ map (λ x. false) from.now) }
{
    let mut held = Vec::new(alloc);
    for _place in from {
        held.push(false)?;
    }
    Ok(held)
}

/// A place that is not held yet, and has to be.
fn next_end(from: &[Option<u32>], to: &[Option<u32>], held: &[bool]) -> Option<usize>
    ensures { MatchOption result ((j : ℕ) → IsOpen from.now to.now held.now j → ⊥)
        (λ j. IsOpen from.now to.now held.now j) }
{
    for place in 0..from.len() {
        if is_open(place, from, to, held) {
            return Some(place);
        }
    }
    None
}

fn is_open(place: usize, from: &[Option<u32>], to: &[Option<u32>], held: &[bool]) -> bool
    requires { place < length from.now }
    ensures { IsTrue result ↔ IsOpen from.now to.now held.now place }
{
    if is_held(held, place) {
        return false;
    }
    is_ended(from[place], to, held)
}

fn is_ended(local: Option<u32>, to: &[Option<u32>], held: &[bool]) -> bool
    ensures { IsTrue result ↔ ((v : ℕ) × (local ≡ Some v) × LeadsOn to.now held.now v) }
{
    match local {
        None => false,
        Some(number) => leads_on(number, to, held),
    }
}

/// Whether the way from a local comes to an end at once, or leads to a place that is held.
fn leads_on(local: u32, to: &[Option<u32>], held: &[bool]) -> bool
    ensures { IsTrue result ↔ LeadsOn to.now held.now local }
{
    if !stands_before(to, to.len(), local) {
        return true;
    }
    stands_held(local, to, held)
}

/// Whether the local stands at a place that is held.
fn stands_held(local: u32, to: &[Option<u32>], held: &[bool]) -> bool
    ensures { IsTrue result ↔ ((i : ℕ) × StandsAt to.now i local × (mask_at held.now i ≡ true)) }
{
    for place in 0..to.len() {
        if is_local(to[place], local) && is_held(held, place) {
            return true;
        }
    }
    false
}

fn is_held(held: &[bool], place: usize) -> bool
    ensures { result ≡ mask_at held.now place }
{
    if place < held.len() {
        held[place]
    } else {
        false
    }
}
