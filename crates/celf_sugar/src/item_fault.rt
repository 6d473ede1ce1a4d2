//! The first fault of an item, for each kind of item.
ghost use Rattle.std.specs.Prelude.{◌≡◌, ◌++◌, List, ℕ};
ghost use Rattle.celf_surface.specs.Surface.{surface, object_tree, declare, query, trace, equal, check};
ghost use Rattle.celf_sugar.specs.Earliest.{earliest};
ghost use Rattle.celf_sugar.specs.Plain.{class_of};
ghost use Rattle.celf_sugar.specs.Sugar.{class as class_written};
ghost use Rattle.celf_sugar.specs.Faults.{start, first_of, redexes, type_redexes, outside as outside_of};

use crate::earliest::sooner;
use crate::fault::SugarFault;
use crate::first::{Found, first};
use crate::kind_place::kind_place;
use crate::leading::class_leading;
use crate::limits::{MOST_ATTEMPTS, MOST_STEPS};
use crate::not_async::not_async;
use crate::number::{implicit_outside, outside, too_many};
use crate::plain::PClass;
use crate::redex::{redex, type_redex};
use celf_surface::{Bound, SObj, SType, Span};

/// Of `name : [implicit] ty.`, where `class` is what the type or kind declares.
pub fn declaration_fault(implicit: Option<Bound>, ty: &SType, class: &PClass) -> Option<SugarFault>
    requires { class_of class.now ≡ class_written (surface ty.now) }
    ensures { (name : List ℕ) → result ≡ first_of (declare name implicit (surface ty.now)) }
{
    first(Found {
        kind_place: kind_place(ty, true),
        not_async: not_async(ty, false),
        redex: type_redex(ty),
        out_of_range: implicit_outside(implicit),
        bad_implicit: too_many(implicit, class_leading(class)),
    })
}

/// Of `#query d e l a ty.`
pub fn query_fault(d: Bound, e: Bound, l: Bound, a: Bound, ty: &SType) -> Option<SugarFault>
    ensures { result ≡ first_of (query d e l a (surface ty.now)) }
{
    first(Found {
        kind_place: kind_place(ty, false),
        not_async: not_async(ty, false),
        redex: type_redex(ty),
        out_of_range: query_range(d, e, l, a),
        bad_implicit: None,
    })
}

#[tactic(auto, using(crate::proofs::EarliestLaws::earliest_laws))]
fn query_range(d: Bound, e: Bound, l: Bound, a: Bound) -> Option<Span>
    ensures { result ≡ earliest start (outside_of 0 MOST_STEPS d ++ (outside_of 0 MOST_STEPS e
        ++ (outside_of 0 MOST_STEPS l ++ outside_of 1 MOST_ATTEMPTS a))) }
{
    let limits = sooner(outside(0, MOST_STEPS, l), outside(1, MOST_ATTEMPTS, a));
    sooner(
        outside(0, MOST_STEPS, d),
        sooner(outside(0, MOST_STEPS, e), limits),
    )
}

/// Of `#trace n ty.`
pub fn trace_fault(n: Bound, ty: &SType) -> Option<SugarFault>
    ensures { result ≡ first_of (trace n (surface ty.now)) }
{
    first(Found {
        kind_place: kind_place(ty, false),
        not_async: not_async(ty, true),
        redex: type_redex(ty),
        out_of_range: outside(0, MOST_STEPS, n),
        bad_implicit: None,
    })
}

/// Of `#equal left = right : ty.`
pub fn equal_fault(left: &SObj, right: &SObj, ty: &SType) -> Option<SugarFault>
    ensures { result ≡ first_of (equal (object_tree left.now) (object_tree right.now) (surface ty.now)) }
{
    first(Found {
        kind_place: kind_place(ty, false),
        not_async: not_async(ty, false),
        redex: equal_redex(left, right, ty),
        out_of_range: None,
        bad_implicit: None,
    })
}

fn equal_redex(left: &SObj, right: &SObj, ty: &SType) -> Option<Span>
    ensures { result ≡ earliest start (redexes (object_tree left.now)
        ++ (redexes (object_tree right.now) ++ type_redexes (surface ty.now))) }
{
    sooner(redex(left), sooner(redex(right), type_redex(ty)))
}

/// Of `#check obj : ty.`
pub fn check_fault(obj: &SObj, ty: &SType) -> Option<SugarFault>
    ensures { result ≡ first_of (check (object_tree obj.now) (surface ty.now)) }
{
    first(Found {
        kind_place: kind_place(ty, false),
        not_async: not_async(ty, false),
        redex: check_redex(obj, ty),
        out_of_range: None,
        bad_implicit: None,
    })
}

fn check_redex(obj: &SObj, ty: &SType) -> Option<Span>
    ensures { result ≡ earliest start (redexes (object_tree obj.now) ++ type_redexes (surface ty.now)) }
{
    sooner(redex(obj), type_redex(ty))
}
