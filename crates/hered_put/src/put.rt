//! The calls of substitution: an object for a variable, and a tuple for the variables of a step.
ghost use Rattle.std.specs.Prelude.{◌≡◌, ◌+◌, Err, IfOk, length, map};
ghost use Rattle.clf_syntax.specs.Tree.{done, tuple_of};
ghost use Rattle.clf_syntax.specs.TypeTree.{SimpleType, SimpleTelescope, telescope_of};
ghost use Rattle.clf_syntax.specs.Plain.{plain_obj, plain_expr, plain_entry};
ghost use Rattle.clf_syntax.specs.PlainTypes.{plain_ty, plain_tele_entry};
ghost use Rattle.clf_syntax.specs.PlainSimple.{plain_simple, plain_simple_entry, simple_telescope_of};
ghost use Rattle.clf_syntax.specs.Simple.{Assignment, Families, extended_by, SimplyTyped, SimplyTypedExpression, SimplyFormed, SimplyFormedTelescope, SimplyFormedKind};
ghost use Rattle.hered_subst.specs.Substitution.{single, Substituted, SubstitutedExpression, SubstitutedType, SubstitutedTelescope, SubstitutedKind, Flattened};
ghost use Rattle.hered_subst.specs.Laws.{inserted};
ghost use Rattle.hered_subst.proofs.SimpleTyping.{rank, ranks};
ghost use Rattle.hered_put.specs.Function.{nested, run, run_expression, run_type, run_telescope, run_kind, flattened};
ghost use Rattle.hered_put.specs.Passes.{Passes, PassesExpression, PassesType, PassesTelescope, PassesKind, PassesFlattened};
ghost use Rattle.hered_put.specs.Answers.{Answers, Keeps, PassesOnly};

use crate::bound::{Bound, entries_rank, type_rank};
use crate::environment::Environment;
use crate::fault::PutFault;
use crate::object::{flatten, put_expression, put_object};
use crate::types::{put_kind_args, put_tele_entries, put_type};
use clf_syntax::{Expr, Obj, Simple, SimpleEntry, TeleEntry, TupleEntry, Ty, deeper};
use sqlite_items::Items;
use std::alloc::Global;

/// The object `into` with an object of a simple type put for a variable, where the variables above it fall by one.
///
/// `Untyped` comes only where no assignment of simple types types both objects, and `TooFar` only where a number passes
/// 4,294,967,295.
pub fn put_obj(
    alloc: Global,
    simple: &Simple,
    obj: &Obj,
    var: u32,
    into: &Obj,
) -> Result<Obj, PutFault>
    ensures function { Answers plain_obj
        (run (nested (rank (plain_simple simple.now))) (single (plain_obj obj.now) var) (plain_obj into.now))
        result }
    ensures substituted { IfOk result
        (λ x. Substituted (single (plain_obj obj.now) var) (plain_obj into.now) (plain_obj x)) }
    ensures passes { PassesOnly result (Passes (single (plain_obj obj.now) var) (plain_obj into.now)) }

    // Where an assignment types both sides, it types the result.
    ensures typed { (z : Assignment) → SimplyTyped z (plain_obj obj.now) (plain_simple simple.now) →
        (t : SimpleType) → SimplyTyped (inserted var (plain_simple simple.now) z) (plain_obj into.now) t →
        Keeps result (λ x. SimplyTyped z (plain_obj x) t) }
{
    let bound = Bound::of_rank(type_rank(simple)?);
    put_object(alloc, into, &Environment::object(obj, var), bound)
}

/// The expression `into` with an object of a simple type put for a variable. Faults are as for `put_obj`.
pub fn put_expr(
    alloc: Global,
    simple: &Simple,
    obj: &Obj,
    var: u32,
    into: &Expr,
) -> Result<Expr, PutFault>
    ensures function { Answers plain_expr (run_expression (nested (rank (plain_simple simple.now)))
        (single (plain_obj obj.now) var) (plain_expr into.now)) result }
    ensures substituted { IfOk result
        (λ x. SubstitutedExpression (single (plain_obj obj.now) var) (plain_expr into.now) (plain_expr x)) }
    ensures passes { PassesOnly result (PassesExpression (single (plain_obj obj.now) var) (plain_expr into.now)) }

    // Where an assignment types both sides, it types the result.
    ensures typed { (z : Assignment) → SimplyTyped z (plain_obj obj.now) (plain_simple simple.now) →
        (ts : SimpleTelescope) →
        SimplyTypedExpression (inserted var (plain_simple simple.now) z) (plain_expr into.now) ts →
        Keeps result (λ x. SimplyTypedExpression z (plain_expr x) ts) }
{
    let bound = Bound::of_rank(type_rank(simple)?);
    put_expression(alloc, into, &Environment::object(obj, var), bound)
}

/// The type `into` with an object of a simple type put for a variable. Faults are as for `put_obj`, where a typed type
/// is one that is simply formed.
pub fn put_ty(
    alloc: Global,
    simple: &Simple,
    obj: &Obj,
    var: u32,
    into: &Ty,
) -> Result<Ty, PutFault>
    ensures function { Answers plain_ty
        (run_type (nested (rank (plain_simple simple.now))) (single (plain_obj obj.now) var) (plain_ty into.now))
        result }
    ensures substituted { IfOk result
        (λ x. SubstitutedType (single (plain_obj obj.now) var) (plain_ty into.now) (plain_ty x)) }
    ensures passes { PassesOnly result (PassesType (single (plain_obj obj.now) var) (plain_ty into.now)) }

    // Where an assignment types the object, and the type is simply formed, so is the result.
    ensures formed { (arguments : Families) (z : Assignment) →
        SimplyTyped z (plain_obj obj.now) (plain_simple simple.now) →
        SimplyFormed arguments (inserted var (plain_simple simple.now) z) (plain_ty into.now) →
        Keeps result (λ x. SimplyFormed arguments z (plain_ty x)) }
{
    let bound = Bound::of_rank(type_rank(simple)?);
    put_type(alloc, into, &Environment::object(obj, var), bound)
}

/// The rest of a telescope with an object of a simple type put for a variable. Faults are as for `put_ty`.
pub fn put_entries(
    alloc: Global,
    simple: &Simple,
    obj: &Obj,
    var: u32,
    entries: &[TeleEntry],
) -> Result<Items<TeleEntry>, PutFault>
    ensures function { Answers (λ es. telescope_of (map plain_tele_entry es)) (run_telescope
        (nested (rank (plain_simple simple.now))) (single (plain_obj obj.now) var)
        (telescope_of (map plain_tele_entry entries.now))) result }
    ensures substituted { IfOk result (λ es.
        SubstitutedTelescope (single (plain_obj obj.now) var) (telescope_of (map plain_tele_entry entries.now))
        (telescope_of (map plain_tele_entry es))) }
    ensures passes { PassesOnly result
        (PassesTelescope (single (plain_obj obj.now) var) (telescope_of (map plain_tele_entry entries.now))) }

    // Where an assignment types the object, and the entries are simply formed, so are those of the result.
    ensures formed { (arguments : Families) (z : Assignment) →
        SimplyTyped z (plain_obj obj.now) (plain_simple simple.now) →
        SimplyFormedTelescope arguments (inserted var (plain_simple simple.now) z)
        (telescope_of (map plain_tele_entry entries.now)) →
        Keeps result (λ es. SimplyFormedTelescope arguments z (telescope_of (map plain_tele_entry es))) }
{
    let bound = Bound::of_rank(type_rank(simple)?);
    put_tele_entries(alloc, entries, &Environment::object(obj, var), bound)
}

/// The rest of a kind with an object of a simple type put for a variable. Faults are as for `put_ty`.
pub fn put_args(
    alloc: Global,
    simple: &Simple,
    obj: &Obj,
    var: u32,
    args: &[Ty],
) -> Result<Items<Ty>, PutFault>
    ensures function { Answers (λ ts. map plain_ty ts) (run_kind (nested (rank (plain_simple simple.now)))
        (single (plain_obj obj.now) var) (map plain_ty args.now)) result }
    ensures substituted { IfOk result
        (λ ts. SubstitutedKind (single (plain_obj obj.now) var) (map plain_ty args.now) (map plain_ty ts)) }
    ensures passes { PassesOnly result (PassesKind (single (plain_obj obj.now) var) (map plain_ty args.now)) }

    // Where an assignment types the object, and the arguments are simply formed, so are those of the result.
    ensures formed { (arguments : Families) (z : Assignment) →
        SimplyTyped z (plain_obj obj.now) (plain_simple simple.now) →
        SimplyFormedKind arguments (inserted var (plain_simple simple.now) z) (map plain_ty args.now) →
        Keeps result (λ ts. SimplyFormedKind arguments z (map plain_ty ts)) }
{
    let bound = Bound::of_rank(type_rank(simple)?);
    put_kind_args(alloc, args, &Environment::object(obj, var), bound)
}

/// `let {p} = {E} in F`: the steps of `value`, and then `rest` with the tuple of `value` put for its newest variables,
/// one for each entry of a simple type.
///
/// Faults are as for `put_obj`, with `value` at the entries.
pub fn flatten_let(
    alloc: Global,
    entries: &[SimpleEntry],
    value: &Expr,
    rest: &Expr,
) -> Result<Expr, PutFault>
    ensures function { Answers plain_expr (flattened
        (nested (ranks (simple_telescope_of (map plain_simple_entry entries.now)) + 1)) 0 (length entries.now)
        (plain_expr value.now) (plain_expr rest.now)) result }
    ensures substituted { IfOk result
        (λ x. Flattened (length entries.now) (plain_expr value.now) (plain_expr rest.now) (plain_expr x)) }
    ensures passes { PassesOnly result (PassesFlattened 0 (plain_expr value.now) (plain_expr rest.now)) }

    // Where an assignment types both sides, it types the result.
    ensures typed { (z : Assignment) (us : SimpleTelescope) →
        SimplyTypedExpression z (plain_expr value.now) (simple_telescope_of (map plain_simple_entry entries.now)) →
        SimplyTypedExpression (extended_by (simple_telescope_of (map plain_simple_entry entries.now)) z)
        (plain_expr rest.now) us →
        Keeps result (λ x. SimplyTypedExpression z (plain_expr x) us) }
{
    let bound = Bound::of_rank(deeper(entries_rank(entries)?, 1)?);
    flatten(alloc, entries.len(), value.copy(alloc)?, rest, bound)
}

/// The expression `rest` with a tuple put for its newest variables: what `flatten_let` answers for an expression
/// without steps.
pub fn put_tuple(
    alloc: Global,
    entries: &[SimpleEntry],
    tuple: &[TupleEntry],
    rest: &Expr,
) -> Result<Expr, PutFault>
    ensures function { Answers plain_expr (flattened
        (nested (ranks (simple_telescope_of (map plain_simple_entry entries.now)) + 1)) 0 (length entries.now)
        (done (tuple_of (map plain_entry tuple.now))) (plain_expr rest.now)) result }
    ensures substituted { IfOk result (λ x.
        Flattened (length entries.now) (done (tuple_of (map plain_entry tuple.now))) (plain_expr rest.now)
        (plain_expr x)) }
    ensures passes { PassesOnly result
        (PassesFlattened 0 (done (tuple_of (map plain_entry tuple.now))) (plain_expr rest.now)) }

    // Where an assignment types both sides, it types the result.
    ensures typed { (z : Assignment) (us : SimpleTelescope) →
        SimplyTypedExpression z (done (tuple_of (map plain_entry tuple.now)))
        (simple_telescope_of (map plain_simple_entry entries.now)) →
        SimplyTypedExpression (extended_by (simple_telescope_of (map plain_simple_entry entries.now)) z)
        (plain_expr rest.now) us →
        Keeps result (λ x. SimplyTypedExpression z (plain_expr x) us) }
{
    if tuple.len() != entries.len() {
        return Err(PutFault::Untyped);
    }
    let bound = Bound::of_rank(entries_rank(entries)?);
    put_expression(alloc, rest, &Environment::tuple(tuple, 0), bound)
}
