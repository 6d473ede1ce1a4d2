//! Plain items.
ghost use Rattle.std.specs.Prelude.{◌≡◌, IfOk, IfErr, OnOk, Option, None};
ghost use Rattle.celf_surface.specs.Surface.{surface, object_tree, written_item, body_of as written_body, declare, query as query_of, trace as trace_of, equal as equal_of, check as check_of};
ghost use Rattle.celf_sugar.specs.Plain.{desugared_item, body_of};
ghost use Rattle.celf_sugar.specs.Sugar.{desugared, body as plain_body};
ghost use Rattle.celf_sugar.specs.Faults.{first_of, first_fault};
ghost use Rattle.celf_sugar.specs.Answers.{IsFirst};

use crate::fault::SugarFault;
use crate::item_fault::{check_fault, declaration_fault, equal_fault, query_fault, trace_fault};
use crate::number::{implicit_count, number};
use crate::object::boxed_object;
use crate::plain::{PTele, Plain, PlainBody};
use crate::types::{class, entries, plain_type_of, unbraced};
use celf_surface::{Bound, Item, ItemBody, SObj, SType};
use clf_syntax::Name;
use std::alloc::Global;

/// The item without its sugar.
///
/// Where it has faults, it answers the one with the least start, and at equal starts the first in the order of
/// `SugarFault`; of two synchronous types that start at one byte the outer one.
/// `NoMemory` comes only where memory runs out.
#[tactic(auto, using(crate::proofs::AnswerLaws::answer_laws))]
pub fn desugar(alloc: Global, item: &Item) -> Result<Plain, SugarFault>
    ensures plain { IfOk result (λ p. desugared_item p ≡ desugared (written_item item.now)) }
    ensures clean { OnOk result (first_fault (written_item item.now) ≡ None) }
    ensures fault { IfErr result (λ f. IsFirst f (first_fault (written_item item.now))) }
{
    let body = body(alloc, &item.body)?;
    Ok(Plain {
        span: item.span,
        body,
    })
}

#[tactic(auto, using(crate::proofs::AnswerLaws::answer_laws))]
fn body(alloc: Global, body: &ItemBody) -> Result<PlainBody, SugarFault>
    ensures plain { IfOk result (λ b. body_of b ≡ plain_body (written_body body.now)) }
    ensures clean { OnOk result (first_of (written_body body.now) ≡ None) }
    ensures fault { IfErr result (λ f. IsFirst f (first_of (written_body body.now))) }
{
    match body {
        ItemBody::Declare { name, implicit, ty } => declaration(alloc, name, *implicit, ty),
        ItemBody::Query { d, e, l, a, ty } => query(alloc, *d, *e, *l, *a, ty),
        ItemBody::Trace { n, ty } => trace(alloc, *n, ty),
        ItemBody::Equal { left, right, ty } => equal(alloc, left, right, ty),
        ItemBody::Check { obj, ty } => check(alloc, obj, ty),
    }
}

/// `name : [implicit] ty.`
#[tactic(auto, using(crate::proofs::AnswerLaws::answer_laws))]
fn declaration(
    alloc: Global,
    name: &Name,
    implicit: Option<Bound>,
    ty: &SType,
) -> Result<PlainBody, SugarFault>
    ensures plain { IfOk result (λ b. body_of b ≡ plain_body (declare name.now implicit (surface ty.now))) }
    ensures clean { OnOk result (first_of (declare name.now implicit (surface ty.now)) ≡ None) }
    ensures fault { IfErr result (λ f. IsFirst f (first_of (declare name.now implicit (surface ty.now)))) }
{
    let name = name.copy(alloc)?;
    let class = class(alloc, ty)?;
    if let Some(fault) = declaration_fault(implicit, ty, &class) {
        // By a call: dropped here, each form of the type would be a case of this function.
        drop(class);
        return Err(fault);
    }
    Ok(PlainBody::Declare {
        name,
        implicit: implicit_count(implicit),
        class,
    })
}

/// `#query d e l a ty.`
#[tactic(auto, using(crate::proofs::AnswerLaws::answer_laws))]
fn query(
    alloc: Global,
    d: Bound,
    e: Bound,
    l: Bound,
    a: Bound,
    ty: &SType,
) -> Result<PlainBody, SugarFault>
    ensures plain { IfOk result (λ b. body_of b ≡ plain_body (query_of d e l a (surface ty.now))) }
    ensures clean { OnOk result (first_of (query_of d e l a (surface ty.now)) ≡ None) }
    ensures fault { IfErr result (λ f. IsFirst f (first_of (query_of d e l a (surface ty.now)))) }
{
    if let Some(fault) = query_fault(d, e, l, a, ty) {
        return Err(fault);
    }
    Ok(PlainBody::Query {
        d: number(d),
        e: number(e),
        l: number(l),
        a: number(a),
        ty: plain_type_of(alloc, ty)?,
    })
}

/// `#trace n ty.`
#[tactic(auto, using(crate::proofs::AnswerLaws::answer_laws, crate::specs::Plain::telescope_laws))]
fn trace(alloc: Global, n: Bound, ty: &SType) -> Result<PlainBody, SugarFault>
    ensures plain { IfOk result (λ b. body_of b ≡ plain_body (trace_of n (surface ty.now))) }
    ensures clean { OnOk result (first_of (trace_of n (surface ty.now)) ≡ None) }
    ensures fault { IfErr result (λ f. IsFirst f (first_of (trace_of n (surface ty.now)))) }
{
    if let Some(fault) = trace_fault(n, ty) {
        return Err(fault);
    }
    let tele = PTele {
        entries: entries(alloc, unbraced(ty))?,
    };
    Ok(PlainBody::Trace { n: number(n), tele })
}

/// `#equal left = right : ty.`
#[tactic(auto, using(crate::proofs::AnswerLaws::answer_laws))]
fn equal(alloc: Global, left: &SObj, right: &SObj, ty: &SType) -> Result<PlainBody, SugarFault>
    ensures plain { IfOk result (λ b. body_of b
        ≡ plain_body (equal_of (object_tree left.now) (object_tree right.now) (surface ty.now))) }
    ensures clean { OnOk result
        (first_of (equal_of (object_tree left.now) (object_tree right.now) (surface ty.now)) ≡ None) }
    ensures fault { IfErr result (λ f.
        IsFirst f (first_of (equal_of (object_tree left.now) (object_tree right.now) (surface ty.now)))) }
{
    if let Some(fault) = equal_fault(left, right, ty) {
        return Err(fault);
    }
    // In boxes they are dropped by calls: in place, each of their forms would be a case of this function.
    let left = boxed_object(alloc, left)?;
    let right = boxed_object(alloc, right)?;
    let ty = plain_type_of(alloc, ty)?;
    Ok(PlainBody::Equal {
        left: left.into_inner(),
        right: right.into_inner(),
        ty,
    })
}

/// `#check obj : ty.`
#[tactic(auto, using(crate::proofs::AnswerLaws::answer_laws))]
fn check(alloc: Global, obj: &SObj, ty: &SType) -> Result<PlainBody, SugarFault>
    ensures plain { IfOk result (λ b. body_of b ≡ plain_body (check_of (object_tree obj.now) (surface ty.now))) }
    ensures clean { OnOk result (first_of (check_of (object_tree obj.now) (surface ty.now)) ≡ None) }
    ensures fault { IfErr result (λ f. IsFirst f (first_of (check_of (object_tree obj.now) (surface ty.now)))) }
{
    if let Some(fault) = check_fault(obj, ty) {
        return Err(fault);
    }
    let obj = boxed_object(alloc, obj)?;
    let ty = plain_type_of(alloc, ty)?;
    Ok(PlainBody::Check {
        obj: obj.into_inner(),
        ty,
    })
}
