//! Core trees made of parts that were read.
ghost use Rattle.std.specs.Prelude.{◌≡◌, map, IfOk, option_map};
ghost use Rattle.clf_syntax.specs.Plain.{plain_obj, plain_elim, plain_neutral, plain_step, plain_entry};
ghost use Rattle.clf_syntax.specs.PlainTypes.{plain_ty, plain_tele, plain_tele_entry};
ghost use Rattle.clf_syntax.specs.Tree as core;
ghost use Rattle.clf_syntax.specs.TypeTree as core_type;
ghost use Rattle.celf_places.specs.Combined.{combined, with_mode};
ghost use Rattle.celf_explicit.specs.Objects as spec;

use clf_syntax::{
    Elim, Expr, Head, Mode, Modes, Neutral, Obj, Shortage, Step, Tele, TeleEntry, TupleEntry, Ty,
};
use sqlite_items::{Boxed, Items};
use std::alloc::Global;

#[tactic(auto, using(clf_syntax::specs::Plain::plain_laws))]
pub fn lambda(mode: Mode, body: Option<Boxed<Obj>>) -> Option<Obj>
    ensures { option_map plain_obj result ≡ option_map (core.lam mode) (option_map plain_obj body) }
{
    let body = body?;
    Some(Obj::Lam { mode, body })
}

#[tactic(auto, using(clf_syntax::specs::Plain::plain_laws))]
pub fn pair(left: Option<Boxed<Obj>>, right: Option<Boxed<Obj>>) -> Option<Obj>
    ensures { option_map plain_obj result
        ≡ combined core.pair (option_map plain_obj left) (option_map plain_obj right) }
{
    let left = left?;
    let right = right?;
    Some(Obj::Pair { left, right })
}

/// A head with its spine.
pub fn applied(head: Head, spine: Option<Items<Elim>>) -> Option<Neutral>
    ensures { option_map plain_neutral result
        ≡ option_map (λ es. core.spine_on es (core.head_alone head)) (option_map (map plain_elim) spine) }
{
    let spine = spine?;
    Some(neutral(head, spine))
}

fn neutral(head: Head, spine: Items<Elim>) -> Neutral
    ensures { plain_neutral result ≡ core.spine_on (map plain_elim spine) (core.head_alone head) }
{
    Neutral { head, spine }
}

#[tactic(auto, using(clf_syntax::specs::Plain::plain_laws))]
pub fn argument(mode: Mode, obj: Option<Obj>) -> Option<Elim>
    ensures { option_map plain_elim result ≡ option_map (core.arg mode) (option_map plain_obj obj) }
{
    let obj = obj?;
    Some(Elim::Arg { mode, obj })
}

#[tactic(auto, using(clf_syntax::specs::Plain::plain_laws))]
pub fn tuple_entry(mode: Mode, obj: Option<Obj>) -> Option<TupleEntry>
    ensures { option_map plain_entry result ≡ option_map (with_mode mode) (option_map plain_obj obj) }
{
    let obj = obj?;
    Some(TupleEntry { mode, obj })
}

#[tactic(auto, using(clf_syntax::specs::Plain::plain_laws))]
pub fn step(modes: Modes, rhs: Option<Neutral>) -> Option<Step>
    ensures { option_map plain_step result ≡ option_map (with_mode modes) (option_map plain_neutral rhs) }
{
    let rhs = rhs?;
    Some(Step { modes, rhs })
}

/// Steps and a tuple.
#[tactic(auto, using(clf_syntax::specs::Plain::plain_laws))]
pub fn monadic(
    alloc: Global,
    steps: Items<Step>,
    tuple: Option<Items<TupleEntry>>,
) -> Result<Option<Obj>, Shortage>
    ensures { IfOk result (λ o.
        option_map plain_obj o
        ≡ option_map (spec.expression_of (map plain_step steps)) (option_map (map plain_entry) tuple)) }
{
    match tuple {
        Some(tuple) => {
            let expr = Boxed::new(
                alloc,
                Expr {
                    steps,
                    result: tuple,
                },
            )?;
            Ok(Some(Obj::Mon { expr }))
        }
        None => Ok(None),
    }
}

#[tactic(auto, using(clf_syntax::specs::PlainTypes::plain_type_laws))]
pub fn function(mode: Mode, dom: Option<Boxed<Ty>>, cod: Option<Boxed<Ty>>) -> Option<Ty>
    ensures { option_map plain_ty result
        ≡ combined (core_type.function mode) (option_map plain_ty dom) (option_map plain_ty cod) }
{
    let dom = dom?;
    let cod = cod?;
    Some(Ty::Fun { mode, dom, cod })
}

#[tactic(auto, using(clf_syntax::specs::PlainTypes::plain_type_laws))]
pub fn both(left: Option<Boxed<Ty>>, right: Option<Boxed<Ty>>) -> Option<Ty>
    ensures { option_map plain_ty result
        ≡ combined core_type.both (option_map plain_ty left) (option_map plain_ty right) }
{
    let left = left?;
    let right = right?;
    Some(Ty::With { left, right })
}

/// A family at its indices.
#[tactic(auto, using(clf_syntax::specs::PlainTypes::plain_type_laws))]
pub fn family(family: u32, indices: Option<Items<Obj>>) -> Option<Ty>
    ensures { option_map plain_ty result ≡ option_map (core_type.family family) (option_map (map plain_obj) indices) }
{
    let indices = indices?;
    Some(Ty::Fam { family, indices })
}

#[tactic(auto, using(clf_syntax::specs::PlainTypes::plain_type_laws))]
pub fn monad(tele: Option<Tele>) -> Option<Ty>
    ensures { option_map plain_ty result ≡ option_map core_type.monad (option_map plain_tele tele) }
{
    let tele = tele?;
    Some(Ty::Monad { tele })
}

#[tactic(auto, using(clf_syntax::specs::PlainTypes::plain_type_laws))]
pub fn telescope_entry(mode: Mode, ty: Option<Ty>) -> Option<TeleEntry>
    ensures { option_map plain_tele_entry result ≡ option_map (with_mode mode) (option_map plain_ty ty) }
{
    let ty = ty?;
    Some(TeleEntry { mode, ty })
}

#[tactic(auto, using(crate::proofs::Forms::telescope_made))]
pub fn telescope(entries: Option<Items<TeleEntry>>) -> Option<Tele>
    ensures { option_map plain_tele result
        ≡ option_map core_type.telescope_of (option_map (map plain_tele_entry) entries) }
{
    let entries = entries?;
    Some(Tele { entries })
}
