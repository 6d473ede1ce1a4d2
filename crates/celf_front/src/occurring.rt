//! The heads of objects, in the order in which they stand.
ghost use Rattle.std.specs.Prelude.{◌≡◌, ◌++◌, map, OnOk};
ghost use Rattle.std.specs.List.{flat_map};
ghost use Rattle.clf_syntax.specs.Plain.{plain_obj, plain_neutral, plain_elim, plain_expr, plain_step, plain_entry};
ghost use Rattle.celf_front.specs.Occurring.{heads_in, heads_in_neutral, heads_in_expression};
ghost use Rattle.celf_front.specs.OccurringParts.{heads_in_elimination, heads_in_step, heads_in_entry};

use clf_syntax::{Elim, Expr, Head, Neutral, Obj, Step, TupleEntry};
use sqlite_items::Items;
use std::alloc::AllocError;

#[cycle(note)]
#[tactic(auto, using(clf_syntax::specs::Plain::plain_laws, crate::proofs::Occurrings::occurring_laws))]
pub fn note_object(obj: &Obj, heads: &mut Items<Head>) -> Result<(), AllocError>
    ensures { OnOk result (heads.new ≡ heads.old ++ heads_in (plain_obj obj.now)) }
{
    match obj {
        Obj::Lam { mode: _, body } => note_object(body.get(), heads),
        Obj::Pair { left, right } => {
            note_object(left.get(), heads)?;
            note_object(right.get(), heads)
        }
        Obj::Unit => Ok(()),
        Obj::Mon { expr } => note_expression(expr.get(), heads),
        Obj::At { neutral } => note_neutral(neutral, heads),
        Obj::Hole => Ok(()),
    }
}

#[cycle(note)]
#[tactic(auto, using(clf_syntax::specs::Plain::plain_laws, crate::proofs::Occurrings::occurring_laws))]
fn note_neutral(neutral: &Neutral, heads: &mut Items<Head>) -> Result<(), AllocError>
    ensures { OnOk result (heads.new ≡ heads.old ++ heads_in_neutral (plain_neutral neutral.now)) }
{
    heads.push(neutral.head)?;
    note_spine(neutral.spine.as_slice(), heads)
}

#[cycle(note)]
fn note_spine(spine: &[Elim], heads: &mut Items<Head>) -> Result<(), AllocError>
    ensures { OnOk result (heads.new ≡ heads.old ++ flat_map heads_in_elimination (map plain_elim spine.now)) }
{
    for act in spine {
        note_elimination(act, heads)?;
    }
    Ok(())
}

#[cycle(note)]
#[tactic(auto, using(clf_syntax::specs::Plain::plain_laws, crate::proofs::Occurrings::occurring_laws))]
fn note_elimination(act: &Elim, heads: &mut Items<Head>) -> Result<(), AllocError>
    ensures { OnOk result (heads.new ≡ heads.old ++ heads_in_elimination (plain_elim act.now)) }
{
    match act {
        Elim::Arg { mode: _, obj } => note_object(obj, heads),
        Elim::First => Ok(()),
        Elim::Second => Ok(()),
    }
}

#[cycle(note)]
#[tactic(auto, using(clf_syntax::specs::Plain::plain_laws, crate::proofs::Occurrings::occurring_laws))]
fn note_expression(expr: &Expr, heads: &mut Items<Head>) -> Result<(), AllocError>
    ensures { OnOk result (heads.new ≡ heads.old ++ heads_in_expression (plain_expr expr.now)) }
{
    note_steps(expr.steps.as_slice(), heads)?;
    note_tuple(expr.result.as_slice(), heads)
}

#[cycle(note)]
fn note_steps(steps: &[Step], heads: &mut Items<Head>) -> Result<(), AllocError>
    ensures { OnOk result (heads.new ≡ heads.old ++ flat_map heads_in_step (map plain_step steps.now)) }
{
    for step in steps {
        note_step(step, heads)?;
    }
    Ok(())
}

#[cycle(note)]
#[tactic(auto, using(clf_syntax::specs::Plain::plain_laws, crate::proofs::Occurrings::occurring_laws))]
fn note_step(step: &Step, heads: &mut Items<Head>) -> Result<(), AllocError>
    ensures { OnOk result (heads.new ≡ heads.old ++ heads_in_step (plain_step step.now)) }
{
    note_neutral(&step.rhs, heads)
}

#[cycle(note)]
fn note_tuple(tuple: &[TupleEntry], heads: &mut Items<Head>) -> Result<(), AllocError>
    ensures { OnOk result (heads.new ≡ heads.old ++ flat_map heads_in_entry (map plain_entry tuple.now)) }
{
    for entry in tuple {
        note_tuple_entry(entry, heads)?;
    }
    Ok(())
}

#[cycle(note)]
#[tactic(auto, using(clf_syntax::specs::Plain::plain_laws, crate::proofs::Occurrings::occurring_laws))]
fn note_tuple_entry(entry: &TupleEntry, heads: &mut Items<Head>) -> Result<(), AllocError>
    ensures { OnOk result (heads.new ≡ heads.old ++ heads_in_entry (plain_entry entry.now)) }
{
    note_object(&entry.obj, heads)
}
