//! Objects that stand where a head is wanted and have none.
ghost use Rattle.std.specs.Prelude.{◌≡◌, map};
ghost use Rattle.std.specs.List.{flat_map};
ghost use Rattle.celf_surface.specs.Surface.{object_tree, argument_tree, step_tree, tuple_tree, expression_tree, surface};
ghost use Rattle.celf_sugar.specs.Earliest.{sooner as sooner_of, earliest};
ghost use Rattle.celf_sugar.specs.Faults.{start, headless as headless_at, redexes, step_redexes, tuple_redexes, type_redexes};
ghost use Rattle.celf_sugar.specs.FaultLists.{of_argument, of_head, of_step};

use crate::earliest::sooner;
use celf_surface::{SArg, SExpr, SObj, SObjForm, SStep, STuple, SType, STypeForm, Span};

/// The first lambda, pair, `<>`, braces or `_` in an object that is applied, is projected or is the right side of a
/// `let`.
#[cycle(redex)]
#[tactic(auto, using(crate::specs::SugarLists::written_object_laws, crate::proofs::EarliestLaws::earliest_laws, crate::specs::FaultLists::listed_laws))]
pub fn redex(obj: &SObj) -> Option<Span>
    ensures { result ≡ earliest start (redexes (object_tree obj.now)) }
{
    match &obj.form {
        SObjForm::Lam {
            mode: _,
            name: _,
            body,
        } => redex(body.get()),
        SObjForm::App { head, args } => {
            sooner(
                redex_at_head(head.get()),
                redex_in_arguments(args.as_slice()),
            )
        }
        SObjForm::Named { .. } | SObjForm::Hole | SObjForm::Unit => None,
        SObjForm::Pair { left, right } => sooner(redex(left.get()), redex(right.get())),
        SObjForm::Braces { expr } => redex_in_expression(expr.get()),
        SObjForm::First { body } | SObjForm::Second { body } => redex_at_head(body.get()),
    }
}

/// The same in an object that stands where a head is wanted, which itself may have none.
#[cycle(redex)]
#[tactic(auto, using(crate::proofs::EarliestLaws::earliest_laws))]
fn redex_at_head(obj: &SObj) -> Option<Span>
    ensures { result ≡ earliest start (of_head (object_tree obj.now)) }
{
    sooner(headless(obj), redex(obj))
}

#[cycle(redex)]
#[tactic(auto, using(crate::proofs::EarliestLaws::earliest_laws))]
fn redex_in_arguments(args: &[SArg]) -> Option<Span>
    ensures { result ≡ earliest start (flat_map of_argument (map argument_tree args.now)) }
{
    let mut found = None;
    for arg in args {
        found = sooner(found, redex_in_argument(arg));
    }
    found
}

#[cycle(redex)]
#[tactic(auto, using(crate::specs::SugarLists::written_part_laws))]
fn redex_in_argument(arg: &SArg) -> Option<Span>
    ensures { result ≡ earliest start (of_argument (argument_tree arg.now)) }
{
    redex(&arg.obj)
}

#[cycle(redex)]
#[tactic(auto, using(celf_surface::specs::Surface::surface_laws, crate::proofs::EarliestLaws::earliest_laws, crate::specs::FaultLists::listed_laws))]
fn redex_in_expression(expr: &SExpr) -> Option<Span>
    ensures { result ≡ sooner_of start (earliest start (step_redexes (expression_tree expr.now).0))
        (earliest start (tuple_redexes (expression_tree expr.now).1)) }
{
    sooner(
        redex_in_steps(expr.steps.as_slice()),
        redex_in_tuple(&expr.result),
    )
}

#[cycle(redex)]
#[tactic(auto, using(crate::proofs::EarliestLaws::earliest_laws))]
fn redex_in_steps(steps: &[SStep]) -> Option<Span>
    ensures { result ≡ earliest start (flat_map of_step (map step_tree steps.now)) }
{
    let mut found = None;
    for step in steps {
        found = sooner(found, redex_in_step(step));
    }
    found
}

#[cycle(redex)]
#[tactic(auto, using(crate::specs::SugarLists::written_part_laws))]
fn redex_in_step(step: &SStep) -> Option<Span>
    ensures { result ≡ earliest start (of_step (step_tree step.now)) }
{
    redex_at_head(&step.rhs)
}

#[cycle(redex)]
#[tactic(auto, using(crate::specs::SugarLists::written_tuple_laws, crate::proofs::EarliestLaws::earliest_laws, crate::specs::FaultLists::listed_laws))]
fn redex_in_tuple(tuple: &STuple) -> Option<Span>
    ensures { result ≡ earliest start (tuple_redexes (tuple_tree tuple.now)) }
{
    match tuple {
        STuple::One => None,
        STuple::List(tuples) => redex_in_tuples(tuples.as_slice()),
        STuple::Marked { mode: _, obj } => redex(obj),
        STuple::Bare(obj) => redex(obj),
    }
}

#[cycle(redex)]
#[tactic(auto, using(crate::proofs::EarliestLaws::earliest_laws))]
fn redex_in_tuples(tuples: &[STuple]) -> Option<Span>
    ensures { result ≡ earliest start (flat_map tuple_redexes (map tuple_tree tuples.now)) }
{
    let mut found = None;
    for tuple in tuples {
        found = sooner(found, redex_in_tuple(tuple));
    }
    found
}

/// The span of an object without a head.
#[tactic(auto, using(crate::specs::SugarLists::written_object_laws))]
fn headless(obj: &SObj) -> Option<Span>
    ensures { result ≡ earliest start (headless_at (object_tree obj.now)) }
{
    match &obj.form {
        SObjForm::App { .. }
        | SObjForm::Named { .. }
        | SObjForm::First { .. }
        | SObjForm::Second { .. } => None,
        SObjForm::Lam { .. }
        | SObjForm::Hole
        | SObjForm::Unit
        | SObjForm::Pair { .. }
        | SObjForm::Braces { .. } => Some(obj.span),
    }
}

/// The first such object in the indices of a type.
#[cycle(type_redex)]
#[tactic(auto, using(crate::specs::SugarLists::written_type_laws, crate::proofs::EarliestLaws::earliest_laws))]
pub fn type_redex(ty: &SType) -> Option<Span>
    ensures { result ≡ earliest start (type_redexes (surface ty.now)) }
{
    match &ty.form {
        STypeForm::Pi { name: _, dom, rest } | STypeForm::Exists { name: _, dom, rest } => {
            sooner(type_redex(dom.get()), type_redex(rest.get()))
        }
        STypeForm::Arrow {
            arrow: _,
            left,
            right,
        } => { sooner(type_redex(left.get()), type_redex(right.get())) }
        STypeForm::Tensor { left, right } => {
            sooner(type_redex(left.get()), type_redex_in_factors(right.get()))
        }
        STypeForm::Marked { mode: _, body } | STypeForm::Braces { body } => type_redex(body.get()),
        STypeForm::With { left, right } => {
            sooner(type_redex(left.get()), type_redex(right.get()))
        }
        STypeForm::Family {
            name: _,
            dollar: _,
            at: _,
            indices,
        } => { redex_in_indices(indices.as_slice()) }
        STypeForm::TypeWord | STypeForm::Top | STypeForm::One => None,
    }
}

/// The same in the later factors of a product, which may be many.
#[cycle(type_redex)]
#[tactic(auto, using(crate::specs::SugarLists::written_type_laws, crate::proofs::EarliestLaws::earliest_laws))]
fn type_redex_in_factors(factors: &SType) -> Option<Span>
    ensures { result ≡ earliest start (type_redexes (surface factors.now)) }
{
    let mut found = None;
    let mut rest = factors;
    while let STypeForm::Tensor { left, right } = &rest.form {
        found = sooner(found, type_redex(left.get()));
        rest = right.get();
    }
    sooner(found, type_redex(rest))
}

#[tactic(auto, using(crate::proofs::EarliestLaws::earliest_laws))]
fn redex_in_indices(indices: &[SObj]) -> Option<Span>
    ensures { result ≡ earliest start (flat_map redexes (map object_tree indices.now)) }
{
    let mut found = None;
    for index in indices {
        found = sooner(found, redex(index));
    }
    found
}
