//! What a place wants, and what its parts want.
ghost use Rattle.std.specs.Prelude.{◌≡◌, map, option_copied};
ghost use Rattle.clf_syntax.specs.PlainSimple.{plain_simple_entry};
ghost use Rattle.celf_sugar.specs.PlainTree.{spine_of};
ghost use Rattle.celf_sugar.specs.Plain.{desugared_elim};
ghost use Rattle.celf_places.specs.Locals.{plain_place};
ghost use Rattle.celf_places.specs.Places as spec;

use celf_sugar::PElim;
use celf_surface::SMode;
use clf_syntax::{Mode, Simple, SimpleEntry};

/// What a place says of a function: its mode, and what its argument and its result want.
#[derive(Clone, Copy)]
pub struct FunctionParts<'a> {
    pub mode: Mode,
    pub domain: Option<&'a Simple>,
    pub codomain: Option<&'a Simple>,
}

/// What a place says of a pair: what its parts want.
#[derive(Clone, Copy)]
pub struct PairParts<'a> {
    pub left: Option<&'a Simple>,
    pub right: Option<&'a Simple>,
}

/// What is wanted of the next one of several parts, and of those after it.
#[derive(Clone, Copy)]
pub struct NextPart<'a> {
    pub mode: Mode,
    pub place: Option<&'a Simple>,
    pub later: &'a [SimpleEntry],
}

/// The parts of a function's place. Where no function is wanted, a bare part is linear.
#[tactic(auto, using(clf_syntax::specs::PlainSimple::plain_simple_laws))]
pub fn function_parts<'a>(place: Option<&'a Simple>) -> FunctionParts<'a>
    ensures mode { result.mode ≡ (spec.function_parts (plain_place (option_copied place.entry))).mode }
    ensures domain { plain_place (option_copied result.domain)
        ≡ (spec.function_parts (plain_place (option_copied place.entry))).domain }
    ensures codomain { plain_place (option_copied result.codomain)
        ≡ (spec.function_parts (plain_place (option_copied place.entry))).codomain }
{
    match place {
        Some(Simple::Fun { mode, dom, cod }) => FunctionParts {
            mode: *mode,
            domain: Some(dom.get()),
            codomain: Some(cod.get()),
        },
        Some(Simple::Atom(_) | Simple::With { .. } | Simple::Top | Simple::Monad { .. }) | None => {
            FunctionParts {
                mode: Mode::Linear,
                domain: None,
                codomain: None,
            }
        }
    }
}

/// The parts of a pair's place.
#[tactic(auto, using(clf_syntax::specs::PlainSimple::plain_simple_laws))]
pub fn pair_parts<'a>(place: Option<&'a Simple>) -> PairParts<'a>
    ensures left { plain_place (option_copied result.left)
        ≡ (spec.pair_parts (plain_place (option_copied place.entry))).left }
    ensures right { plain_place (option_copied result.right)
        ≡ (spec.pair_parts (plain_place (option_copied place.entry))).right }
{
    match place {
        Some(Simple::With { left, right }) => PairParts {
            left: Some(left.get()),
            right: Some(right.get()),
        },
        Some(Simple::Atom(_) | Simple::Fun { .. } | Simple::Top | Simple::Monad { .. }) | None => {
            PairParts {
                left: None,
                right: None,
            }
        }
    }
}

/// The entries of the monad that a place wants.
#[tactic(auto, using(clf_syntax::specs::PlainSimple::plain_simple_laws, crate::specs::Parts::entry_laws))]
pub fn entries_at<'a>(place: Option<&'a Simple>) -> &'a [SimpleEntry]
    ensures { map plain_simple_entry result.now ≡ spec.entries_at (plain_place (option_copied place.entry)) }
{
    match place {
        Some(Simple::Monad { entries }) => entries.as_slice(),
        Some(Simple::Atom(_) | Simple::Fun { .. } | Simple::With { .. } | Simple::Top) | None =>
            &[],
    }
}

/// What is wanted of the next part, where these are left. Beyond the last one nothing is, and a bare part is linear.
#[tactic(auto, using(clf_syntax::specs::PlainSimple::plain_simple_laws))]
pub fn next_part<'a>(entries: &'a [SimpleEntry]) -> NextPart<'a>
    ensures mode { result.mode ≡ (spec.next_part (map plain_simple_entry entries.now)).mode }
    ensures place { plain_place (option_copied result.place)
        ≡ (spec.next_part (map plain_simple_entry entries.now)).place }
    ensures later { map plain_simple_entry result.later.now
        ≡ (spec.next_part (map plain_simple_entry entries.now)).later }
{
    match entries {
        [entry, later @ ..] => NextPart {
            mode: entry.mode,
            place: Some(&entry.ty),
            later,
        },
        [] => NextPart {
            mode: Mode::Linear,
            place: None,
            later: &[],
        },
    }
}

/// The simple type of what goes on by an argument or a projection.
#[tactic(auto, using(celf_sugar::specs::Plain::elim_laws))]
pub fn behind_act<'a>(simple: Option<&'a Simple>, act: &PElim) -> Option<&'a Simple>
    ensures { plain_place (option_copied result)
        ≡ spec.behind_act (plain_place (option_copied simple.entry)) (desugared_elim act.now) }
{
    match act {
        PElim::Arg { .. } => function_parts(simple).codomain,
        PElim::First => pair_parts(simple).left,
        PElim::Second => pair_parts(simple).right,
    }
}

/// The simple type of what goes on by a whole spine.
pub fn behind_spine<'a>(simple: Option<&'a Simple>, spine: &[PElim]) -> Option<&'a Simple>
    ensures { plain_place (option_copied result)
        ≡ spec.behind_spine (plain_place (option_copied simple.entry)) (spine_of (map desugared_elim spine.now)) }
{
    let mut place = simple;
    for act in spine {
        place = behind_act(place, act);
    }
    place
}

/// The mode of a part that is written so, where this is that of its place.
pub fn marked(written: SMode, mode: Mode) -> Mode
    ensures { result ≡ spec.marked written mode }
{
    match written {
        SMode::Bare => mode,
        SMode::Persistent => Mode::Persistent,
        SMode::Affine => Mode::Affine,
        SMode::Linear => Mode::Linear,
    }
}
