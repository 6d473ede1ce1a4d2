//! Binders' heads become their variables.
ghost use Rattle.std.specs.Prelude.{◌≡◌, ◌+◌, ◌==◌, ◌-◌, IfOk};
ghost use Rattle.std.specs.List.{position};
ghost use Rattle.clf_syntax.specs.declared.tree.Head.TheVariants.{Const, Var};
ghost use Rattle.celf_front.specs.FrontHeads.{heads_by};
ghost use Rattle.celf_front.specs.InFront.{binder_at};

use clf_syntax::{Head, Shortage};

/// The binders in front of a tree, the newest first, by the numbers that their constants have past those of the
/// signature, and how many these are.
#[derive(Clone, Copy)]
pub struct Front<'a> {
    pub first: u32,
    pub binders: &'a [u32],
}

/// A number of binders, raised by further ones.
pub fn deeper(depth: u64, binders: usize) -> Result<u64, Shortage>
    ensures { IfOk result (λ d. d ≡ depth + binders) }
{
    match depth.checked_add(binders as u64) {
        Some(deeper) => Ok(deeper),
        None => Err(Shortage::Numbers),
    }
}

/// A variable, raised by further binders.
fn variable(number: u64, raised: u64) -> Result<Head, Shortage>
    ensures { IfOk result (λ h. h ≡ Var (number + raised)) }
{
    match u32::try_from(deeper(number, raised as usize)?) {
        Ok(index) => Ok(Head::Var(index)),
        Err(_) => Err(Shortage::Numbers),
    }
}

/// What becomes of a head under so many binders of the tree's own.
pub fn front_head(head: Head, front: &Front<'_>, depth: u64) -> Result<Head, Shortage>
    ensures { IfOk result (λ h. h ≡ heads_by front.now depth head) }
{
    match head {
        Head::Const(place) => front_constant(place, front, depth),
        Head::Var(index) => front_variable(index, front, depth),
        Head::Meta(meta) => Ok(Head::Meta(meta)),
    }
}

fn front_constant(place: u32, front: &Front<'_>, depth: u64) -> Result<Head, Shortage>
    ensures { IfOk result (λ h. h ≡ heads_by front.now depth (Const place)) }
{
    match binder_of(place, front) {
        Some(number) => variable(number as u64, depth),
        None => Ok(Head::Const(place)),
    }
}

/// The variable of the binder that a constant stands for, if it stands for one.
pub fn binder_of(place: u32, front: &Front<'_>) -> Option<usize>
    ensures { result ≡ binder_at front.now.first front.now.binders.now place }
{
    match place.checked_sub(front.first) {
        Some(sought) => place_of(front.binders, sought),
        None => None,
    }
}

fn place_of(binders: &[u32], sought: u32) -> Option<usize>
    ensures { result ≡ position (λ b. b == sought) binders.now }
{
    binders.iter().position(|binder| *binder == sought)
}

fn front_variable(index: u32, front: &Front<'_>, depth: u64) -> Result<Head, Shortage>
    ensures { IfOk result (λ h. h ≡ heads_by front.now depth (Var index)) }
{
    if u64::from(index) < depth {
        return Ok(Head::Var(index));
    }
    variable(u64::from(index), front.binders.len() as u64)
}
