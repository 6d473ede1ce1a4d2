//! Refusals, and what else ends a check.
ghost use Rattle.std.specs.Prelude.{◌≡◌, ◌∷◌, [], reverse, IfOk, IfErr};
ghost use Rattle.clf_syntax.specs.PlainTypes.{plain_ty};
ghost use Rattle.clf_kernel.specs.Answers.{plain_cause, at_type};
ghost use Rattle.clf_kernel.specs.Stops.{IsPartOf, Ends, IsShort, IsFault};

use clf_syntax::{Head, Mode, Obj, Or, OrWide, TooFar, Ty, Wide};
use std::alloc::{AllocError, Global};
use use_contexts::Left;

/// Why a part is refused, with what the refusal keeps.
#[derive(Drop)]
pub enum Cause {
    /// A lambda stands at, or an argument is put to, a type that is no function.
    NotFunction { found: Ty },
    /// A pair stands at, or a projection is taken of, a type that is no pair.
    NotPair { found: Ty },
    /// `<>` stands at another type than `<T>`.
    NotTop { found: Ty },
    /// A monadic object stands at, or a step's right side has, a type that is no monad.
    NotMonad { found: Ty },
    /// A neutral stands at a type that is no family, or has one.
    NotAtomic { ty: Ty },
    /// A metavariable or a hole.
    NotClosed,
    /// A lambda, an argument, a pattern or an entry of a tuple has another mode than its type.
    ModeDiffers { wanted: Mode, found: Mode },
    /// A pattern or a tuple has another number of entries than its telescope.
    Width { wanted: u32, found: u32 },
    /// A linear or affine variable is not held.
    NotHeld { level: u32 },
    /// A linear variable is left at the end of its scope, without slack.
    Unused { level: u32 },
    /// One part of a pair uses a linear variable, and the other leaves it without slack.
    PairsDiffer { level: u32 },
    /// The families of what is found and of what is wanted differ.
    FamilyDiffers { found: u32, wanted: u32 },
    /// The indices of what is found and of what is wanted are not joined at a place, under so many variables.
    IndexDiffers { scope: u32, found: Obj, wanted: Obj },
    /// A family stands with another number of indices than its kind has arguments.
    FamilyArity { wanted: u32, found: u32 },
    /// A variable that is not in the context, or a number that is no constant or no family.
    UnknownHead { head: Head },
}

/// A refusal: the numbers of the parts from the whole to the one that is refused, and why it is.
#[derive(Drop)]
pub struct Refusal {
    pub path: Vec<u32>,
    pub cause: Cause,
}

/// The type of a neutral, and what it leaves.
#[derive(Drop)]
pub struct Inferred {
    pub ty: Ty,
    pub left: Left,
}

/// What ends a check before its end. A refusal's path is listed from the part outward.
#[derive(Drop)]
pub enum Stop {
    Refused { outward: Vec<u32>, cause: Cause },
    NoMemory,
    TooFar(Wide),
}

impl From<AllocError> for Stop {
    ghost use Rattle.std.specs.Prelude.{◌≡◌};
    ghost use Rattle.clf_kernel.specs.declared.refusal.Stop.TheVariants.{NoMemory};

    ghost from_gives = { λ _ e. e ≡ NoMemory };

    fn from(_error: AllocError) -> Stop {
        Stop::NoMemory
    }
}

/// A refusal of the part itself.
pub fn refuse(alloc: Global, cause: Cause) -> Stop
    ensures { Ends [] (plain_cause cause) result }
{
    Stop::Refused {
        outward: Vec::new(alloc),
        cause,
    }
}

/// A refusal of the part with this number.
pub fn refuse_at(alloc: Global, place: usize, cause: Cause) -> Stop
    ensures { Ends (place ∷ []) (plain_cause cause) result }
{
    step_out(alloc, place, Vec::new(alloc), cause)
}

/// What makes a cause of a type, as `NotPair` does.
#[derive(Clone, Copy)]
pub enum AtType {
    NotFunction,
    NotPair,
    NotTop,
    NotMonad,
    NotAtomic,
}

impl AtType {
    /// The cause that keeps this type.
    pub fn cause(self, found: Ty) -> Cause
        ensures { plain_cause result ≡ at_type self (plain_ty found) }
    {
        match self {
            AtType::NotFunction => Cause::NotFunction { found },
            AtType::NotPair => Cause::NotPair { found },
            AtType::NotTop => Cause::NotTop { found },
            AtType::NotMonad => Cause::NotMonad { found },
            AtType::NotAtomic => Cause::NotAtomic { ty: found },
        }
    }
}

/// A refusal at a type, which is copied.
pub fn refuse_type(alloc: Global, why: AtType, found: &Ty) -> Stop
    ensures { Ends [] (at_type why (plain_ty found.now)) result }
{
    match found.copy(alloc) {
        Ok(found) => refuse(alloc, why.cause(found)),
        Err(_) => Stop::NoMemory,
    }
}

/// What ends the check of the part with this number, as what ends the check of the whole.
pub fn from_part(alloc: Global, place: usize, stop: Stop) -> Stop
    ensures { IsPartOf place stop result }
{
    match stop {
        Stop::Refused { outward, cause } => step_out(alloc, place, outward, cause),
        Stop::NoMemory => Stop::NoMemory,
        Stop::TooFar(wide) => Stop::TooFar(wide),
    }
}

/// A refusal with one more number in front of its path.
fn step_out(alloc: Global, place: usize, outward: Vec<u32>, cause: Cause) -> Stop
    ensures { Ends (place ∷ reverse outward.items) (plain_cause cause) result }
{
    match longer(alloc, place, outward) {
        Ok(outward) => Stop::Refused { outward, cause },
        Err(stop) => {
            // By a call: dropped here, each form of the cause and of its type would be a case of this function.
            drop(cause);
            stop
        }
    }
}

/// A path with one more number in front.
fn longer(alloc: Global, place: usize, outward: Vec<u32>) -> Result<Vec<u32>, Stop>
    ensures path { IfOk result (λ longer. reverse longer.items ≡ place ∷ reverse outward.items) }
    ensures short { IfErr result IsShort }
{
    if place > u32::MAX as usize {
        return Err(too_far(alloc));
    }
    let mut outward = outward;
    match outward.push(place as u32) {
        Ok(_) => Ok(outward),
        Err(_) => Err(Stop::NoMemory),
    }
}

/// A number of binders or parts is past its range.
pub fn too_far(alloc: Global) -> Stop
    ensures { IsShort result }
{
    match Wide::full(alloc) {
        Ok(wide) => Stop::TooFar(wide),
        Err(_) => Stop::NoMemory,
    }
}

/// What ends a check where a tree could not be written.
pub fn unwritten(alloc: Global, why: Or<TooFar>) -> Stop
    ensures { IsShort result }
{
    match why {
        Or::Fault(_) => too_far(alloc),
        Or::NoMemory => Stop::NoMemory,
    }
}

/// A count of parts as a number of 32 bits.
pub fn count(alloc: Global, parts: usize) -> Result<u32, Stop>
    ensures count { IfOk result (λ n. n ≡ parts) }
    ensures short { IfErr result IsShort }
{
    if parts > u32::MAX as usize {
        return Err(too_far(alloc));
    }
    Ok(parts as u32)
}

/// The fault of a public call, with its path from the whole to the part.
pub fn fault(stop: Stop) -> OrWide<Refusal>
    ensures { IsFault stop result }
{
    match stop {
        Stop::Refused { outward, cause } => {
            let mut path = outward;
            path.reverse();
            OrWide::Fault(Refusal { path, cause })
        }
        Stop::NoMemory => OrWide::NoMemory,
        Stop::TooFar(wide) => OrWide::TooFar(wide),
    }
}
