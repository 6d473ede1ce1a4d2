//! What is wrong with a part of a core.
use clf_syntax::{Head, Mode};

/// Why a part does not conform to simple types: the causes of the kernel, read without indices and without holdings.
#[derive(Clone, Copy, Debug)]
pub enum Misfit {
    /// A lambda stands at, or an argument is put to, a type that is no function.
    NotFunction,
    /// A pair stands at, or a projection is taken of, a type that is no pair.
    NotPair,
    /// `<>` stands at another type than `<T>`.
    NotTop,
    /// A monadic object stands at, or a step's right side has, a type that is no monad.
    NotMonad,
    /// A neutral stands at a type that is no family, or has one.
    NotAtomic,
    /// A hole; or a metavariable, where nothing can be filled in for it.
    NotClosed,
    /// A lambda, an argument, a pattern or an entry of a tuple has another mode than its type.
    ModeDiffers { wanted: Mode, found: Mode },
    /// A pattern or a tuple has another number of entries than its telescope.
    Width { wanted: usize, found: usize },
    /// The families of what is found and of what is wanted differ.
    FamilyDiffers { found: u32, wanted: u32 },
    /// A variable that is not in scope, or a number that is no constant or no family.
    UnknownHead { head: Head },
    /// A family stands with another number of indices than its kind has arguments.
    FamilyArity { wanted: usize, found: usize },
}
