//! Replies.

use clf_kernel::Refusal;
use clf_syntax::{Name, Obj, Ty};

/// The two sides of an equation, under so many variables.
#[derive(Drop)]
pub struct Sides {
    pub under: u32,
    pub left: Obj,
    pub right: Obj,
}

/// What does not go together in an item, whatever is put for that of it which is not written: as much of it as is told.
#[derive(Drop)]
pub enum Mismatch {
    /// A lambda stands at a type that is no function, or an argument is given to what has no such type.
    NotFunction,
    /// A pair stands at a type that is no pair, or a part is taken of what has no such type.
    NotPair,
    /// `<>` stands at another type than `<T>`.
    NotTop,
    /// Braces stand at a type that is no monad, or a step runs what has no such type.
    NotMonad,
    /// A name with its arguments stands at a type that is no family, or has itself no family as its type.
    NotAtomic,
    /// A part that is not written cannot be found, as its place has no simple type.
    NotClosed,
    /// A lambda, an argument or an entry has another mode than its type.
    ModeDiffers,
    /// A pattern or a tuple has another number of entries than its type.
    Width,
    /// An object of one family stands where one of another is wanted.
    FamilyDiffers { found: u32, wanted: u32 },
    /// What is in front of the arguments is no variable in scope, no constant, or no family, as it has to be.
    UnknownHead,
    /// A family has another number of arguments than its kind.
    FamilyArity,
    /// These two would have to be joined, and nothing that is put for their metavariables makes them so.
    IndexDiffers(Sides),
}

/// Why an item is refused, with what the refusal keeps.
#[derive(Drop)]
pub enum Why {
    /// No token begins at the byte.
    BadByte,
    /// A word of more than 255 bytes begins there.
    LongName,
    /// No item goes on with the token there, or with the end of the file.
    Unexpected { end: bool },
    /// A `#` word that is no directive begins an item.
    Directive,
    /// A nested part too many is opened there.
    TooDeep,
    /// `type`, or a synchronous type, stands where none may stand.
    KindPlace,
    /// A type is synchronous that may not be.
    NotAsync,
    /// Something is done to an object that is no head.
    Redex,
    /// A number is past its range.
    OutOfRange,
    /// More arguments are to be implicit than the type has in front.
    BadImplicit,
    /// The declared name is declared already.
    Duplicate(Name),
    /// The signature has no room for a further entry.
    Full,
    /// The first name that has no meaning at its place.
    UnknownName(Name),
    /// The rules do not derive the item. The path leads from the item to the part that they refuse.
    Kernel(Refusal),
    /// No place of the item says which type this implicit variable has.
    Undetermined(Name),
    /// Nothing that is put for what is not written makes the item well formed.
    IllTyped(Mismatch),
    /// What is not written depends on these equations, which are postponed for good.
    Unresolved(Vec<Sides>),
    /// So many metavariables are left in an item that can have none.
    Loose { count: u32 },
    /// The type of each of these variables mentions the next one, and the last one's the first; some have no name.
    Circular(Vec<Option<Name>>),
    /// The rules do not derive the item with all found that was not written. The path leads to the part that they
    /// refuse.
    Rejected(Refusal),
    /// Items like this one are not answered yet.
    NotYet,
}

/// What is answered to an item.
#[derive(Drop)]
pub enum Reply {
    /// The item is declared, and its entry has this place in the signature.
    Entry(u32),
    /// The object has the type.
    Checked { obj: Obj, ty: Ty },
    /// Both objects have the type, and are the same up to the order of independent steps.
    Equal,
    /// Both objects have the type, and are not the same.
    Different,
    /// The item is refused: the byte of the file at which the fault is said, and why.
    Refused { at: u32, why: Why },
}
