//! Plain items: names and spans as they are written, and no sugar.
use celf_surface::{SMode, Span};
use clf_syntax::{Mode, Name};
use sqlite_items::{Boxed, Items};

/// An item without sugar, with the bytes that it covers.
#[derive(Drop)]
pub struct Plain {
    pub span: Span,
    pub body: PlainBody,
}

#[derive(Drop)]
pub enum PlainBody {
    /// `implicit` is 0 where no `[n]` is written.
    Declare {
        name: Name,
        implicit: u32,
        class: PClass,
    },
    /// A number `None` is `*`.
    Query {
        d: Option<u32>,
        e: Option<u32>,
        l: Option<u32>,
        a: Option<u32>,
        ty: PTy,
    },
    Trace {
        n: Option<u32>,
        tele: PTele,
    },
    Equal {
        left: PObj,
        right: PObj,
        ty: PTy,
    },
    Check {
        obj: PObj,
        ty: PTy,
    },
}

/// What a declaration declares: a family by its arguments, or a constant by its type.
#[derive(Drop)]
pub enum PClass {
    Family(PTele),
    Constant(PTy),
}

/// A name as it is written; `dollar` tells that it is written `$c`, and the span covers the `$` too.
#[derive(Drop)]
pub struct PName {
    pub name: Name,
    pub dollar: bool,
    pub span: Span,
}

/// An entry of a telescope; its name is `None` where it binds none.
#[cycle(types)]
#[derive(Drop)]
pub struct PEntry {
    pub mode: Mode,
    pub name: Option<Name>,
    pub ty: PTy,
}

/// Entries, each of which binds in all later ones.
#[cycle(types)]
#[derive(Drop)]
pub struct PTele {
    pub entries: Items<PEntry>,
}

#[cycle(types)]
#[derive(Drop)]
pub struct PTy {
    pub span: Span,
    pub form: PTyForm,
}

#[cycle(types)]
#[derive(Drop)]
pub enum PTyForm {
    Family {
        head: PName,
        indices: Items<PObj>,
    },
    /// The name is `None` where the function binds none.
    Fun {
        mode: Mode,
        name: Option<Name>,
        dom: Boxed<PTy>,
        cod: Boxed<PTy>,
    },
    With {
        left: Boxed<PTy>,
        right: Boxed<PTy>,
    },
    Top,
    Monad {
        tele: PTele,
    },
}

#[cycle(objects)]
#[derive(Drop)]
pub struct PObj {
    pub span: Span,
    pub form: PObjForm,
}

#[cycle(objects)]
#[derive(Drop)]
pub enum PObjForm {
    /// The name is `None` where `_` is written.
    Lam {
        mode: SMode,
        name: Option<Name>,
        body: Boxed<PObj>,
    },
    Pair {
        left: Boxed<PObj>,
        right: Boxed<PObj>,
    },
    Unit,
    Mon {
        expr: PExpr,
    },
    At {
        head: PName,
        spine: Items<PElim>,
    },
    Hole,
}

/// What is done to a head: it is applied, or projected.
#[cycle(objects)]
#[derive(Drop)]
pub enum PElim {
    Arg { mode: SMode, obj: PObj },
    First,
    Second,
}

/// An entry of a pattern; its name is `None` where `_` is written.
#[derive(Drop)]
pub struct PBinder {
    pub mode: SMode,
    pub name: Option<Name>,
}

/// An entry of a tuple.
#[cycle(objects)]
#[derive(Drop)]
pub struct PMarked {
    pub mode: SMode,
    pub obj: PObj,
}

/// `let {pattern} = head spine in`.
#[cycle(objects)]
#[derive(Drop)]
pub struct PStep {
    pub pattern: Items<PBinder>,
    pub head: PName,
    pub spine: Items<PElim>,
}

/// Steps, and then a tuple.
#[cycle(objects)]
#[derive(Drop)]
pub struct PExpr {
    pub steps: Items<PStep>,
    pub result: Items<PMarked>,
}
