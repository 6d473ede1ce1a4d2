//! Surface trees: what is written, before it has a meaning over a signature.
use clf_syntax::{Mode, Name};
use sqlite_items::{Boxed, Items};

/// The bytes from `start` up to and without `end`.
#[derive(Clone, Copy, Debug, PartialEq, Eq)]
pub struct Span {
    pub start: u32,
    pub end: u32,
}

/// A number or `*`.
#[derive(Clone, Copy, Debug, PartialEq, Eq)]
pub enum Bound {
    /// A number; one past the greatest value is kept as that value.
    Number { value: u64, span: Span },
    /// `*`.
    Star,
}

/// An item, from its first token to the end of its full stop.
#[derive(Drop)]
pub struct Item {
    pub span: Span,
    pub body: ItemBody,
}

#[derive(Drop)]
pub enum ItemBody {
    /// `NAME : type.`, or `NAME : [n] type.`
    Declare {
        name: Name,
        implicit: Option<Bound>,
        ty: SType,
    },
    /// `#query d e l a type.`
    Query {
        d: Bound,
        e: Bound,
        l: Bound,
        a: Bound,
        ty: SType,
    },
    /// `#trace n type.`
    Trace {
        n: Bound,
        ty: SType,
    },
    /// `#equal obj = obj : type.`
    Equal {
        left: SObj,
        right: SObj,
        ty: SType,
    },
    /// `#check obj : type.`
    Check {
        obj: SObj,
        ty: SType,
    },
}

/// The mark of a binder, an argument or an entry; bare where none is written.
#[derive(Clone, Copy, Debug, Default, PartialEq, Eq)]
pub enum SMode {
    #[default]
    Bare,
    Persistent,
    Affine,
    Linear,
}

/// An arrow between types: `->`, `<-`, `-o`, `o-` or `-@`.
#[derive(Clone, Copy, Debug, PartialEq, Eq)]
pub enum Arrow {
    To,
    Back,
    Lolli,
    BackLolli,
    Affine,
}

/// A type as it is written. Parentheses leave no form, and what they hold has its own span, without them.
#[cycle(types)]
#[derive(Drop)]
pub struct SType {
    pub span: Span,
    pub form: STypeForm,
}

#[cycle(types)]
#[derive(Drop)]
pub enum STypeForm {
    Pi {
        name: Name,
        dom: Boxed<SType>,
        rest: Boxed<SType>,
    },
    Exists {
        name: Name,
        dom: Boxed<SType>,
        rest: Boxed<SType>,
    },
    /// `left` and `right` as they are written.
    Arrow {
        arrow: Arrow,
        left: Boxed<SType>,
        right: Boxed<SType>,
    },
    Tensor {
        left: Boxed<SType>,
        right: Boxed<SType>,
    },
    Marked {
        mode: Mode,
        body: Boxed<SType>,
    },
    With {
        left: Boxed<SType>,
        right: Boxed<SType>,
    },
    /// The word `type`.
    TypeWord,
    /// `dollar` tells that the name is written `$c`, and `at` covers the `$` too.
    Family {
        name: Name,
        dollar: bool,
        at: Span,
        indices: Items<SObj>,
    },
    /// `<T>`.
    Top,
    /// `1`.
    One,
    /// `{S}`.
    Braces {
        body: Boxed<SType>,
    },
}

/// An object as it is written. Parentheses leave no form, and an application without arguments is its head.
#[cycle(objects)]
#[derive(Drop)]
pub struct SObj {
    pub span: Span,
    pub form: SObjForm,
}

#[cycle(objects)]
#[derive(Drop)]
pub enum SObjForm {
    /// The name is `None` where `_` is written.
    Lam {
        mode: SMode,
        name: Option<Name>,
        body: Boxed<SObj>,
    },
    App {
        head: Boxed<SObj>,
        args: Items<SArg>,
    },
    Named {
        name: Name,
        dollar: bool,
    },
    /// `_`.
    Hole,
    /// `<>`.
    Unit,
    Pair {
        left: Boxed<SObj>,
        right: Boxed<SObj>,
    },
    Braces {
        expr: Boxed<SExpr>,
    },
    First {
        body: Boxed<SObj>,
    },
    Second {
        body: Boxed<SObj>,
    },
}

#[cycle(objects)]
#[derive(Drop)]
pub struct SArg {
    pub mode: SMode,
    pub obj: SObj,
}

#[cycle(objects)]
#[derive(Drop)]
pub struct SExpr {
    pub steps: Items<SStep>,
    pub result: STuple,
}

/// `let {pattern} = rhs in`.
#[cycle(objects)]
#[derive(Drop)]
pub struct SStep {
    pub pattern: SPat,
    pub rhs: SObj,
}

#[cycle(objects)]
#[derive(Drop)]
pub enum STuple {
    /// `1`.
    One,
    List(Items<STuple>),
    Marked { mode: Mode, obj: SObj },
    Bare(SObj),
}

#[cycle(patterns)]
#[derive(Drop)]
pub enum SPat {
    /// `1`.
    One,
    /// The name is `None` where `_` is written.
    Entry { mode: SMode, name: Option<Name> },
    List(Items<SPat>),
}
