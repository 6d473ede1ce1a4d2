//! What the whole language writes, as trees with their places in the text.
#![tactic(auto)]

mod surface;

pub use surface::{
    Arrow, Bound, Item, ItemBody, SArg, SExpr, SMode, SObj, SObjForm, SPat, SStep, STuple, SType,
    STypeForm, Span,
};
