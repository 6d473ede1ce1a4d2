//! Items with their sugar removed.
#![tactic(auto)]

mod earliest;
mod fault;
mod first;
mod item;
mod item_fault;
mod kind_place;
mod laws;
mod leading;
mod limits;
mod not_async;
mod number;
mod object;
mod plain;
mod redex;
mod types;

pub use fault::SugarFault;
pub use item::desugar;
pub use laws::worked_sugar;
pub use plain::{
    PBinder, PClass, PElim, PEntry, PExpr, PMarked, PName, PObj, PObjForm, PStep, PTele, PTy,
    PTyForm, Plain, PlainBody,
};
