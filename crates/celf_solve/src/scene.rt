//! What is at hand between the reading of an item and its answer.
use celf_conform::Misfit;
use celf_constraints::Equations;
use celf_unify::Clash;
use clf_sig::Core;
use clf_syntax::Ty;
use metavars::Store;
use sqlite_items::Items;

/// The tree of an item, the types of the constants past those of the signature, and the store of the metavariables in
/// them, none of which is solved.
#[derive(Drop)]
pub struct Scene {
    pub core: Core,
    pub types: Items<Ty>,
    pub store: Store,
}

/// The same with all solutions put in, and the store in which they are.
#[derive(Drop)]
pub struct Found {
    pub core: Core,
    pub types: Items<Ty>,
    pub store: Store,
}

/// What is gathered of a tree, or what is wrong at the first place where it does not conform to simple types.
#[derive(Drop)]
pub enum Posed {
    Equations(Equations),
    Misfit(Misfit),
}

/// The equations are solved, or some are left, each of which is stuck, or they have no solution.
#[derive(Drop)]
pub enum Solved {
    Found(Found),
    Stuck(Equations),
    Clash(Clash),
}
