//! Hereditary substitution: as a function on plain trees, bounded by the rank of what is put, and by code.
//! What the function makes is what the rules relate, and where an assignment of simple types types both sides,
//! it makes a tree or writes a number that passes.
#![tactic(auto)]

mod bound;
mod environment;
mod fault;
mod head;
mod laws;
mod object;
mod put;
mod step;
mod types;

pub use fault::PutFault;
pub use laws::{
    bounded_substitution, flattened_substitution, free_substitution, typed_substitution,
};
pub use object::with_elimination;
pub use put::{flatten_let, put_args, put_entries, put_expr, put_obj, put_tuple, put_ty};
pub use step::Rest;
