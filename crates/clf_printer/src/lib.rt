//! The printed text of objects, types and entries.
#![tactic(auto)]

mod entries;
mod laws;
mod metas;
mod objects;
mod place;
mod text;
mod types;
mod words;

pub use laws::worked_texts;
pub use metas::{note_class, note_object, note_type};
pub use objects::push_object;
pub use text::{declaration_text, entry_text, object_text, type_text};
pub use words::{push_number, push_place, push_variable};
