//! Documents: what a whole text describes.
#![tactic(auto)]

mod compiling;
mod document;
mod fault;
mod lawful;
mod laws;
mod limits;
mod names;
mod parts;
mod preparing;
mod queries;
mod reading;

pub use compiling::{CompileFault, compile, compile_classes, installed};
pub use document::Document;
pub use fault::DocumentFault;
pub use lawful::{
    documents_that_are_read_are_lawful, policies_that_are_read_are_lawful,
    predicates_that_are_read_are_lawful, queries_that_are_read_are_lawful,
    queries_that_are_read_have_few_atoms,
};
pub use laws::{has_one_compile_fault, has_one_document};
pub use limits::values_full;
pub use preparing::{PrepareFault, Prepared, classified, few_values, prepare};
pub use reading::read_document;
