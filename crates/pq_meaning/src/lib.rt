//! What a document means, the diagram of what all its parts forward, and the laws that join the layers below a compiler.
#![tactic(auto)]

mod laws;
mod markings;
mod parts;
mod tags;

pub use laws::{
    compiled_implements, documents_have_one_set_of_trees, meaning_exists, meanings_are_laid_out,
    one_install, parts_depart, parts_ignore_lacking,
};
pub use markings::{Marking, tags_are_fewest, tags_are_marks};
pub use parts::parts_forward;
pub use tags::classes_tag;
