//! The grammar of documents and of edits, and the parser of their tokens.
#![tactic(auto)]

mod ahead;
mod class;
mod classes;
mod fault;
mod grammar;
mod laws;
mod mark;
mod parser;
mod sort;
mod symbol;
mod tables;

pub use class::{Class, is_class};
pub use classes::{class_of, class_of_text, lexemes_of};
pub use fault::SentenceFault;
pub use grammar::alternatives;
pub use laws::{has_one_fault, has_one_tree};
pub use mark::{Lexeme, Mark};
pub use parser::read_marks;
pub use sort::Sort;
pub use symbol::{Role, Symbol};
