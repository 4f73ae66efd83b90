//! Laws of lists that the standard library lacks; this crate has no code.
#![tactic(auto)]
