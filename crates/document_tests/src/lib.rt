//! Tests of documents: what texts describe, and where they are refused.
#![tactic(auto)]

#[cfg(test)]
mod documents;
