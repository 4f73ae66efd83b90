//! Tests of `compile`, `replay`, `summary` and `generate` over whole documents.
#![tactic(auto)]

#[cfg(test)]
mod rows;
#[cfg(test)]
mod summaries;
