//! Tests of engines: what they keep after edits, and after a refused one.
#![tactic(auto)]

#[cfg(test)]
mod emission;
#[cfg(test)]
mod engines;
#[cfg(test)]
mod texts;
