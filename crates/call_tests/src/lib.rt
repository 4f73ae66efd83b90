//! Tests of single calls below the commands: diagrams, matches, messages, switches and streams.
#![tactic(auto)]

#[cfg(test)]
mod diagrams;
#[cfg(test)]
mod matches;
#[cfg(test)]
mod messages;
#[cfg(test)]
mod policies;
#[cfg(test)]
mod rewriting;
#[cfg(test)]
mod streams;
#[cfg(test)]
mod switches;
