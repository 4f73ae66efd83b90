//! Tests of whole commands over sources and sinks in memory.
#![tactic(auto)]

#[cfg(test)]
mod commands;
#[cfg(test)]
mod cuts;
#[cfg(test)]
mod inspections;
#[cfg(test)]
mod replays;
#[cfg(test)]
mod two_tables;
