//! Tests of sessions: of edits, and with a switch.
#![tactic(auto)]

#[cfg(test)]
mod edits;
#[cfg(test)]
mod hexadecimal;
#[cfg(test)]
mod speaking;
