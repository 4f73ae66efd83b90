//! The layout of a switch's tables as definitions: what each tree of a table says of a packet, which entries, groups and
//! messages trees stand for, and what tables so made send.
#![tactic(auto)]
