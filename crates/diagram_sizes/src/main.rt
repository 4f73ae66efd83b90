//! How large the diagrams of long disjunctions are, and the stores in which they are built.
#![tactic(auto)]

mod disjunctions;
mod sizes;

use disjunctions::Tested;
use pq_fields::Field;
use sizes::list_sizes;
use std::io;

fn main(rt: HostRuntime) -> io::Result<()> {
    let alloc = rt.alloc();
    let ports = list_sizes(alloc, Tested::Numbers(Field::Port), 512, 167)?;
    println!(rt; "512 ports: {ports}")?;
    let macs = list_sizes(alloc, Tested::Numbers(Field::EthSrc), 1024, 611)?;
    println!(rt; "1024 MACs: {macs}")?;
    let prefixes = list_sizes(alloc, Tested::Networks, 1000, 617)?;
    println!(rt; "1000 prefixes: {prefixes}")
}
