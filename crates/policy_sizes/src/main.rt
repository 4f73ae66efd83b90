//! How large the stores are in which the diagrams of long policies are built.
#![tactic(auto)]

mod broadcasts;
mod routes;
mod sizes;

use sizes::{broadcast_size, routes_size};
use std::io;

fn main(rt: HostRuntime) -> io::Result<()> {
    let alloc = rt.alloc();
    println!(rt; "100 routes: {} in the store", routes_size(alloc, 100)?)?;
    println!(rt; "1000 routes: {} in the store", routes_size(alloc, 1000)?)?;
    println!(rt;
        "broadcasts at 24 ports: {} in the store",
        broadcast_size(alloc, 24)?
    )?;
    println!(rt;
        "broadcasts at 256 ports: {} in the store",
        broadcast_size(alloc, 256)?
    )
}
