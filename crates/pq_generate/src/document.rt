ghost use Rattle.std.specs.Prelude.{◌≡◌, ◌++◌, ◌-◌, ◌≤◌, length, IfOk, OnOk};
ghost use Rattle.std.specs.List.{flat_map};
ghost use Rattle.std.specs.String.{string_bytes};
ghost use Rattle.pq_generate.specs.Generated.{generated_text, link_line, part_line, switch_line, up_to};

use crate::lines::{write_first_query, write_link, write_part, write_second_query, write_switch};
use std::alloc::{AllocError, Global};

/// Appends the lines of the switches.
fn write_switches(number: u32, text: &mut String) -> Result<(), AllocError>
    requires { number ≤ 64 }
    ensures { OnOk result (string_bytes text.new ≡ string_bytes text.old ++ flat_map switch_line (up_to number)) }
{
    for before in 0..number {
        write_switch(before + 1, text)?;
    }
    Ok(())
}

/// Appends the lines of this many links.
fn write_links(number: u32, text: &mut String) -> Result<(), AllocError>
    requires { number ≤ 64 }
    ensures { OnOk result (string_bytes text.new ≡ string_bytes text.old ++ flat_map link_line (up_to number)) }
{
    for before in 0..number {
        write_link(before + 1, text)?;
    }
    Ok(())
}

/// Appends the lines of the parts.
fn write_parts(number: u32, text: &mut String) -> Result<(), AllocError>
    requires { number ≤ 64 }
    ensures { OnOk result (string_bytes text.new ≡ string_bytes text.old ++ flat_map (part_line number) (up_to number)) }
{
    for before in 0..number {
        write_part(number, before + 1, text)?;
    }
    Ok(())
}

/// The document of a row of 2 to 64 switches. It fails only where there is no memory for it.
///
/// Switch `i` has the name `si`, the datapath number `i`, and three ports: 1 leads to the switch before, 2 to the next, and 3
/// to its own network 10.0.i.0/24. A part for each network sends packets there. Query `q1` holds what went from the first
/// switch to the last, and `q2` what left by a port 3. The document is short enough to be compiled.
#[tactic(auto, unfolding(crate::specs::Generated::generated_text), using(crate::proofs::Short::generated_short))]
pub fn generate(alloc: Global, number: u32) -> Result<Vec<u8>, AllocError>
    requires least { 2 ≤ number }
    requires most { number ≤ 64 }
    ensures text { IfOk result (λ text. text.items ≡ generated_text number) }
    ensures short { IfOk result (λ text. length text.items ≤ 524288) }
{
    let mut text = String::new(alloc);
    write_switches(number, &mut text)?;
    write_links(number - 1, &mut text)?;
    write_parts(number, &mut text)?;
    write_first_query(number, &mut text)?;
    write_second_query(&mut text)?;
    Ok(text.into_bytes())
}
