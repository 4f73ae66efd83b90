//! The lines of a generated document.
ghost use Rattle.std.specs.Prelude.{◌≡◌, ◌++◌, ◌≤◌, OnOk};
ghost use Rattle.std.specs.String.{string_bytes};
ghost use Rattle.pq_generate.specs.Generated.{
  first_query,
  hop_text,
  hops_text,
  link_line,
  part_line,
  port_towards,
  second_query,
  switch_line,
};

use std::alloc::AllocError;
use std::fmt::Write;

/// Appends the line of switch `i`.
pub fn write_switch(i: u32, text: &mut String) -> Result<(), AllocError>
    ensures { OnOk result (string_bytes text.new ≡ string_bytes text.old ++ switch_line i) }
{
    write!(text, "switch s{i} = {i} ports 1, 2, 3;\n")
}

/// Appends the line of the link between switch `i` and the next.
pub fn write_link(i: u32, text: &mut String) -> Result<(), AllocError>
    requires { i ≤ 64 }
    ensures { OnOk result (string_bytes text.new ≡ string_bytes text.old ++ link_line i) }
{
    let next = i + 1;
    write!(text, "link s{i} 2 s{next} 1;\n")
}

/// The port by which switch `j` sends towards the network of switch `i`.
fn port_towards(i: u32, j: u32) -> u32
    ensures { result ≡ port_towards i j }
{
    if j < i {
        2
    } else if j == i {
        3
    } else {
        1
    }
}

/// Appends what switch `j` does with packets to the network of switch `i`.
fn write_hop(i: u32, j: u32, text: &mut String) -> Result<(), AllocError>
    ensures { OnOk result (string_bytes text.new ≡ string_bytes text.old ++ hop_text i j) }
{
    let port = port_towards(i, j);
    write!(text, "filter(switch=s{j}) >> fwd({port})")
}

/// Appends what each of `number` switches does with packets to the network of switch `i`.
fn write_hops(number: u32, i: u32, text: &mut String) -> Result<(), AllocError>
    requires { number ≤ 64 }
    ensures { OnOk result (string_bytes text.new ≡ string_bytes text.old ++ hops_text number i) }
{
    if number == 0 {
        return Ok(());
    }
    write_hop(i, 1, text)?;
    for after in 0..number - 1 {
        text.push_str(" + ")?;
        write_hop(i, after + 2, text)?;
    }
    Ok(())
}

/// Appends the line of the part for the network of switch `i` among `number` switches.
pub fn write_part(number: u32, i: u32, text: &mut String) -> Result<(), AllocError>
    requires { number ≤ 64 }
    ensures { OnOk result (string_bytes text.new ≡ string_bytes text.old ++ part_line number i) }
{
    write!(text, "part p{i} = filter(ipv4_dst=10.0.{i}.0/24) >> (")?;
    write_hops(number, i, text)?;
    text.push_str(");\n")
}

/// Appends the line of the query for what went from the first of `number` switches to the last.
pub fn write_first_query(number: u32, text: &mut String) -> Result<(), AllocError>
    ensures { OnOk result (string_bytes text.new ≡ string_bytes text.old ++ first_query number) }
{
    write!(
        text,
        "query q1 = in_atom(switch=s1) ^ in_atom(true)* ^ in_atom(switch=s{number});\n"
    )
}

/// Appends the line of the query for what left by a port 3.
pub fn write_second_query(text: &mut String) -> Result<(), AllocError>
    ensures { OnOk result (string_bytes text.new ≡ string_bytes text.old ++ second_query) }
{
    text.push_str("query q2 = in_atom(true)* ^ out_atom(port=3);\n")
}
