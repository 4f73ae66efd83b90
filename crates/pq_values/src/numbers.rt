//! Sets of stated numbers.
ghost use Rattle.std.specs.Prelude.{◌≡◌, OnOk};
ghost use Rattle.pq_fields.specs.declared.field.Field.TheVariants.{Port};
ghost use Rattle.pq_values.specs.Known.{with_each, with_numbers, with_one, with_switch};

use indexmap::IndexSet;
use pq_fields::Field;
use pq_topo::Switch;
use std::alloc::AllocError;

/// Adds a number of the field.
pub(crate) fn put_number(
    field: Field,
    number: u64,
    known: &mut IndexSet<(Field, u64)>,
) -> Result<(), AllocError>
    ensures { OnOk result (known.new.keys ≡ with_one (field, number) known.old.keys) }
{
    match known.insert((field, number)) {
        Ok(_) => Ok(()),
        Err(_) => Err(AllocError),
    }
}

/// Adds numbers of the field.
pub(crate) fn put_numbers(
    field: Field,
    numbers: &[u64],
    known: &mut IndexSet<(Field, u64)>,
) -> Result<(), AllocError>
    ensures { OnOk result (known.new.keys ≡ with_numbers field numbers.now known.old.keys) }
{
    for number in numbers {
        put_number(field, *number, known)?;
    }
    Ok(())
}

/// Adds ports.
fn put_ports(ports: &[u32], known: &mut IndexSet<(Field, u64)>) -> Result<(), AllocError>
    ensures { OnOk result (known.new.keys ≡ with_numbers Port ports.now known.old.keys) }
{
    for port in ports {
        put_number(Field::Port, u64::from(*port), known)?;
    }
    Ok(())
}

/// Adds the ports of switches.
pub(crate) fn put_switches(
    switches: &[Switch],
    known: &mut IndexSet<(Field, u64)>,
) -> Result<(), AllocError>
    ensures { OnOk result (known.new.keys ≡ with_each with_switch switches.now known.old.keys) }
{
    for switch in switches {
        put_ports(&switch.ports, known)?;
    }
    Ok(())
}
