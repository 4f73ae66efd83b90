ghost use Rattle.std.specs.Prelude.{◌≡◌, ◌++◌, length, OnOk};
ghost use Rattle.std.specs.List.{flat_map};
ghost use Rattle.std.specs.Int.{w16, to_be_bytes};
ghost use Rattle.pq_model.specs.Install.{pair_bytes, row_bytes};

use crate::install::ReportRow;
use crate::numbers::{write_count, write_u64s};
use pq_model::Instance;
use pq_oxm::write_length;
use std::alloc::AllocError;

// An instance: the index of its query, the count of its label's values, and the values.
fn write_pair(pair: &Instance, into: &mut Vec<u8>) -> Result<(), AllocError>
    ensures { OnOk result (into.new.items ≡ into.old.items ++ pair_bytes pair.now) }
{
    let values = pair.label.values();
    into.extend_from_slice(&pair.query.to_be_bytes())?;
    write_count(values.len(), into)?;
    write_u64s(values, into)
}

fn write_pairs(pairs: &[Instance], into: &mut Vec<u8>) -> Result<(), AllocError>
    ensures { OnOk result (into.new.items ≡ into.old.items ++ flat_map pair_bytes pairs.now) }
{
    for pair in pairs {
        write_pair(pair, into)?;
    }
    Ok(())
}

// A row: its tag, the count of its instances, and the instances.
fn write_row(row: &ReportRow, into: &mut Vec<u8>) -> Result<(), AllocError>
    ensures { OnOk result (into.new.items ≡ into.old.items ++ row_bytes row.now) }
{
    into.extend_from_slice(&row.tag.to_be_bytes())?;
    write_length(row.pairs.len(), into)?;
    write_pairs(&row.pairs, into)
}

/// Appends the count of the rows and the rows.
pub fn write_rows(rows: &[ReportRow], into: &mut Vec<u8>) -> Result<(), AllocError>
    ensures { OnOk result (into.new.items
        ≡ into.old.items ++ to_be_bytes w16 (length rows.now) ++ flat_map row_bytes rows.now) }
{
    write_length(rows.len(), into)?;
    for row in rows {
        write_row(row, into)?;
    }
    Ok(())
}
