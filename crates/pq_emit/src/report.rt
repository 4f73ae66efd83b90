//! The report: which instances hold the words of each tag.
ghost use Rattle.std.specs.Prelude.{◌≡◌, ◌<◌, ◌≤◌, ◌++◌, All, length, IfOk, OnOk};
ghost use Rattle.pq_layout.specs.Emission.{instances_at};
ghost use Rattle.pq_emit.specs.Held.{AreHeldBelow, report_to, row_at};

use pq_install::ReportRow;
use pq_min::Classes;
use pq_model::Instance;
use std::alloc::{AllocError, Global};

/// A row for each tag whose words an instance holds, ascending. Class c has the tag c + 1.
///
/// There are at most 4,094 classes, and the numbers that they accept are those of instances.
pub(crate) fn report(
    alloc: Global,
    classes: &Classes,
    instances: &[Instance],
) -> Result<Vec<ReportRow>, AllocError>
    requires few { length classes.now.rows ≤ 4094 }
    requires held { AreHeldBelow (length instances.now) classes.now }
    ensures { IfOk result (λ rows. rows.items ≡ report_to classes.now instances.now (length classes.now.rows)) }
{
    let mut rows = Vec::new(alloc);
    for class in 0..classes.count() {
        push_row(&mut rows, classes, class, instances)?;
    }
    Ok(rows)
}

/// Appends the row of a class, if an instance holds its words.
fn push_row(
    rows: &mut Vec<ReportRow>,
    classes: &Classes,
    class: u64,
    instances: &[Instance],
) -> Result<(), AllocError>
    requires class { class < length classes.now.rows }
    requires few { length classes.now.rows ≤ 4094 }
    requires held { AreHeldBelow (length instances.now) classes.now }
    ensures { OnOk result (rows.new.items ≡ rows.old.items ++ row_at classes.now instances.now class) }
{
    let accepted = classes.accepted(class);
    if accepted.is_empty() {
        return Ok(());
    }
    let pairs = instances_at(*rows.allocator(), instances, accepted)?;
    rows.push(ReportRow {
        tag: class as u16 + 1,
        pairs,
    })?;
    Ok(())
}

/// The instances with these numbers, in their order.
fn instances_at(
    alloc: Global,
    instances: &[Instance],
    numbers: &[u32],
) -> Result<Vec<Instance>, AllocError>
    requires { All (λ i. i < length instances.now) numbers.now }
    ensures { IfOk result (λ pairs. pairs.items ≡ instances_at instances.now numbers.now) }
{
    let mut pairs = Vec::with_capacity(alloc, numbers.len())?;
    for number in numbers {
        let instance = &instances[*number as usize];
        pairs.push(Instance {
            query: instance.query,
            label: instance.label.copy(alloc)?,
        })?;
    }
    Ok(pairs)
}
