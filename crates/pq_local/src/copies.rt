//! Copies of what is taken over of an install.
ghost use Rattle.std.specs.Prelude.{◌≡◌, IfOk};

use pq_install::ReportRow;
use pq_model::{Instance, Message};
use std::alloc::{AllocError, Global};

/// Equal messages, in order.
pub(crate) fn messages_copied(
    alloc: Global,
    messages: &[Message],
) -> Result<Vec<Message>, AllocError>
    ensures { IfOk result (λ all. all.items ≡ messages.now) }
{
    let mut all = Vec::with_capacity(alloc, messages.len())?;
    for message in messages {
        all.push(message.copy(alloc)?)?;
    }
    Ok(all)
}

/// Equal instances, in order.
fn instances_copied(alloc: Global, instances: &[Instance]) -> Result<Vec<Instance>, AllocError>
    ensures { IfOk result (λ all. all.items ≡ instances.now) }
{
    let mut all = Vec::with_capacity(alloc, instances.len())?;
    for instance in instances {
        all.push(Instance {
            query: instance.query,
            label: instance.label.copy(alloc)?,
        })?;
    }
    Ok(all)
}

/// Equal rows, in order.
pub(crate) fn report_copied(alloc: Global, rows: &[ReportRow]) -> Result<Vec<ReportRow>, AllocError>
    ensures { IfOk result (λ all. all.items ≡ rows.now) }
{
    let mut all = Vec::with_capacity(alloc, rows.len())?;
    for row in rows {
        all.push(ReportRow {
            tag: row.tag,
            pairs: instances_copied(alloc, &row.pairs)?,
        })?;
    }
    Ok(all)
}
