//! How many numbers a document states.
ghost use Rattle.std.specs.Prelude.{◌≡◌, IfOk};
ghost use Rattle.pq_compile.specs.Documents.{document_tree};
ghost use Rattle.pq_compile.specs.Prepared.{full_field};

use crate::document::Document;
use pq_fields::Field;
use std::alloc::{AllocError, Global};

/// The first field, in field order, for which a document states more different numbers than its limit allows, with how many
/// these are; `None` exactly where no field is above its limit.
///
/// Numbers are stated in tests, writes and lists of values; for ports also by `Fwd` and by the ports of switches. The limits
/// are those of `pq_values`. It fails only where there is not enough memory.
pub fn values_full(alloc: Global, document: &Document) -> Result<Option<(Field, u64)>, AllocError>
    ensures { IfOk result (λ full. full ≡ full_field (document_tree document.now)) }
{
    let full = pq_values::values_full(
        alloc,
        &document.topology,
        &document.parts,
        &document.queries,
    )?;
    Ok(full)
}
