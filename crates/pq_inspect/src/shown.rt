ghost use Rattle.std.specs.Prelude.{◌≡◌, false, IfOk};
ghost use Rattle.serde_json.specs.Data.{Data};
ghost use Rattle.serde_json.specs.View.{view};
ghost use Rattle.serde_json.specs.Written.{has_float};
ghost use Rattle.pq_inspect.specs.Inspection.{list};

use serde_json::Value;
use std::alloc::{AllocError, Global};

/// What is shown as JSON.
pub trait Shown {
    /// What it is shown as.
    ghost shown_as: { Self → Data };

    /// The JSON, in which no number is a float; it fails only where there is no memory for it.
    fn shown(&self, alloc: Global) -> Result<Value, AllocError>
        ensures value { IfOk result (λ value. view value ≡ shown_as self.now) }
        ensures exact { has_float (shown_as self.now) ≡ false };
}

/// A list of what each value is shown as.
pub fn list<T: Shown>(alloc: Global, values: &[T]) -> Result<Value, AllocError>
    ensures { IfOk result (λ value. view value ≡ list T.Shown.shown_as values.now) }
{
    let mut items = Vec::new(alloc);
    for value in values {
        items.push(value.shown(alloc)?)?;
    }
    Ok(Value::Array(items))
}
