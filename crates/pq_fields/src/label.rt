ghost use Rattle.std.specs.Prelude.{◌≡◌, IfOk};

use std::alloc::{AllocError, Global};
use std::marker::Model;

/// The values of a query's grouped fields, one for each, in the order of the query's text.
#[derive(Debug, Drop)]
pub struct Label {
    values: Vec<u64>,
}

impl Model for Label {
    ghost use Rattle.std.specs.Prelude.{ℕ, List};

    ghost Value = { List ℕ };

    ghost view = { λ l. l.values.items };
}

impl Label {
    /// The label with these values.
    pub fn of(values: Vec<u64>) -> Label
        ensures { result ≡ values.items }
    {
        Label { values }
    }

    /// The values, in order.
    pub fn values(&self) -> &[u64]
        ensures { result.now ≡ self.now }
    {
        &self.values
    }

    /// An equal label; it fails only where there is no memory for it.
    pub fn copy(&self, alloc: Global) -> Result<Label, AllocError>
        ensures { IfOk result (λ label. label ≡ self.now) }
    {
        let values = Vec::from_slice(alloc, &self.values)?;
        Ok(Label { values })
    }
}
