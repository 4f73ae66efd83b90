ghost use Rattle.pq_inspect.specs.Inspection.{pair_data, row_data};

use crate::shown::{Shown, list};
use pq_install::ReportRow;
use pq_model::Instance;
use serde_json::{Value, json};
use std::alloc::{AllocError, Global};

impl Shown for Instance {
    ghost shown_as = { pair_data };

    #[tactic(auto, using(crate::proofs::Floats::in_pair))]
    fn shown(&self, alloc: Global) -> Result<Value, AllocError> {
        let label = list(alloc, self.label.values())?;
        json!(in alloc; {"label": label, "query": self.query})
    }
}

impl Shown for ReportRow {
    ghost shown_as = { row_data };

    #[tactic(auto, using(crate::proofs::Floats::in_row))]
    fn shown(&self, alloc: Global) -> Result<Value, AllocError> {
        let pairs = list(alloc, &self.pairs)?;
        json!(in alloc; {"pairs": pairs, "tag": self.tag})
    }
}
