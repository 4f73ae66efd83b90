ghost use Rattle.pq_inspect.specs.Inspection.{link_data, natural};

use crate::shown::{Shown, list};
use pq_topo::Link;
use serde_json::Value;
use std::alloc::{AllocError, Global};

impl Shown for u32 {
    ghost shown_as = { natural };

    fn shown(&self, _alloc: Global) -> Result<Value, AllocError> {
        Ok(Value::from(*self))
    }
}

impl Shown for u64 {
    ghost shown_as = { natural };

    fn shown(&self, _alloc: Global) -> Result<Value, AllocError> {
        Ok(Value::from(*self))
    }
}

impl Shown for Link {
    ghost shown_as = { link_data };

    #[tactic(auto, using(crate::proofs::Floats::in_link))]
    fn shown(&self, alloc: Global) -> Result<Value, AllocError> {
        let (datapath, port) = self.first;
        let (other_datapath, other_port) = self.second;
        list(
            alloc,
            &[datapath, port as u64, other_datapath, other_port as u64],
        )
    }
}
