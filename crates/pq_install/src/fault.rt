ghost use Rattle.std.specs.Prelude.{◌≡◌};
ghost use Rattle.pq_install.specs.declared.fault.Fault.TheVariants.{Memory};

use std::alloc::{AllocError, AllocFailed};
use thiserror::Error;

/// Why a part of an install was not read.
#[derive(Debug, Drop)]
pub enum Fault {
    /// A unit is missing, cut or unlawful, and this many bytes are left from its first on.
    Damaged { left: usize },
    /// There is not enough memory.
    Memory,
}

impl From<AllocError> for Fault {
    ghost from_gives = { λ _ fault. fault ≡ Memory };

    fn from(_error: AllocError) -> Fault {
        Fault::Memory
    }
}

impl<T: Drop> From<AllocFailed<T>> for Fault {
    ghost from_gives = { λ _ fault. fault ≡ Memory };

    fn from(_error: AllocFailed<T>) -> Fault {
        Fault::Memory
    }
}

/// Why no install was read.
#[derive(Debug, Drop, Error)]
pub enum InstallFault {
    /// At this byte a unit is missing, cut or unlawful after the units before it.
    #[error("the install is damaged at byte {at}")]
    Damaged { at: usize },
    /// There is not enough memory.
    #[error("out of memory")]
    Memory,
}
