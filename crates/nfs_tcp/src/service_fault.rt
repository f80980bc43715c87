//! What ends a service.

use std::alloc::AllocError;
use std::io::{self, ErrorKind};

/// Why a service ends before it has served all its connections.
#[derive(Debug, Drop)]
pub enum ServiceFault {
    /// The network fails.
    Network(io::Error),
    /// What is to be printed can't be written.
    Write,
    /// There is no memory.
    Memory,
}

impl From<io::Error> for ServiceFault {
    ghost use Rattle.std.specs.Prelude.{◌≡◌, ◌⊎◌};
    ghost use Rattle.nfs_tcp.specs.declared.service_fault.ServiceFault.TheVariants.{Memory, Network};

    ghost from_gives = { λ error fault. (fault ≡ Network error) ⊎ (fault ≡ Memory) };

    fn from(error: io::Error) -> ServiceFault {
        if error.kind() == ErrorKind::OutOfMemory {
            ServiceFault::Memory
        } else {
            ServiceFault::Network(error)
        }
    }
}

impl From<AllocError> for ServiceFault {
    ghost use Rattle.std.specs.Prelude.{◌≡◌};
    ghost use Rattle.nfs_tcp.specs.declared.service_fault.ServiceFault.TheVariants.{Memory};

    ghost from_gives = { λ _ fault. fault ≡ Memory };

    fn from(_error: AllocError) -> ServiceFault {
        ServiceFault::Memory
    }
}
