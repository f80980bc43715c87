//! Why a program isn't registered.

use std::io;
use thiserror::Error;

/// Why a program isn't registered, and what to do.
#[derive(Debug, Drop, Error)]
pub enum PortmapFault {
    /// No port below 1024 can be had to ask from: what the system says.
    #[error("a portmapper takes changes only from a port below 1024, and the system gives none ({0}); run as root or with CAP_NET_BIND_SERVICE, or leave out --register")]
    NoPort(io::Error),
    /// Nothing answers: what the system says.
    #[error("no portmapper answers at 127.0.0.1:111 ({0}); start rpcbind, or leave out --register")]
    NoAnswer(io::Error),
    /// The portmapper has another port for the program, or doesn't let this one change it.
    #[error("the portmapper did not register program {0}; see with rpcinfo -p whether another server has it: stop that one, or remove what an earlier run left with rpcinfo -d {0} 3")]
    Refused(u32),
    /// There is no memory.
    #[error("out of memory")]
    Memory,
}
