//! What the portmapper of this machine knows of a service.

use nfs_args::program::{MOUNT_PROGRAM, NFS_PROGRAM, PROGRAM_VERSION};
use nfs_portmap::call::{Change, Mapping};
use nfs_portmap::fault::PortmapFault;
use nfs_portmap::portmapper::Portmapper;
use std::alloc::Global;
use std::net::Net;

/// NFS and MOUNT, as they are registered with the portmapper of this machine.
#[derive(Drop)]
pub struct Registration {
    portmapper: Portmapper,
    port: u16,
}

impl Registration {
    /// Registers both at a port. The faults of `Portmapper::reach` and `Portmapper::change`. Where the second is not
    /// registered, the first isn't either.
    pub fn at<R: Net>(rt: &R, alloc: Global, port: u16) -> Result<Registration, PortmapFault> {
        let mut portmapper = Portmapper::reach(rt, alloc)?;
        portmapper.change(Change::Set, mapping(NFS_PROGRAM, port))?;
        match portmapper.change(Change::Set, mapping(MOUNT_PROGRAM, port)) {
            Ok(()) => Ok(Registration { portmapper, port }),
            Err(fault) => {
                let _ = portmapper.change(Change::Unset, mapping(NFS_PROGRAM, port));
                Err(fault)
            }
        }
    }

    /// Has the portmapper forget both. What can't be removed is reported on standard error.
    pub fn remove<R: Eprint>(self, rt: &R) {
        let Registration {
            mut portmapper,
            port,
        } = self;
        for program in [NFS_PROGRAM, MOUNT_PROGRAM] {
            if let Err(fault) = portmapper.change(Change::Unset, mapping(program, port)) {
                let _ = eprintln!(rt;
                    "nfs3d: warning: program {program} is still registered: {fault}; rpcinfo -d {program} 3 removes it"
                );
            }
        }
    }
}

fn mapping(program: u32, port: u16) -> Mapping {
    Mapping {
        program,
        version: PROGRAM_VERSION,
        port,
    }
}
