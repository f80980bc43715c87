//! A description without memory, and what the tests load.
use crate::ROUNDS;
use ballast::Ballast;
use nfs_load::description::load;
use nfs_load::load_error::LoadError;
use nfs_load::loaded::Loaded;
use nfs_server::server::Server;
use std::alloc::{AllocError, Global};
use std::test::Fail;

// The directory 2, and in it the file 3, the link 4 and the directory 5; the file has one name more.
const TEXT: &[u8] = b"server 0102030405060708\n\
    volume /a 20000000 12 0755 0 0\n\
    export 10.0.0.0/24 rw\n\
    dir /pub 0777 1 1\n\
    file /pub/x 0711 1 1 68656c6c6f\n\
    link /pub/l 1 1 x\n\
    hard /pub/h /pub/x\n\
    dir /pub/e 0777 1 1\n";

/// A volume with two directories, a file and a link in it. Refused without memory.
pub(crate) fn loaded(alloc: Global) -> Result<Loaded, AllocError> {
    match load(alloc, TEXT) {
        Ok(loaded) => Ok(loaded),
        Err(_) => Err(AllocError),
    }
}

/// A server of it that has seen no call. Refused without memory.
pub(crate) fn server(alloc: Global) -> Result<Server, AllocError> {
    Server::new(alloc, loaded(alloc)?, 128)
}

// Why it isn't loaded, if it isn't.
fn fault(alloc: Global) -> Option<LoadError> {
    load(alloc, TEXT).err()
}

// How often a description was refused until there was memory; none where it was at fault.
fn refusals(alloc: Global) -> Result<Option<u32>, AllocError> {
    let mut ballast = Ballast::new(alloc)?;
    for refused in 0..ROUNDS {
        match fault(alloc) {
            None => return Ok(Some(refused)),
            Some(LoadError::Memory) if ballast.lighten() => {}
            Some(_) => return Ok(None),
        }
    }
    Ok(None)
}

#[test]
fn a_description_is_refused_until_there_is_memory(rt: HostRuntime) -> Result<(), Fail> {
    let refused = refusals(rt.alloc())?;
    assert!(rt; refused.is_some_and(|count| count > 0));
    Ok(())
}
