//! The descriptions that are served.

use nfs_load::description::load;
use nfs_load::loaded::Loaded;
use std::alloc::Global;
use std::io;

/// As in `examples/e.tree`.
pub(crate) const EXAMPLE: &[u8] = b"server 0102030405060708\n\
    volume /a 20000000 12 0755 0 0\n\
    export 10.0.0.0/24 rw\n\
    export 10.0.1.0/24 ro,no_root_squash\n\
    export 10.0.2.9 rw,all_squash,anonuid=7,anongid=7\n\
    dir /pub 0777 1 1\n\
    file /pub/x 0711 1 1 68656c6c6f\n\
    file /pub/n 0710 1 1 68656c6c6f\n\
    file /g 0640 1 0 6f6b\n\
    dir /own 0007 5 5\n\
    file /zero 0000 5 5 -\n\
    volume /b 1000 4 0777 0 0\n\
    export 10.0.0.0/24 rw,no_root_squash\n";

/// A volume with room for many files, and none.
pub(crate) const ROOM: &[u8] = b"server 0102030405060708\n\
    volume /a 1000000000 1000000 0755 0 0\n\
    export 10.0.0.0/24 rw\n";

/// What a description says. Refused without memory.
pub(crate) fn loaded(alloc: Global, text: &[u8]) -> io::Result<Loaded> {
    match load(alloc, text) {
        Ok(loaded) => Ok(loaded),
        Err(_) => Err(io::Error::from(io::ErrorKind::OutOfMemory)),
    }
}
