//! Streams of records, each served to its end.

use nfs_attrs::moment::Moment;
use nfs_exports::addr::Addr;
use nfs_server::moments::Moments;
use nfs_server::server::Server;
use nfs_server::stream::serve_stream;
use nfs_xdr::device::Device;
use rows::answers::{debug_text, digits, then};
use rows::stutter::Stutter;
use std::alloc::Global;

// More reads than a stream of the rows takes.
const READS: u32 = 10_000;

// A clock that stands still.
#[derive(Drop)]
struct Still;

impl Moments for Still {
    ghost reports = { λ old moment new. Unit {0} };

    fn now(&mut self) -> Moment {
        Moment {
            seconds: 100,
            nanos: 0,
        }
    }
}

/// What serving a stream of these bytes comes to, and the replies.
pub(crate) fn serve(
    alloc: Global,
    server: &mut Server,
    addr: Addr,
    bytes: &[u8],
) -> Option<String> {
    let mut replies = Device::new(Vec::new(alloc));
    let mut audit = Device::new(Vec::new(alloc));
    let served = serve_stream(
        alloc,
        server,
        addr,
        &mut Device::new(bytes),
        &mut replies,
        &mut audit,
        &mut Still,
        READS,
    );
    let written = digits(alloc, replies.into_inner().as_slice())?;
    then(debug_text(alloc, served)?, written.as_str())
}

/// What comes out of serving a stream of these bytes to a writer that takes a byte a call, and fails
/// from its call `k` on.
pub(crate) fn written(
    alloc: Global,
    server: &mut Server,
    addr: Addr,
    bytes: &[u8],
    k: u64,
) -> Vec<u8> {
    let mut replies = Stutter::new(Device::new(Vec::new(alloc)), 1, k.max(1));
    let mut audit = Device::new(Vec::new(alloc));
    let _served = serve_stream(
        alloc,
        server,
        addr,
        &mut Device::new(bytes),
        &mut replies,
        &mut audit,
        &mut Still,
        READS,
    );
    replies.into_inner().into_inner()
}
