//! Records of 64 KiB, fed to a framer in chunks of 8 KiB.

use nfs_rpc::framer::Framer;
use nfs_rpc::record::frame_record;
use std::io;
use std::rt::Clock;
use std::time::Instant;

const RECORD: usize = 65_536;

const CHUNK: usize = 8_192;

const ROUNDS: u32 = 20_000;

/// Frames a few records, and prints how many there were and the sum of their bytes.
pub(crate) fn fixed<R: Print + AllocGlobal>(rt: &R) -> io::Result<()> {
    let stream = stream(rt)?;
    let mut framer = Framer::new(rt.alloc(), RECORD);
    let (records, sum) = frame(&mut framer, stream.as_slice(), 3);
    println!(rt; "framed {records} records, {sum}")
}

/// Prints the nanoseconds of a record, the least of five runs.
pub(crate) fn measure<R: Clock + Print + AllocGlobal>(rt: &R) -> io::Result<()> {
    let stream = stream(rt)?;
    let mut framer = Framer::new(rt.alloc(), RECORD);
    let mut least = u128::MAX;
    for _ in 0..5u8 {
        let start = Instant::now(rt)?;
        let (records, _) = frame(&mut framer, stream.as_slice(), ROUNDS);
        let time = start.elapsed(rt)?.as_nanos();
        least = least.min(time / u128::from(records.max(1)));
    }
    println!(rt; "framing {least}")
}

// A record as it stands on a stream.
fn stream<R: AllocGlobal>(rt: &R) -> io::Result<Vec<u8>> {
    let mut stream = Vec::with_capacity(rt.alloc(), RECORD + 4)?;
    stream.extend_from_slice(&frame_record(RECORD as u32))?;
    for i in 0..RECORD {
        stream.push((i % 251) as u8)?;
    }
    Ok(stream)
}

// Feeds the stream so many times: the records that came, and the sum of their last bytes.
fn frame(framer: &mut Framer, stream: &[u8], rounds: u32) -> (u64, u64) {
    let mut records = 0u64;
    let mut sum = 0u64;
    for _ in 0..rounds {
        for chunk in stream.chunks(CHUNK) {
            let Ok(fed) = framer.feed(chunk) else {
                return (records, sum);
            };
            if fed.ready {
                records = records.saturating_add(1);
                let last = framer.whole().last().copied().unwrap_or(0);
                sum = sum.saturating_add(u64::from(last));
                framer.next();
            }
        }
    }
    (records, sum)
}
