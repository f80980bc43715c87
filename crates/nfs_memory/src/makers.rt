//! What is made, and files that are numbered, without memory.
use crate::ROUNDS;
use crate::described::server;
use ballast::Ballast;
use nfs_handles::fault::PutFault;
use nfs_handles::files::Files;
use nfs_handles::number::Number;
use nfs_server::reply_buf::ReplyBuf;
use nfs_server::sessions::Sessions;
use nfs_xdr::output::Output;
use std::alloc::{AllocError, Global};
use std::test::Fail;

// Each of these makers.
#[derive(Clone, Copy)]
enum Maker {
    Output,
    Reply,
    Sessions,
}

fn is_made(alloc: Global, maker: Maker) -> bool {
    match maker {
        Maker::Output => Output::new(alloc, 10_000).is_ok(),
        Maker::Reply => ReplyBuf::new(alloc).is_ok(),
        Maker::Sessions => sessions(alloc).is_ok(),
    }
}

fn sessions(alloc: Global) -> Result<Sessions, AllocError> {
    let server = server(alloc)?;
    Sessions::new(alloc, server)
}

// How often a maker was refused until there was memory; none where it always was.
fn refusals(alloc: Global, maker: Maker) -> Result<Option<u32>, AllocError> {
    let mut ballast = Ballast::new(alloc)?;
    for refused in 0..ROUNDS {
        if is_made(alloc, maker) {
            return Ok(Some(refused));
        }
        if !ballast.lighten() {
            break;
        }
    }
    Ok(None)
}

#[test]
fn makers_are_refused_until_there_is_memory(rt: HostRuntime) -> Result<(), Fail> {
    for maker in &[Maker::Output, Maker::Reply, Maker::Sessions] {
        let refused = refusals(rt.alloc(), *maker)?;
        assert!(rt; refused.is_some_and(|count| count > 0));
    }
    Ok(())
}

const KEY: [u8; 8] = [1, 2, 3, 4, 5, 6, 7, 8];

// The number that file 7 is put under; none where the value is handed back, and nothing changed.
fn put(files: &mut Files<u64>) -> Result<Option<u64>, Changed> {
    match files.put(10) {
        Ok(number) => Ok(Some(number.0)),
        Err(PutFault::Memory(10, _)) if files.next() == 7 => Ok(None),
        Err(_) => Err(Changed),
    }
}

// What was refused changed something all the same.
#[derive(Clone, Copy)]
struct Changed;

// How often a value was handed back until it was put as file 7 and stands there.
fn handed_back(alloc: Global) -> Result<Option<u32>, AllocError> {
    let mut files = Files::new(alloc, KEY, 7);
    let mut ballast = Ballast::new(alloc)?;
    for refused in 0..ROUNDS {
        match put(&mut files) {
            Ok(Some(7)) if files.get(Number::new(7)) == Some(&10) => return Ok(Some(refused)),
            Ok(None) if files.get(Number::new(7)).is_none() && ballast.lighten() => {}
            _ => return Ok(None),
        }
    }
    Ok(None)
}

#[test]
fn a_file_without_memory_is_handed_back(rt: HostRuntime) -> Result<(), Fail> {
    let refused = handed_back(rt.alloc())?;
    assert!(rt; refused.is_some_and(|count| count > 0));
    Ok(())
}
