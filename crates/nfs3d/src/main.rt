//! `nfs3d`: an NFS version 3 server with its MOUNT service, in memory.
#![tactic(auto)]

mod commands;
mod self_calling;
mod serve;

use nfs_source::fault::Fault;
use std::alloc::AllocError;
use std::process::ExitCode;
use std::rt::Env;
use std::{env, io};

fn main(rt: HostRuntime) -> ExitCode {
    let done = match arguments(&rt) {
        Ok(words) => commands::run(&rt, rt.alloc(), words.as_slice()),
        Err(fault) => Err(fault.into()),
    };
    match done {
        Ok(code) => code,
        Err(diagnostic) => {
            diagnostic.report(&rt);
            ExitCode::from(diagnostic.fault.status())
        }
    }
}

// The words that the program was started with.
fn arguments<R: Env + AllocGlobal>(rt: &R) -> Result<Vec<String>, Fault> {
    match env::args(rt) {
        Ok(args) => Ok(args.collect::<Vec<String>>(rt.alloc())?),
        Err(error) if error.kind() == io::ErrorKind::OutOfMemory => Err(Fault::Memory(AllocError)),
        Err(_) => Err(Fault::NoText),
    }
}
