//! The words that the program was started with, once they are understood.
ghost use Rattle.nfs_command_line.specs.Invocations.{Asks};

use crate::invocation::Invocation;
use crate::questions::{CHECK, EXPORTS, WHY};
use crate::rows::{CommandRow, command_of};
use crate::runs::{CONTROL, DESCRIBE, EXTRACT, JOURNAL, REPLAY, SELF_CALL, SERVE};
use crate::usage::UsageFault;
use clap::error::ErrorKind;
use clap::{ArgMatches, Command, Error};
use std::alloc::{AllocError, Global};
use std::process::ExitCode;

/// The version of the program.
pub const VERSION: &str = "1.0.0";

// The commands, in the order of the help.
const COMMANDS: [CommandRow; 10] = [
    CHECK, WHY, EXPORTS, REPLAY, SERVE, CONTROL, JOURNAL, DESCRIBE, EXTRACT, SELF_CALL,
];

/// Words that ask for something.
#[derive(Drop)]
pub struct Words<'a> {
    matches: ArgMatches<'a>,
}

/// Why words ask for nothing more.
#[derive(Clone, Copy)]
pub enum Reported {
    /// They ask for help or the version, or one is faulty; that is printed, and the program ends.
    All(ExitCode),
    /// It can't be printed.
    Write,
    /// There is no memory.
    Memory,
}

impl From<AllocError> for Reported {
    ghost use Rattle.std.specs.Prelude.{◌≡◌};
    ghost use Rattle.nfs_command_line.specs.declared.words.Reported.TheVariants.{Memory};

    ghost from_gives = { λ _ reported. reported ≡ Memory };

    fn from(_error: AllocError) -> Reported {
        Reported::Memory
    }
}

impl<'a> Words<'a> {
    /// Understands the words. What is wrong with them is printed on standard error, the help and the
    /// version that they ask for on standard output.
    pub fn read<R: Print + Eprint>(
        rt: &R,
        alloc: Global,
        words: &'a [String],
    ) -> Result<Words<'a>, Reported> {
        match command(alloc)?.try_get_matches_from(words) {
            Ok(matches) => Words { matches }.checked(rt),
            Err(error) => Err(report(rt, &error)),
        }
    }

    // The words, unless what they say together is at fault.
    fn checked<R: Eprint>(self, rt: &R) -> Result<Words<'a>, Reported> {
        match self.fault() {
            None => Ok(self),
            Some(fault) => {
                let _ = eprintln!(rt; "error: {fault}");
                Err(Reported::All(ExitCode::from(2)))
            }
        }
    }

    fn fault(&self) -> Option<UsageFault> {
        self.request()?.fault()
    }

    /// What the words ask for, if anything.
    pub fn request(&self) -> Option<Invocation<'_, 'a>>
        ensures { Asks self.now.matches result }
    {
        let (name, words) = self.matches.subcommand()?;
        Invocation::of(name, words)
    }
}

// Prints what is wrong with words, or what they ask for.
fn report<R: Print + Eprint>(rt: &R, error: &Error) -> Reported {
    if error.kind() == ErrorKind::OutOfMemory {
        Reported::Memory
    } else if error.print(rt).is_err() {
        Reported::Write
    } else if error.exit_code() == 0 {
        Reported::All(ExitCode::SUCCESS)
    } else {
        Reported::All(ExitCode::from(2))
    }
}

// The program's command, with one for each row.
fn command<'a>(alloc: Global) -> Result<Command<'a>, AllocError> {
    with_commands(alloc, program(alloc)?, &COMMANDS)
}

// The program's command without others.
fn program<'a>(alloc: Global) -> Result<Command<'a>, AllocError> {
    Ok(
        described(Command::new(alloc, "nfs3d").bin_name("nfs3d")?)
            .subcommand_required(true)
            .arg_required_else_help(true),
    )
}

// A command with what the program's help and version say.
fn described<'a>(command: Command<'a>) -> Command<'a> {
    command
        .version(VERSION)
        .about("An in-memory NFS version 3 server with its MOUNT service and proved access rules")
        .after_help(
            "To try it, in the repository: nfs3d replay examples/e.tree examples/read.script",
        )
}

// A command with these others under it.
fn with_commands<'a>(
    alloc: Global,
    command: Command<'a>,
    rows: &[CommandRow],
) -> Result<Command<'a>, AllocError> {
    let mut all = command;
    for row in rows {
        all = all.subcommand(command_of(alloc, row)?)?;
    }
    Ok(all)
}
