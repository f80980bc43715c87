//! Measures the way of a call. Run with no words it does a small fixed amount of the same work,
//! and prints what came of it; with the name of a measure it prints nanoseconds.
#![tactic(auto)]

mod answers;
mod arguments;
mod calls;
mod changes;
mod described;
mod framing;
mod pages;
mod records;
mod reply_cache;
mod sizes;
mod tree;

use crate::sizes::{OF_FILES, OF_NAMES, OF_ONE_NAME, Size};
use std::process::ExitCode;
use std::rt::{Clock, Env};
use std::{env, io};

// Directories of names.
const FEW_NAMES: Size = Size { dirs: 1, files: 10 };

const MANY_NAMES: Size = Size {
    dirs: 1,
    files: 100_000,
};

fn main(rt: HostRuntime) -> ExitCode {
    match run(&rt) {
        Ok(()) => ExitCode::SUCCESS,
        Err(_) => ExitCode::FAILURE,
    }
}

fn run<R: Env + Clock + Print + AllocGlobal>(rt: &R) -> io::Result<()> {
    let words: Vec<String> = env::args(rt)?.skip(1).collect(rt.alloc())?;
    match words.first() {
        None => fixed(rt),
        Some(word) => measure(rt, word.as_str()),
    }
}

// A small amount of each work.
fn fixed<R: Clock + Print + AllocGlobal>(rt: &R) -> io::Result<()> {
    framing::fixed(rt)?;
    calls::fixed(rt)?;
    arguments::fixed(rt)?;
    answers::each(rt, false)?;
    tree::fixed(rt)?;
    pages::fixed(rt)?;
    pages::fixed_removal(rt)?;
    sizes::fixed(rt)?;
    changes::fixed(rt)?;
    reply_cache::fixed(rt)
}

// The measure of a name.
fn measure<R: Clock + Print + AllocGlobal>(rt: &R, name: &str) -> io::Result<()> {
    match name {
        "framing" => framing::measure(rt),
        "arguments" => arguments::measure(rt),
        "answers" => answers::each(rt, true),
        "tree-1000" => tree::measure(rt, 1),
        "tree-100000" => tree::measure(rt, 100),
        "tree-1000000" => tree::measure(rt, 1_000),
        "changes-1000" => changes::measure(rt, 1),
        "changes-100000" => changes::measure(rt, 100),
        "pages" => pages::measure(rt),
        "pages-100" => pages::measure_whole(rt, 100),
        "pages-10000" => pages::measure_whole(rt, 10_000),
        "write" => tree::measure_write(rt),
        "kept-136" => reply_cache::measure(rt, 136),
        "kept-4196" => reply_cache::measure(rt, 4_196),
        "kept-65636" => reply_cache::measure(rt, 65_636),
        "kept-131172" => reply_cache::measure(rt, 131_172),
        "hold-0" => tree::hold(rt, 0),
        "hold-100000" => tree::hold(rt, 100),
        "hold-names-1000" => tree::hold_names(rt, 100, 1_000),
        "hold-names-100000" => tree::hold_names(rt, 1, 100_000),
        "hold-sparse" => tree::hold_sparse(rt, 100),
        "removal-100" => pages::measure_removal(rt, 100),
        "removal-100000" => pages::measure_removal(rt, 100_000),
        "files-1000" => sizes::measure_each(
            rt,
            Size {
                dirs: 1,
                files: 1_000,
            },
            &OF_FILES,
        ),
        // 1,000,000 files, the root and the directories among them.
        "files-1000000" => sizes::measure_each(
            rt,
            Size {
                dirs: 999,
                files: 1_000,
            },
            &OF_FILES,
        ),
        "names-10" => sizes::measure_each(rt, FEW_NAMES, &OF_NAMES),
        "names-100000" => sizes::measure_each(rt, MANY_NAMES, &OF_NAMES),
        "name-10" => sizes::measure_one(rt, FEW_NAMES, &OF_ONE_NAME),
        "name-100000" => sizes::measure_one(rt, MANY_NAMES, &OF_ONE_NAME),
        call if calls::MEASURES.contains(&call) => calls::measure(rt, call),
        _ => println!(rt; "no such measure"),
    }
}
