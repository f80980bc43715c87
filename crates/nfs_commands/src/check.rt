//! `nfs3d check`: whether a description is in order, and how much it holds.
ghost use Rattle.std.specs.Prelude.{◌≡◌, IfErr};

use crate::totals::totals_line;
use nfs_advice::every::{Faulty, every_fault};
use nfs_advice::warnings::{Warning, warnings};
use nfs_command_line::invocation::Check;
use nfs_command_line::sharing::TreeWords;
use nfs_load::load_error::LoadError;
use nfs_load::loaded::Loaded;
use nfs_named::named::{NamedTree, is_directory, is_file, refuse_sharing};
use nfs_source::description::Description;
use nfs_source::diagnostic::Diagnostic;
use nfs_source::fault::Fault;
use nfs_source::output::print;
use nfs_source::source::Source;
use std::alloc::{AllocError, Global};
use std::mem::forget;
use std::process::ExitCode;
use std::rt::Files;

/// Prints what a description holds, and on standard error what it says that may not be meant; the status is 1 then
/// where that is strict, and so it is of a directory of which something is skipped. Where all faulty lines are wanted,
/// they are all reported, with the status 1; or the first, and why no other is looked for, where a file's text has more
/// than 1 GiB or there is no memory for it. The faults of `NamedTree::read`, and `TooLong` of a pipe whose faulty lines
/// are all wanted; `Write` and `Closed` where the output fails.
pub fn check_file<R: Files + Input + Print + Eprint + AllocGlobal>(
    rt: &R,
    alloc: Global,
    words: Check<'_, '_>,
) -> Result<ExitCode, Diagnostic> {
    let (tree, is_strict) = (words.tree(), words.is_strict());
    if words.is_whole() && !is_directory(rt, tree.name()) {
        refuse_sharing(tree.sharing())?;
        return check_whole(rt, alloc, tree.name(), is_strict);
    }
    check_tree(rt, alloc, tree, is_strict)
}

// Prints what a tree holds, and warns.
fn check_tree<R: Files + Input + Print + Eprint + AllocGlobal>(
    rt: &R,
    alloc: Global,
    tree: TreeWords<'_, '_>,
    is_strict: bool,
) -> Result<ExitCode, Diagnostic> {
    let NamedTree {
        description,
        is_partial,
    } = NamedTree::read(rt, alloc, tree)?;
    let status = report_description(rt, alloc, description, is_strict);
    if is_strict && is_partial && status.is_ok() {
        return Ok(ExitCode::from(1));
    }
    status
}

// Prints what a description holds, and warns, or reports all its faulty lines. These are looked for in the whole text,
// which is read where a line of it is faulty; that of a pipe can't be read again, and is whole before.
fn check_whole<R: Files + Input + Print + Eprint>(
    rt: &R,
    alloc: Global,
    name: &str,
    is_strict: bool,
) -> Result<ExitCode, Diagnostic> {
    if !is_file(rt, name) {
        let source = Source::read(rt, alloc, name)?;
        return check_source(rt, alloc, &source, is_strict);
    }
    match Description::read(rt, alloc, name) {
        Ok(description) => report_description(rt, alloc, description, is_strict),
        Err(first) => report_every(rt, alloc, name, first),
    }
}

// The same of a whole text.
fn check_source<R: Print + Eprint>(
    rt: &R,
    alloc: Global,
    source: &Source<'_>,
    is_strict: bool,
) -> Result<ExitCode, Diagnostic> {
    if report_faults(rt, alloc, source)? {
        return Ok(ExitCode::from(1));
    }
    let loaded = source.load(alloc)?;
    let status = report_loaded(rt, alloc, source, &loaded, is_strict);
    forget(loaded);
    status
}

// Reports all faulty lines of the file of this name, of which this is the first. Where its text can't be had as a whole,
// that is said below the first.
fn report_every<R: Files + Input + Eprint>(
    rt: &R,
    alloc: Global,
    name: &str,
    first: Diagnostic,
) -> Result<ExitCode, Diagnostic>
    ensures { IfErr result (λ it. it ≡ first) }
{
    if !matches!(
        first.fault,
        Fault::Description { .. } | Fault::LongLine { .. }
    ) {
        return Err(first);
    }
    match report_whole(rt, alloc, name) {
        Ok(true) => Ok(ExitCode::from(1)),
        Ok(false) => Err(first),
        Err(fault) => {
            first.report(rt);
            let _ = eprintln!(rt; "{fault}: faulty lines after the first are not looked for");
            Ok(ExitCode::from(first.fault.status()))
        }
    }
}

// Reports all faulty lines of the whole text of this name, if it has one.
fn report_whole<R: Files + Input + Eprint>(
    rt: &R,
    alloc: Global,
    name: &str,
) -> Result<bool, Fault> {
    let source = Source::read(rt, alloc, name)?;
    Ok(report_faults(rt, alloc, &source)?)
}

// Prints what a description holds, and warns. What was loaded is not given back file by file, since the process ends.
fn report_description<R: Print + Eprint>(
    rt: &R,
    alloc: Global,
    description: Description<'_>,
    is_strict: bool,
) -> Result<ExitCode, Diagnostic> {
    let Description { source, loaded } = &description;
    let status = report_loaded(rt, alloc, source, loaded, is_strict);
    forget(description);
    status
}

// Prints what a description holds, and warns.
fn report_loaded<R: Print + Eprint>(
    rt: &R,
    alloc: Global,
    description: &Source<'_>,
    loaded: &Loaded,
    is_strict: bool,
) -> Result<ExitCode, Diagnostic> {
    let totals = totals_line(alloc, &loaded.tree)?;
    print(rt, totals.as_slice())?;
    let warnings = warn(rt, alloc, description, loaded)?;
    Ok(if is_strict && warnings > 0 {
        ExitCode::from(1)
    } else {
        ExitCode::SUCCESS
    })
}

// Prints the fault of each faulty line and how many there are, if there is one.
fn report_faults<R: Eprint>(
    rt: &R,
    alloc: Global,
    description: &Source<'_>,
) -> Result<bool, AllocError> {
    let Some(faults) = every_fault(alloc, description.text.as_slice())? else {
        return Ok(false);
    };
    report(rt, alloc, description, faults.first);
    for faulty in &faults.others {
        report(rt, alloc, description, *faulty);
    }
    let count = faults.others.len().saturating_add(1);
    let _ = eprintln!(rt; "faulty lines: {count}");
    Ok(true)
}

fn report<R: Eprint>(rt: &R, alloc: Global, description: &Source<'_>, faulty: Faulty) {
    let Faulty { line, cause } = faulty;
    let error = LoadError::Fault { line, cause };
    Diagnostic::of_description(alloc, error, description).report(rt);
}

// Prints a line for each warning, and reports how many there are.
fn warn<R: Eprint>(
    rt: &R,
    alloc: Global,
    description: &Source<'_>,
    loaded: &Loaded,
) -> Result<usize, AllocError> {
    let name = description.name;
    let found = warnings(alloc, description.text.as_slice(), loaded)?;
    for Warning { line, advice } in &found {
        let _ = eprintln!(rt; "warning: {name}:{line}:{advice}");
    }
    Ok(found.len())
}
