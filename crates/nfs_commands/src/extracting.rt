//! `nfs3d extract`: a tree, as a directory on disk.

use nfs_command_line::invocation::Extract;
use nfs_extract::extract::{ExtractFault, extract};
use nfs_named::named::NamedTree;
use nfs_source::diagnostic::Diagnostic;
use nfs_source::fault::Fault;
use std::alloc::Global;
use std::fs::File;
use std::mem::forget;
use std::process::ExitCode;
use std::rt::Files;

/// Writes the tree that the words name as a new directory on disk. The status is 1 where something is
/// skipped, which is reported on standard error. The faults of `NamedTree::read`; `CannotWrite` where there
/// is such a directory already, or the system doesn't write it.
pub fn extract_tree<R: Files<File = File> + Input + Eprint + AllocGlobal>(
    rt: &R,
    alloc: Global,
    words: Extract<'_, '_>,
) -> Result<ExitCode, Diagnostic> {
    let NamedTree {
        description,
        is_partial,
    } = NamedTree::read(rt, alloc, words.tree())?;
    let extracted = extract(rt, alloc, &description.loaded.tree, words.directory());
    forget(description);
    match extracted {
        Ok(skipped) => {
            for it in &skipped {
                let _ = eprintln!(rt; "nfs3d: skipped: {it}");
            }
            Ok(if is_partial || !skipped.is_empty() {
                ExitCode::from(1)
            } else {
                ExitCode::SUCCESS
            })
        }
        Err(ExtractFault::CannotWrite { path, error }) => {
            Err(Fault::CannotWrite { name: path, error }.into())
        }
        Err(ExtractFault::Memory(error)) => Err(Fault::Memory(error).into()),
    }
}
