//! Why a tree isn't saved.

use nfs_source::fault::Fault;
use std::alloc::{AllocError, Global};

/// The line that says why a tree isn't saved, and what else is to be said of it.
pub(crate) fn reason(alloc: Global, fault: &Fault, more: &str) -> Result<String, AllocError> {
    match fault {
        Fault::CannotWrite { name, error } => {
            format!(in alloc; "error: cannot write {name}: {error}{more}\n")
        }
        Fault::CannotRead { name, error } => {
            format!(in alloc; "error: cannot read {name}: {error}{more}\n")
        }
        _ => format!(in alloc; "error: out of memory{more}\n"),
    }
}
