//! What is skipped of directories, as it is reported.

use nfs_disk::warning::{SkipReason, Warning, skipped_for};

/// Reports on standard error what was skipped, one by one, and then how much for each reason.
pub fn report_skipped<R: Eprint>(rt: &R, warnings: &[Warning]) {
    report_each(rt, warnings);
    for reason in &SkipReason::ALL {
        let count = skipped_for(warnings, *reason);
        if count > 0 {
            let _ = eprintln!(rt; "nfs3d: skipped in all: {count}: {reason}");
        }
    }
}

fn report_each<R: Eprint>(rt: &R, warnings: &[Warning]) {
    for warning in warnings {
        let _ = eprintln!(rt; "nfs3d: {warning}");
    }
}
