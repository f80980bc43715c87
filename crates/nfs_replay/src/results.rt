//! What the replies of a server say to who looks for files.

use nfs_xdr::input::Input;
use std::alloc::{AllocError, Global};

// The types of a message and of its reply, and the status of an accepted call that was executed (RFC 5531, section 9).
const REPLY: u32 = 1;

const ACCEPTED: u32 = 0;

const SUCCESS: u32 = 0;

// The most bytes of a verifier (RFC 5531, section 8.2), a handle, a path and the name of a group (RFC 1813, sections 2.4
// and 5.1).
const MAX_VERIFIER_BYTES: u32 = 400;

const MAX_HANDLE_BYTES: u32 = 64;

const MAX_PATH_BYTES: u32 = 1_024;

const MAX_GROUP_BYTES: u32 = 255;

// The most volumes and groups that are looked at.
const MOST_ITEMS: usize = 65_536;

/// The handle that the reply to a LOOKUP or an MNT has. `None` where it has none, since the call failed.
pub(crate) fn handle_in(reply: &[u8]) -> Option<&[u8]> {
    let mut results = results_of(reply)?;
    if results.u32().ok()? != SUCCESS {
        return None;
    }
    results.opaque(MAX_HANDLE_BYTES).ok()
}

/// The paths of volumes that the reply to an EXPORT has; none where it has no such list.
pub(crate) fn volumes_in(alloc: Global, reply: &[u8]) -> Result<Vec<Vec<u8>>, AllocError> {
    let mut volumes = Vec::new(alloc);
    let Some(mut results) = results_of(reply) else {
        return Ok(volumes);
    };
    for _ in 0..MOST_ITEMS {
        let Some(path) = next_volume(&mut results) else {
            break;
        };
        let mut volume = Vec::new(alloc);
        volume.extend_from_slice(path)?;
        volumes.push(volume)?;
    }
    Ok(volumes)
}

// The path of the next volume of a list, with what follows it passed over.
fn next_volume<'a>(list: &mut Input<'a>) -> Option<&'a [u8]> {
    if !list.boolean().ok()? {
        return None;
    }
    let path = list.opaque(MAX_PATH_BYTES).ok()?;
    for _ in 0..MOST_ITEMS {
        if !list.boolean().ok()? {
            break;
        }
        list.opaque(MAX_GROUP_BYTES).ok()?;
    }
    Some(path)
}

// The results of a call that was executed.
fn results_of(reply: &[u8]) -> Option<Input<'_>> {
    let mut input = Input::new(reply);
    input.u32().ok()?;
    if input.u32().ok()? != REPLY || input.u32().ok()? != ACCEPTED {
        return None;
    }
    input.u32().ok()?;
    input.opaque(MAX_VERIFIER_BYTES).ok()?;
    if input.u32().ok()? != SUCCESS {
        return None;
    }
    Some(input)
}
