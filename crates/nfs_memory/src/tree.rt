//! Each growth of the tree refused in turn.
use crate::ROUNDS;
use crate::described::loaded;
use ballast::Ballast;
use nfs_attrs::fattr::Fattr;
use nfs_attrs::moment::Moment;
use nfs_conditions::bytes::{may_resize, may_write};
use nfs_conditions::moves::may_rename;
use nfs_content::pages::Pages;
use nfs_handles::number::Number;
use nfs_inodes::new_file::{NewContent, NewFile};
use nfs_inodes::tree::Tree;
use nfs_inodes::volumes::Totals;
use std::alloc::{AllocError, Global};
use std::test::Fail;

const NOW: Moment = Moment {
    seconds: 100,
    nanos: 0,
};

const GIVEN: NewFile = NewFile {
    mode: 0o644,
    uid: 9,
    gid: 8,
    atime: NOW,
    mtime: NOW,
};

// A name that is too long for its row, so that it takes memory of its own.
const NEW_NAME: &[u8] = b"a name that takes more than 30 bytes";

// What the tests see of a tree: directory 2 with the cookie of its next entry, file 3 and its
// length, the first volume's totals, the volumes and the next number.
#[derive(Clone, Copy, Debug, PartialEq)]
pub(crate) struct Snapshot {
    directory: Option<Fattr>,
    cookie: Option<u64>,
    file: Option<Fattr>,
    length: usize,
    totals: Option<Totals>,
    volumes: usize,
    number: u64,
}

pub(crate) fn snapshot_of(tree: &Tree) -> Snapshot {
    Snapshot {
        directory: tree.attributes(Number::new(2)),
        cookie: tree.next_cookie(Number::new(2)),
        file: tree.attributes(Number::new(3)),
        length: tree.bytes_at(Number::new(3), 0).len(),
        totals: tree.totals(0),
        volumes: tree.volumes(),
        number: tree.next_number(),
    }
}

// One operation of each kind, by its number.
fn operate(alloc: Global, tree: &mut Tree, operation: u32) -> Result<(), AllocError> {
    let dir = Number::new(2);
    match operation {
        0 if tree.may_make(dir, NEW_NAME, 100) => {
            let content = NewContent {
                pages: Pages::zeros(alloc, 100),
                verifier: None,
            };
            tree.make_file(dir, NEW_NAME, content, &GIVEN, NOW)?;
        }
        1 if tree.may_mkdir(dir, NEW_NAME) => {
            tree.mkdir(dir, NEW_NAME, &GIVEN, NOW)?;
        }
        2 if tree.may_make_link(dir, NEW_NAME, b"to") => {
            tree.make_link(dir, NEW_NAME, b"to", &GIVEN, NOW)?;
        }
        3 if tree.may_link(Number::new(3), dir, NEW_NAME) => tree.link(
            Number::new(3),
            dir,
            NEW_NAME,
            NOW,
        )?,
        4 if may_write(tree, Number::new(3), 100, 3) => tree.write_at(
            Number::new(3),
            100,
            b"end",
            NOW,
        )?,
        5 if tree.may_add_volume(b"/c", 1, 1) => {
            tree.add_volume(b"/c", 1, 1, &GIVEN, NOW)?;
        }
        6 if may_resize(tree, Number::new(3), 1_000) => tree.resize(Number::new(3), 1_000, NOW)?,
        7 if may_rename(tree, dir, b"x", dir, NEW_NAME) => tree.rename(
            dir, b"x", dir, NEW_NAME, NOW,
        )?,
        _ => (),
    }
    Ok(())
}

// How often the operation was refused until there was memory; none where it was refused and had
// changed what is seen, or did nothing.
fn refusals(alloc: Global, operation: u32) -> Result<Option<u32>, AllocError> {
    let mut tree = loaded(alloc)?.tree;
    let before = snapshot_of(&tree);
    let mut ballast = Ballast::new(alloc)?;
    for refused in 0..ROUNDS {
        if operate(alloc, &mut tree, operation).is_ok() {
            return Ok(if snapshot_of(&tree) == before {
                None
            } else {
                Some(refused)
            });
        }
        if snapshot_of(&tree) != before || !ballast.lighten() {
            break;
        }
    }
    Ok(None)
}

#[test]
fn refused_operations_leave_the_tree(rt: HostRuntime) -> Result<(), Fail> {
    for operation in &[0, 1, 2, 3, 4, 5, 7] {
        let refused = refusals(rt.alloc(), *operation)?;
        assert!(rt; refused.is_some_and(|count| count > 0));
    }
    Ok(())
}

#[test]
fn a_size_takes_no_memory(rt: HostRuntime) -> Result<(), Fail> {
    let refused = refusals(rt.alloc(), 6)?;
    assert!(rt; refused == Some(0));
    Ok(())
}
