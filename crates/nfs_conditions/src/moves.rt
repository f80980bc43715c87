//! When an entry may go to another name.
ghost use Rattle.std.specs.Prelude.{◌≡◌, ◌↔◌, ◌+◌, IsTrue};
ghost use Rattle.nfs_conditions.specs.Parts.{IsNear, IsDirectoryIn, MayArrive, MayGo, MayGoOver, MayGoTo};
ghost use Rattle.nfs_conditions.specs.Parts.{ReplacesFile, HasCookieLeft, IsOffDirectory, HasLinkFor};
ghost use Rattle.nfs_conditions.specs.Parts.{MayHaveLink, is_directory_at};
ghost use Rattle.nfs_inodes.specs.Conditions.{MayRename};
ghost use Rattle.nfs_inodes.specs.Law.{Lives, LivesAsDirectory};
ghost use Rattle.nfs_inodes.specs.Tree.{File};

use crate::attributes::is_directory;
use crate::entries::{entry, is_empty};
use nfs_handles::number::Number;
use nfs_inodes::name::is_name;
use nfs_inodes::tree::Tree;

/// Whether the entry of a name in directory `from` may go to another name in directory `to`,
/// in place of what that names.
pub fn may_rename(tree: &Tree, from: Number, name: &[u8], to: Number, new_name: &[u8]) -> bool
    ensures { IsTrue result ↔ MayRename tree.now from.0 name.now to.0 new_name.now }
{
    tree.law();
    match entry(tree, from, name) {
        Some(number) => may_go(tree, number, from, to, new_name),
        None => false,
    }
}

// Whether a file with an entry in directory `from` may have this name in directory `to` instead.
fn may_go(tree: &Tree, number: Number, from: Number, to: Number, new_name: &[u8]) -> bool
    ensures { IsTrue result ↔ MayGo tree.now number.0 from.0 to.0 new_name.now }
{
    if !is_name(new_name) {
        return false;
    }
    if !is_near(tree, number, to) {
        return false;
    }
    match entry(tree, to, new_name) {
        Some(old) => may_go_over(tree, number, old, to),
        None => may_go_to(tree, number, from, to),
    }
}

// Whether a file may have a name of file `old` in directory `to`.
fn may_go_over(tree: &Tree, number: Number, old: Number, to: Number) -> bool
    requires { IsNear tree.now number.0 to.0 }
    ensures { IsTrue result ↔ MayGoOver tree.now number.0 old.0 to.0 }
{
    if old.0 == number.0 {
        return true;
    }
    if !may_replace(tree, old, number) {
        return false;
    }
    may_arrive(tree, number, to)
}

// Whether a file of directory `from` may have a name in directory `to` that is free.
fn may_go_to(tree: &Tree, number: Number, from: Number, to: Number) -> bool
    requires { IsNear tree.now number.0 to.0 }
    ensures { IsTrue result ↔ MayGoTo tree.now number.0 from.0 to.0 }
{
    if !has_link_for(tree, number, from, to) {
        return false;
    }
    may_arrive(tree, number, to)
}

// Whether a file lives, and `dir` is a directory of its volume.
fn is_near(tree: &Tree, number: Number, dir: Number) -> bool
    ensures { IsTrue result ↔ IsNear tree.now number.0 dir.0 }
{
    match tree.attributes(number) {
        Some(file) => is_directory_in(tree, dir, file.fsid),
        None => false,
    }
}

// Whether a file is a directory of the volume with this id.
fn is_directory_in(tree: &Tree, number: Number, fsid: u64) -> bool
    ensures { IsTrue result ↔ IsDirectoryIn tree.now number.0 fsid }
{
    match tree.attributes(number) {
        Some(file) => is_directory(&file) && file.fsid == fsid,
        None => false,
    }
}

// Whether a file may take the place of file `old`.
fn may_replace(tree: &Tree, old: Number, number: Number) -> bool
    requires { (f : File) × Lives tree.now number.0 f }
    ensures { IsTrue result ↔ ReplacesFile tree.now old.0 number.0 }
{
    match tree.attributes(old) {
        Some(file) => {
            if is_directory(&file) != lives_as_directory(tree, number) {
                return false;
            }
            is_empty(tree, old)
        }
        None => false,
    }
}

// Whether a file may come into directory `dir`.
fn may_arrive(tree: &Tree, number: Number, dir: Number) -> bool
    requires { IsNear tree.now number.0 dir.0 }
    ensures { IsTrue result ↔ MayArrive tree.now number.0 dir.0 }
{
    if !has_cookie_left(tree, dir) {
        return false;
    }
    is_off(tree, dir, number)
}

// Whether a directory has a cookie left for an entry.
fn has_cookie_left(tree: &Tree, dir: Number) -> bool
    ensures { IsTrue result ↔ HasCookieLeft tree.now dir.0 }
{
    match tree.next_cookie(dir) {
        Some(next_cookie) => next_cookie < u64::MAX,
        None => true,
    }
}

// Whether a directory is neither `number` nor below it, as none is below another file.
fn is_off(tree: &Tree, dir: Number, number: Number) -> bool
    requires { (f : File) × LivesAsDirectory tree.now dir.0 f }
    ensures { IsTrue result ↔ IsOffDirectory tree.now dir.0 number.0 }
{
    if !lives_as_directory(tree, number) {
        return true;
    }
    !tree.is_below(dir, number)
}

// Whether directory `dir` may have a link more, if it gets one by a file of directory `from`.
fn has_link_for(tree: &Tree, number: Number, from: Number, dir: Number) -> bool
    ensures { IsTrue result ↔ HasLinkFor tree.now number.0 from.0 dir.0 }
{
    if dir.0 == from.0 {
        return true;
    }
    if !lives_as_directory(tree, number) {
        return true;
    }
    may_have_link(tree, dir)
}

// Whether a directory may have a link more.
fn may_have_link(tree: &Tree, dir: Number) -> bool
    ensures { IsTrue result ↔ MayHaveLink tree.now dir.0 }
{
    match tree.attributes(dir) {
        Some(file) => file.nlink < tree.limits().links,
        None => true,
    }
}

// Whether a directory lives under a number.
fn lives_as_directory(tree: &Tree, number: Number) -> bool
    ensures { result ≡ is_directory_at tree.now number.0 }
{
    match tree.attributes(number) {
        Some(file) => is_directory(&file),
        None => false,
    }
}
