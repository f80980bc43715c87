//! The results of the procedures of NFS and of MOUNT.
ghost use Rattle.std.specs.Prelude.{◌≡◌, ◌<◌, ◌≤◌, length, IfSome};
ghost use Rattle.nfs_xdr.specs.Encoding.{opaque_text};
ghost use Rattle.nfs_args.specs.Chains.{chained_text};
ghost use Rattle.nfs_args.specs.Pages.{entry_text, EntryFits, entry_plus_text, EntryPlusFits};
ghost use Rattle.nfs_args.specs.MountAnswers.{mount_text, MountFits, mounted_text, MountedFits};
ghost use Rattle.nfs_args.specs.Answers.{answered, NfsFits};
ghost use Rattle.nfs_args.specs.Sizes.{IsWithin, max_data, max_path};
ghost use Rattle.nfs_args.specs.Results.{FoundFits, LinkPathFits, MadeFits, ReadDataFits, StringFits};

use nfs_args::answer::{NfsAnswer, write_nfs};
use nfs_args::chain::write_chain_end;
use nfs_args::committed::Committed;
use nfs_args::dir_page::DirPage;
use nfs_args::entry::Entry;
use nfs_args::entry_plus::EntryPlus;
use nfs_args::exported::{Exported, write_exported};
use nfs_args::failed::Failed;
use nfs_args::found::Found;
use nfs_args::items::Items;
use nfs_args::largest::largest;
use nfs_args::link_path::LinkPath;
use nfs_args::linked::Linked;
use nfs_args::made::Made;
use nfs_args::mount_answer::{MountAnswer, write_mount};
use nfs_args::mounted::Mounted;
use nfs_args::opaque::Opaque;
use nfs_args::path_limits::PathLimits;
use nfs_args::procedure::{MountProcedure, Procedure};
use nfs_args::read_data::ReadData;
use nfs_args::renamed::Renamed;
use nfs_args::rights::Rights;
use nfs_args::server_limits::{ServerLimits, Transfer};
use nfs_args::volume_space::{Space, VolumeSpace};
use nfs_args::write::Stability;
use nfs_args::written::Written;
use nfs_attrs::fattr::{Fattr, SpecData};
use nfs_attrs::file_type::FileType;
use nfs_attrs::moment::Moment;
use nfs_attrs::pre_attr::PreAttr;
use nfs_attrs::wcc::Wcc;
use nfs_xdr::output::Output;
use rows::answers::digits;
use rows::words::word;
use std::alloc::Global;
use std::str::SplitWhitespace;

/// Verifiers.
const VERIFIER: u64 = 0x0102_0304_0506_0708;

/// `result PROGRAM ok PROCEDURE` and `result PROGRAM failed PROCEDURE`: the program is `nfs` or
/// `mount`, the procedure a number, its result one of fixed values, as it is written.
pub(crate) fn answer(alloc: Global, words: &mut SplitWhitespace<'_>) -> Option<String> {
    let program = words.next()?;
    let arm = words.next()?;
    let number = word(words)?;
    match program {
        "nfs" => of_nfs(alloc, arm, Procedure::of(number)?),
        "mount" => of_mount(alloc, arm, MountProcedure::of(number)?),
        _ => None,
    }
}

fn of_nfs(alloc: Global, arm: &str, proc: Procedure) -> Option<String> {
    match arm {
        "ok" => ok(alloc, proc),
        "failed" => written(alloc, proc, &refusal(proc)?),
        _ => None,
    }
}

fn of_mount(alloc: Global, arm: &str, proc: MountProcedure) -> Option<String> {
    match arm {
        "ok" => mount_ok(alloc, proc),
        "failed" => mount_failed(alloc, proc),
        _ => None,
    }
}

// What was asked for.
fn ok(alloc: Global, proc: Procedure) -> Option<String> {
    match proc {
        Procedure::Readdir => page(alloc),
        Procedure::Readdirplus => page_plus(alloc),
        _ => written(alloc, proc, &granted(proc)?),
    }
}

// What was asked for, where it isn't a page.
fn granted(proc: Procedure) -> Option<NfsAnswer<'static>>
    ensures { IfSome result (λ a. (answered a ≡ proc) × NfsFits a × IsWithin a) }
{
    match proc {
        Procedure::Getattr => Some(NfsAnswer::Getattr(Ok(attributes()))),
        Procedure::Setattr => Some(NfsAnswer::Setattr(Ok(change()))),
        Procedure::Lookup => Some(NfsAnswer::Lookup(Ok(found()))),
        Procedure::Access => Some(NfsAnswer::Access(Ok(rights()))),
        Procedure::Readlink => Some(NfsAnswer::Readlink(Ok(link_path()))),
        Procedure::Read => Some(NfsAnswer::Read(Ok(read_data()))),
        Procedure::Write => Some(NfsAnswer::Write(Ok(bytes_written()))),
        Procedure::Create => Some(NfsAnswer::Create(Ok(made()))),
        Procedure::Mkdir => Some(NfsAnswer::Mkdir(Ok(made()))),
        Procedure::Symlink => Some(NfsAnswer::Symlink(Ok(made()))),
        Procedure::Mknod => Some(NfsAnswer::Mknod(Ok(made()))),
        Procedure::Remove => Some(NfsAnswer::Remove(Ok(change()))),
        Procedure::Rmdir => Some(NfsAnswer::Rmdir(Ok(change()))),
        Procedure::Rename => Some(NfsAnswer::Rename(Ok(renamed()))),
        Procedure::Link => Some(NfsAnswer::Link(Ok(linked()))),
        Procedure::Fsstat => Some(NfsAnswer::Fsstat(Ok(room()))),
        Procedure::Fsinfo => Some(NfsAnswer::Fsinfo(Ok(server_limits()))),
        Procedure::Pathconf => Some(NfsAnswer::Pathconf(Ok(path_limits()))),
        Procedure::Commit => Some(NfsAnswer::Commit(Ok(committed()))),
        Procedure::Readdir => None,
        Procedure::Readdirplus => None,
        Procedure::Null => None,
    }
}

// Why not.
fn refusal(proc: Procedure) -> Option<NfsAnswer<'static>>
    ensures { IfSome result (λ a. (answered a ≡ proc) × NfsFits a × IsWithin a) }
{
    match proc {
        Procedure::Null => None,
        Procedure::Getattr => Some(NfsAnswer::Getattr(Err(refused_alone()))),
        Procedure::Setattr => Some(NfsAnswer::Setattr(Err(refused_change()))),
        Procedure::Lookup => Some(NfsAnswer::Lookup(Err(refused()))),
        Procedure::Access => Some(NfsAnswer::Access(Err(refused()))),
        Procedure::Readlink => Some(NfsAnswer::Readlink(Err(refused()))),
        Procedure::Read => Some(NfsAnswer::Read(Err(refused()))),
        Procedure::Write => Some(NfsAnswer::Write(Err(refused_change()))),
        Procedure::Create => Some(NfsAnswer::Create(Err(refused_change()))),
        Procedure::Mkdir => Some(NfsAnswer::Mkdir(Err(refused_change()))),
        Procedure::Symlink => Some(NfsAnswer::Symlink(Err(refused_change()))),
        Procedure::Mknod => Some(NfsAnswer::Mknod(Err(refused_change()))),
        Procedure::Remove => Some(NfsAnswer::Remove(Err(refused_change()))),
        Procedure::Rmdir => Some(NfsAnswer::Rmdir(Err(refused_change()))),
        Procedure::Rename => Some(NfsAnswer::Rename(Err(refused_rename()))),
        Procedure::Link => Some(NfsAnswer::Link(Err(refused_link()))),
        Procedure::Readdir => Some(NfsAnswer::Readdir(Err(refused()))),
        Procedure::Readdirplus => Some(NfsAnswer::Readdirplus(Err(refused()))),
        Procedure::Fsstat => Some(NfsAnswer::Fsstat(Err(refused()))),
        Procedure::Fsinfo => Some(NfsAnswer::Fsinfo(Err(refused()))),
        Procedure::Pathconf => Some(NfsAnswer::Pathconf(Err(refused()))),
        Procedure::Commit => Some(NfsAnswer::Commit(Err(refused_change()))),
    }
}

fn mount_ok(alloc: Global, proc: MountProcedure) -> Option<String> {
    match proc {
        MountProcedure::Null => written_mount(alloc, &MountAnswer::Null),
        MountProcedure::Mount => written_mount(alloc, &MountAnswer::Mount(Ok(handle()))),
        MountProcedure::Dump => dump(alloc),
        MountProcedure::Unmount => written_mount(alloc, &MountAnswer::Unmount),
        MountProcedure::UnmountAll => written_mount(alloc, &MountAnswer::UnmountAll),
        MountProcedure::Export => export(alloc),
    }
}

// MNT alone can fail.
fn mount_failed(alloc: Global, proc: MountProcedure) -> Option<String> {
    match proc {
        MountProcedure::Mount => { written_mount(alloc, &MountAnswer::Mount(Err(refused_alone()))) }
        _ => None,
    }
}

// A result as it is written.
fn written(alloc: Global, proc: Procedure, answer: &NfsAnswer<'_>) -> Option<String>
    requires answered { answered answer.now ≡ proc }
    requires fits { NfsFits answer.now }
    requires within { IsWithin answer.now }
{
    let mut out = Output::new(alloc, largest(proc)).ok()?;
    write_nfs(&mut out, answer);
    digits(alloc, out.bytes())
}

fn written_mount(alloc: Global, answer: &MountAnswer<'_>) -> Option<String>
    requires fits { MountFits answer.now }
    requires room { length (mount_text answer.now) ≤ 256 }
{
    let mut out = Output::new(alloc, 256).ok()?;
    write_mount(&mut out, answer);
    digits(alloc, out.bytes())
}

fn refused_alone() -> Failed<()>
    ensures { 0 < result.status }
{
    Failed {
        status: 13,
        shown: (),
    }
}

fn refused() -> Failed<Option<Fattr>>
    ensures { 0 < result.status }
{
    Failed {
        status: 13,
        shown: Some(attributes()),
    }
}

fn refused_change() -> Failed<Wcc>
    ensures { 0 < result.status }
{
    Failed {
        status: 13,
        shown: change(),
    }
}

fn refused_rename() -> Failed<Renamed>
    ensures { 0 < result.status }
{
    Failed {
        status: 13,
        shown: renamed(),
    }
}

fn refused_link() -> Failed<Linked>
    ensures { 0 < result.status }
{
    Failed {
        status: 13,
        shown: linked(),
    }
}

fn found() -> Found<'static>
    ensures { FoundFits result }
{
    Found {
        file: handle(),
        attributes: Some(attributes()),
        dir: None,
    }
}

fn rights() -> Rights {
    Rights {
        attributes: Some(attributes()),
        rights: 21,
    }
}

fn link_path() -> LinkPath<'static>
    ensures fits { LinkPathFits result }
    ensures within { length result.path ≤ max_path }
{
    LinkPath {
        attributes: Some(attributes()),
        path: name(),
    }
}

fn read_data() -> ReadData<'static>
    ensures fits { ReadDataFits result }
    ensures within { length result.content ≤ max_data }
{
    ReadData {
        attributes: Some(attributes()),
        eof: true,
        content: name(),
    }
}

fn bytes_written() -> Written {
    Written {
        file: change(),
        count: 21,
        committed: Stability::FileSync,
        verifier: VERIFIER,
    }
}

fn committed() -> Committed {
    Committed {
        file: change(),
        verifier: VERIFIER,
    }
}

fn made() -> Made<'static>
    ensures { MadeFits result }
{
    Made {
        file: Some(handle()),
        attributes: Some(attributes()),
        dir: change(),
    }
}

fn renamed() -> Renamed {
    Renamed {
        from: change(),
        to: unknown_change(),
    }
}

fn linked() -> Linked {
    Linked {
        attributes: Some(attributes()),
        dir: unknown_change(),
    }
}

fn room() -> VolumeSpace {
    VolumeSpace {
        attributes: Some(attributes()),
        bytes: space(21, 22, 23),
        files: space(24, 25, 26),
        invarsec: 27,
    }
}

fn space(total: u64, free: u64, available: u64) -> Space {
    Space {
        total,
        free,
        available,
    }
}

fn server_limits() -> ServerLimits {
    ServerLimits {
        attributes: Some(attributes()),
        read: transfer(21, 22, 23),
        write: transfer(24, 25, 26),
        readdir: 27,
        max_file_size: 28,
        time_delta: moment(29),
        properties: 31,
    }
}

fn transfer(max: u32, preferred: u32, multiple: u32) -> Transfer {
    Transfer {
        max,
        preferred,
        multiple,
    }
}

fn path_limits() -> PathLimits {
    PathLimits {
        attributes: Some(attributes()),
        linkmax: 21,
        name_max: 22,
        no_trunc: true,
        chown_restricted: true,
        case_insensitive: false,
        case_preserving: true,
    }
}

// Two entries, and the directory goes on.
fn page(alloc: Global) -> Option<String> {
    let entries = [entry(21), entry(23)];
    let page = DirPage {
        attributes: Some(attributes()),
        verifier: VERIFIER,
        entries: Items::new(&entries),
        eof: false,
    };
    written(alloc, Procedure::Readdir, &NfsAnswer::Readdir(Ok(page)))
}

fn entry(fileid: u64) -> Entry<'static>
    ensures fits { EntryFits result }
    ensures within { length (chained_text entry_text result) ≤ 100 }
{
    Entry {
        fileid,
        name: name(),
        cookie: fileid.saturating_add(1),
    }
}

// Two entries, of which the second has neither attributes nor handle, and the directory ends.
fn page_plus(alloc: Global) -> Option<String> {
    let entries = [entry_plus(), bare_entry_plus()];
    let page = DirPage {
        attributes: Some(attributes()),
        verifier: VERIFIER,
        entries: Items::new(&entries),
        eof: true,
    };
    written(
        alloc,
        Procedure::Readdirplus,
        &NfsAnswer::Readdirplus(Ok(page)),
    )
}

fn entry_plus() -> EntryPlus<'static>
    ensures fits { EntryPlusFits result }
    ensures within { length (chained_text entry_plus_text result) ≤ 200 }
{
    EntryPlus {
        fileid: 21,
        name: name(),
        cookie: 22,
        attributes: Some(attributes()),
        file: Some(handle()),
    }
}

fn bare_entry_plus() -> EntryPlus<'static>
    ensures fits { EntryPlusFits result }
    ensures within { length (chained_text entry_plus_text result) ≤ 200 }
{
    EntryPlus {
        fileid: 23,
        name: name(),
        cookie: 24,
        attributes: None,
        file: None,
    }
}

// Two clients.
fn dump(alloc: Global) -> Option<String> {
    let clients = [mounted(), mounted()];
    written_mount(alloc, &MountAnswer::Dump(Items::new(&clients)))
}

fn mounted() -> Mounted<'static>
    ensures fits { MountedFits result }
    ensures within { length (chained_text mounted_text result) ≤ 20 }
{
    Mounted {
        host: name(),
        path: path(),
    }
}

// A volume with two groups, written by itself.
fn export(alloc: Global) -> Option<String> {
    let groups = [name(), name()];
    let volume = Exported {
        path: path(),
        groups: Items::new(&groups),
    };
    let mut out = Output::new(alloc, 256).ok()?;
    write_exported(&mut out, &volume);
    write_chain_end(&mut out);
    digits(alloc, out.bytes())
}

fn path() -> Opaque<'static>
    ensures fits { StringFits result }
    ensures text { length (opaque_text result) ≤ 8 }
{
    Opaque::new(b"/srv")
}

fn handle() -> Opaque<'static>
    ensures bound { length result ≤ 64 }
    ensures text { length (opaque_text result) ≤ 12 }
{
    Opaque::new(b"fh-05")
}

// A name, a path or data.
fn name() -> Opaque<'static>
    ensures fits { StringFits result }
    ensures path { length result ≤ max_path }
    ensures data { length result ≤ max_data }
    ensures text { length (opaque_text result) ≤ 8 }
{
    Opaque::new(b"ab")
}

fn change() -> Wcc {
    Wcc {
        before: Some(before()),
        after: Some(attributes()),
    }
}

// Only what is after it.
fn unknown_change() -> Wcc {
    Wcc {
        before: None,
        after: Some(attributes()),
    }
}

fn before() -> PreAttr {
    PreAttr {
        size: 17,
        mtime: moment(18),
        ctime: moment(20),
    }
}

fn attributes() -> Fattr {
    Fattr {
        file_type: FileType::Regular,
        mode: 0o644,
        nlink: 2,
        uid: 3,
        gid: 4,
        size: 5,
        used: 6,
        rdev: device(),
        fsid: 9,
        fileid: 10,
        atime: moment(11),
        mtime: moment(13),
        ctime: moment(15),
    }
}

fn device() -> SpecData {
    SpecData {
        specdata1: 7,
        specdata2: 8,
    }
}

fn moment(seconds: u32) -> Moment {
    Moment {
        seconds,
        nanos: seconds.saturating_add(1),
    }
}
