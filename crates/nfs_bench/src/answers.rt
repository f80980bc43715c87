//! The answers of procedures, written.
ghost use Rattle.std.specs.Prelude.{◌≡◌, ◌≤◌, length};
ghost use Rattle.nfs_args.specs.declared.procedure.Procedure.TheVariants as proc;
ghost use Rattle.nfs_args.specs.Answers.{answered, nfs_text, NfsFits};
ghost use Rattle.nfs_args.specs.MountAnswers.{mount_text, MountFits};
ghost use Rattle.nfs_args.specs.Sizes.{IsWithin};

use nfs_args::answer::{NfsAnswer, write_nfs};
use nfs_args::found::Found;
use nfs_args::largest::{MAX_RESULT_BYTES, largest};
use nfs_args::made::Made;
use nfs_args::mount_answer::{MountAnswer, write_mount};
use nfs_args::opaque::Opaque;
use nfs_args::procedure::Procedure;
use nfs_args::read_data::ReadData;
use nfs_args::rights::Rights;
use nfs_args::volume_space::{Space, VolumeSpace};
use nfs_args::write::Stability;
use nfs_args::written::Written;
use nfs_attrs::fattr::{Fattr, SpecData};
use nfs_attrs::file_type::FileType;
use nfs_attrs::moment::Moment;
use nfs_attrs::pre_attr::PreAttr;
use nfs_attrs::wcc::Wcc;
use nfs_xdr::output::Output;
use std::io;
use std::rt::Clock;
use std::time::Instant;

const TIME: Moment = Moment {
    seconds: 100,
    nanos: 5,
};

const ATTRIBUTES: Fattr = Fattr {
    file_type: FileType::Regular,
    mode: 0o644,
    nlink: 1,
    uid: 9,
    gid: 9,
    size: 4_096,
    used: 4_096,
    rdev: SpecData {
        specdata1: 0,
        specdata2: 0,
    },
    fsid: 1,
    fileid: 9,
    atime: TIME,
    mtime: TIME,
    ctime: TIME,
};

const CHANGE: Wcc = Wcc {
    before: Some(PreAttr {
        size: 4_096,
        mtime: TIME,
        ctime: TIME,
    }),
    after: Some(ATTRIBUTES),
};

// How often an answer is written in one run.
const ROUNDS: u32 = 100_000;

/// Writes an answer of each procedure, and prints its bytes; or, where they are to be timed, the
/// nanoseconds in which it is written.
pub(crate) fn each<R: Clock + Print + AllocGlobal>(rt: &R, timed: bool) -> io::Result<()> {
    let mut out = Output::new(rt.alloc(), MAX_RESULT_BYTES)?;
    shown(rt, &mut out, timed)?;
    changed(rt, &mut out, timed)?;
    mounted(rt, &mut out, timed)
}

// Of procedures that change nothing.
fn shown<R: Clock + Print>(rt: &R, out: &mut Output, timed: bool) -> io::Result<()> {
    row(rt, out, timed, "getattr", Procedure::Getattr, &getattr())?;
    row(
        rt,
        out,
        timed,
        "lookup",
        Procedure::Lookup,
        &lookup(&[7; 24]),
    )?;
    row(rt, out, timed, "access", Procedure::Access, &access())?;
    row(rt, out, timed, "read", Procedure::Read, &read(&[7; 4096]))?;
    row(rt, out, timed, "fsstat", Procedure::Fsstat, &fsstat())
}

// Of procedures that change a file or a directory.
fn changed<R: Clock + Print>(rt: &R, out: &mut Output, timed: bool) -> io::Result<()> {
    row(rt, out, timed, "write", Procedure::Write, &write())?;
    row(
        rt,
        out,
        timed,
        "create",
        Procedure::Create,
        &create(&[7; 24]),
    )?;
    row(rt, out, timed, "remove", Procedure::Remove, &remove())
}

fn row<R: Clock + Print>(
    rt: &R,
    out: &mut Output,
    timed: bool,
    name: &str,
    procedure: Procedure,
    answer: &NfsAnswer<'_>,
) -> io::Result<()>
    requires answered { answered answer.now ≡ procedure }
    requires fits { NfsFits answer.now }
    requires within { IsWithin answer.now }
{
    if !timed {
        let bytes = count(out, procedure, answer, 1);
        return println!(rt; "answer-{name} {bytes} bytes");
    }
    let mut least = u128::MAX;
    for _ in 0..100u8 {
        let start = Instant::now(rt)?;
        let _ = count(out, procedure, answer, ROUNDS);
        least = least.min(start.elapsed(rt)?.as_nanos() / u128::from(ROUNDS / 10));
    }
    println!(rt; "answer-{name} {}.{}", least / 10, least % 10)
}

// Writes an answer so many times, and gives the bytes of all.
fn count(out: &mut Output, procedure: Procedure, answer: &NfsAnswer<'_>, rounds: u32) -> u64
    requires answered { answered answer.now ≡ procedure }
    requires fits { NfsFits answer.now }
    requires within { IsWithin answer.now }
{
    let most = largest(procedure);
    let mut bytes = 0u64;
    for _ in 0..rounds {
        out.clear();
        if most <= out.room() {
            put(out, answer);
        }
        bytes = bytes.saturating_add(out.bytes().len() as u64);
    }
    bytes
}

// Not inlined, since what isn't looked at would not be written then.
#[inline(never)]
fn put(out: &mut Output, answer: &NfsAnswer<'_>)
    requires fits { NfsFits answer.now }
    requires room { length (nfs_text answer.now) ≤ out.old.room }
{
    write_nfs(out, answer);
}

fn getattr<'a>() -> NfsAnswer<'a>
    ensures answered { answered result ≡ proc.Getattr }
    ensures fits { NfsFits result }
    ensures within { IsWithin result }
{
    NfsAnswer::Getattr(Ok(ATTRIBUTES))
}

fn lookup(handle: &[u8; 24]) -> NfsAnswer<'_>
    ensures answered { answered result ≡ proc.Lookup }
    ensures fits { NfsFits result }
    ensures within { IsWithin result }
{
    NfsAnswer::Lookup(Ok(Found {
        file: Opaque::new(handle),
        attributes: Some(ATTRIBUTES),
        dir: Some(ATTRIBUTES),
    }))
}

fn access<'a>() -> NfsAnswer<'a>
    ensures answered { answered result ≡ proc.Access }
    ensures fits { NfsFits result }
    ensures within { IsWithin result }
{
    NfsAnswer::Access(Ok(Rights {
        attributes: Some(ATTRIBUTES),
        rights: 0x1f,
    }))
}

fn read(content: &[u8; 4096]) -> NfsAnswer<'_>
    ensures answered { answered result ≡ proc.Read }
    ensures fits { NfsFits result }
    ensures within { IsWithin result }
{
    NfsAnswer::Read(Ok(ReadData {
        attributes: Some(ATTRIBUTES),
        eof: true,
        content: Opaque::new(content),
    }))
}

fn fsstat<'a>() -> NfsAnswer<'a>
    ensures answered { answered result ≡ proc.Fsstat }
    ensures fits { NfsFits result }
    ensures within { IsWithin result }
{
    NfsAnswer::Fsstat(Ok(VolumeSpace {
        attributes: Some(ATTRIBUTES),
        bytes: space(1_000_000),
        files: space(1_000),
        invarsec: 0,
    }))
}

fn space(total: u64) -> Space {
    Space {
        total,
        free: total / 2,
        available: total / 2,
    }
}

fn write<'a>() -> NfsAnswer<'a>
    ensures answered { answered result ≡ proc.Write }
    ensures fits { NfsFits result }
    ensures within { IsWithin result }
{
    NfsAnswer::Write(Ok(Written {
        file: CHANGE,
        count: 4_096,
        committed: Stability::FileSync,
        verifier: 7,
    }))
}

fn create(handle: &[u8; 24]) -> NfsAnswer<'_>
    ensures answered { answered result ≡ proc.Create }
    ensures fits { NfsFits result }
    ensures within { IsWithin result }
{
    NfsAnswer::Create(Ok(Made {
        file: Some(Opaque::new(handle)),
        attributes: Some(ATTRIBUTES),
        dir: CHANGE,
    }))
}

fn remove<'a>() -> NfsAnswer<'a>
    ensures answered { answered result ≡ proc.Remove }
    ensures fits { NfsFits result }
    ensures within { IsWithin result }
{
    NfsAnswer::Remove(Ok(CHANGE))
}

// Of MNT.
fn mounted<R: Clock + Print>(rt: &R, out: &mut Output, timed: bool) -> io::Result<()> {
    let answer = mount(&[7; 24]);
    if !timed {
        let bytes = count_mount(out, &answer, 1);
        return println!(rt; "answer-mnt {bytes} bytes");
    }
    let mut least = u128::MAX;
    for _ in 0..100u8 {
        let start = Instant::now(rt)?;
        let _ = count_mount(out, &answer, ROUNDS);
        least = least.min(start.elapsed(rt)?.as_nanos() / u128::from(ROUNDS / 10));
    }
    println!(rt; "answer-mnt {}.{}", least / 10, least % 10)
}

fn mount(handle: &[u8; 24]) -> MountAnswer<'_>
    ensures fits { MountFits result }
    ensures length { length (mount_text result) ≤ 64 }
{
    MountAnswer::Mount(Ok(Opaque::new(handle)))
}

fn count_mount(out: &mut Output, answer: &MountAnswer<'_>, rounds: u32) -> u64
    requires fits { MountFits answer.now }
    requires length { length (mount_text answer.now) ≤ 64 }
{
    let mut bytes = 0u64;
    for _ in 0..rounds {
        out.clear();
        if 64 <= out.room() {
            put_mount(out, answer);
        }
        bytes = bytes.saturating_add(out.bytes().len() as u64);
    }
    bytes
}

#[inline(never)]
fn put_mount(out: &mut Output, answer: &MountAnswer<'_>)
    requires fits { MountFits answer.now }
    requires room { length (mount_text answer.now) ≤ out.old.room }
{
    write_mount(out, answer);
}
