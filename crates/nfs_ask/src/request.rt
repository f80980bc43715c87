//! What an `ask` asks for.
ghost use Rattle.std.specs.Prelude.{◌≡◌, Ok, IfOk, IfErr, OnOk};
ghost use Rattle.nfs_client.specs.declared.request.Request.TheVariants as request;
ghost use Rattle.nfs_client.specs.declared.file_request.FileRequest.TheVariants as of_file;
ghost use Rattle.nfs_ask.specs.declared.operation.Operation.TheVariants as op;
ghost use Rattle.nfs_ask.specs.Words.{Takes, or_else, long_number_at};
ghost use Rattle.nfs_ask.specs.Asks as spec;
ghost use Rattle.nfs_ask.specs.Asks.{Asks, AsksOfFile, IsWanted, after_path, moment_at, new_file_at};

use crate::fault::{AskFault, Wanted};
use crate::fields::Fields;
use crate::operation::Operation;
use nfs_args::limits::MAX_DATA_BYTES;
use nfs_attrs::moment::Moment;
use nfs_attrs::sattr::Sattr;
use nfs_attrs::time_setting::TimeSetting;
use nfs_client::file_request::FileRequest;
use nfs_client::name_request::NameRequest;
use nfs_client::request::Request;

// No attribute at all.
const NOTHING: Sattr = Sattr {
    mode: None,
    uid: None,
    gid: None,
    size: None,
    atime: TimeSetting::Leave,
    mtime: TimeSetting::Leave,
};

/// What an operation asks for, with the words after its path.
pub(crate) fn read_request<'a>(
    operation: Operation,
    fields: &mut Fields<'a>,
) -> Result<Request<'a>, AskFault>
    ensures asks { IfOk result (λ request. Asks operation fields.old request fields.new) }
    ensures passed { OnOk result (after_path operation fields.old ≡ Ok (tt, fields.new)) }
    ensures fault { IfErr result (IsWanted (after_path operation fields.old)) }
{
    Ok(match operation {
        Operation::Stat => Request::File(FileRequest::Stat),
        Operation::SetMode => set(Sattr {
            mode: Some(fields.mode()?),
            ..NOTHING
        }),
        Operation::SetOwner => set(Sattr {
            uid: Some(fields.number()?),
            ..NOTHING
        }),
        Operation::SetGroup => set(Sattr {
            gid: Some(fields.number()?),
            ..NOTHING
        }),
        Operation::Truncate => set(Sattr {
            size: Some(fields.long_number()?),
            ..NOTHING
        }),
        Operation::Touch => set(with_times(TimeSetting::ServerTime)),
        Operation::SetTimes => set(with_times(TimeSetting::ClientTime(moment(fields)?))),
        Operation::Access => Request::File(FileRequest::Access),
        Operation::Readlink => Request::File(FileRequest::Readlink),
        Operation::Read => Request::File(read(fields)?),
        Operation::Write => Request::File(write(fields)?),
        Operation::List => Request::File(FileRequest::List(number_or(fields, 0)?)),
        Operation::ListPlus => Request::File(FileRequest::ListPlus(number_or(fields, 0)?)),
        Operation::Room => Request::File(FileRequest::Room),
        Operation::Limits => Request::File(FileRequest::Limits),
        Operation::PathLimits => Request::File(FileRequest::PathLimits),
        Operation::Commit => Request::File(FileRequest::Commit),
        Operation::Lookup => Request::Name(NameRequest::Lookup),
        Operation::Create => Request::Name(NameRequest::Create(new_file(fields)?)),
        Operation::Mkdir => Request::Name(NameRequest::Mkdir(new_file(fields)?)),
        Operation::Symlink => Request::Name(NameRequest::Symlink(fields.word(Wanted::Target)?)),
        Operation::Mknod => Request::Name(NameRequest::Mknod),
        Operation::Remove => Request::Name(NameRequest::Remove),
        Operation::Rmdir => Request::Name(NameRequest::Rmdir),
        Operation::Rename => Request::Rename(fields.word(Wanted::Path)?),
        Operation::Link => Request::Link(fields.word(Wanted::Path)?),
        Operation::Mount => Request::Mount,
        Operation::Unmount => Request::Unmount,
    })
}

fn set<'a>(attributes: Sattr) -> Request<'a>
    ensures { result ≡ request.File (of_file.Set attributes) }
{
    Request::File(FileRequest::Set(attributes))
}

// Both times, and nothing else.
fn with_times(time: TimeSetting) -> Sattr
    ensures { result ≡ spec.with_times time }
{
    Sattr {
        atime: time,
        mtime: time,
        ..NOTHING
    }
}

// From which byte on, and which ones.
fn write<'a>(fields: &mut Fields<'a>) -> Result<FileRequest<'a>, AskFault>
    ensures asks { IfOk result (λ request. AsksOfFile op.Write fields.old request fields.new) }
    ensures fault { IfErr result (IsWanted (after_path op.Write fields.old)) }
{
    let offset = fields.long_number()?;
    let digits = fields.word(Wanted::Bytes)?;
    Ok(FileRequest::Write { offset, digits })
}

// From which byte on, and how many.
fn read<'a>(fields: &mut Fields<'a>) -> Result<FileRequest<'a>, AskFault>
    ensures asks { IfOk result (λ request. AsksOfFile op.Read fields.old request fields.new) }
    ensures fault { IfErr result (IsWanted (after_path op.Read fields.old)) }
{
    let offset = number_or(fields, 0)?;
    let count = if fields.is_at_end() {
        MAX_DATA_BYTES as u32
    } else {
        fields.number()?
    };
    Ok(FileRequest::Read { offset, count })
}

// Whole seconds, 0 where none are given.
fn moment(fields: &mut Fields<'_>) -> Result<Moment, AskFault>
    ensures { Takes (λ m. m) fields.new result (moment_at fields.old) }
{
    let seconds = if fields.is_at_end() {
        0
    } else {
        fields.number()?
    };
    Ok(Moment { seconds, nanos: 0 })
}

// What a new file is to be like: a mode, where one is given.
fn new_file(fields: &mut Fields<'_>) -> Result<Sattr, AskFault>
    ensures { Takes (λ s. s) fields.new result (new_file_at fields.old) }
{
    let mut given = NOTHING;
    if !fields.is_at_end() {
        given.mode = Some(fields.mode()?);
    }
    Ok(given)
}

// A number, where one is given.
fn number_or(fields: &mut Fields<'_>, other: u64) -> Result<u64, AskFault>
    ensures { Takes (λ n. n) fields.new result (or_else other long_number_at fields.old) }
{
    if fields.is_at_end() {
        Ok(other)
    } else {
        fields.long_number()
    }
}
