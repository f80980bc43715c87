//! The rules that look at the attributes that SETATTR sets (RFC 1813, section 3.3.2). The owner of a
//! file sets its mode and its times, gives it to a group of its own, and doesn't give it away; uid 0
//! may all of this.
ghost use Rattle.std.specs.Prelude.{◌≡◌, ◌||◌, nat_eq, is_some};
ghost use Rattle.std.specs.List.{list_any};
ghost use Rattle.nfs_rules.specs.Judging.{Reports};
ghost use Rattle.nfs_rules.specs.Tests as test;

use crate::rights::{Right, owns};
use crate::rule::{Rule, ensure};
use crate::subject::Subject;
use nfs_attrs::fattr::Fattr;
use nfs_attrs::file_type::FileType;
use nfs_attrs::moment::Moment;
use nfs_attrs::sattr::Sattr;
use nfs_attrs::time_setting::TimeSetting;
use nfs_exports::squash::Ids;

impl<'a> Subject<'a> {
    /// `Guard`: the file's attributes were changed last when the guard says, if there is one.
    pub fn must_match_guard(&self, ctime: Option<Moment>) -> Result<(), Rule>
        ensures { Reports result (test.guard self.now ctime) }
    {
        match ctime {
            None => Ok(()),
            Some(moment) => { ensure(same_moment(moment, self.attributes().ctime), Rule::Guard) }
        }
    }

    /// `OwnerMode`: who gives a mode owns the file.
    pub(crate) fn must_allow_mode(&self, given: &Sattr) -> Result<(), Rule>
        ensures { Reports result (test.owner_mode self.now given.now) }
    {
        match given.mode {
            None => Ok(()),
            Some(_) => ensure(owns(&self.ids, &self.attributes()), Rule::OwnerMode),
        }
    }

    /// `OwnerUid`: the owner that is given is the present one, who gives it.
    pub(crate) fn must_allow_uid(&self, given: &Sattr) -> Result<(), Rule>
        ensures { Reports result (test.owner_uid self.now given.now) }
    {
        match given.uid {
            None => Ok(()),
            Some(uid) => ensure(
                gives_uid(&self.ids, &self.attributes(), uid),
                Rule::OwnerUid,
            ),
        }
    }

    /// `OwnerGid`: the group that is given is the present one or one of the owner's, who gives it.
    pub(crate) fn must_allow_gid(&self, given: &Sattr) -> Result<(), Rule>
        ensures { Reports result (test.owner_gid self.now given.now) }
    {
        match given.gid {
            None => Ok(()),
            Some(gid) => ensure(gives_gid(self, gid), Rule::OwnerGid),
        }
    }

    /// `SizeType`: the file to which a size is given is a regular one.
    pub(crate) fn must_allow_size(&self, given: &Sattr) -> Result<(), Rule>
        ensures { Reports result (test.size_type self.now given.now) }
    {
        match given.size {
            None => Ok(()),
            Some(_) => ensure(
                self.attributes().file_type == FileType::Regular,
                Rule::SizeType,
            ),
        }
    }

    /// `WriteRight`, where a size is given.
    pub(crate) fn must_be_writable_for_size(&self, size: Option<u64>) -> Result<(), Rule>
        ensures { Reports result (test.only_where (is_some size) (test.write_right self.now)) }
    {
        match size {
            None => Ok(()),
            Some(_) => self.must_be_writable(),
        }
    }

    /// `OwnerTime`: who gives a time owns the file.
    pub(crate) fn must_allow_client_time(&self, given: &Sattr) -> Result<(), Rule>
        ensures { Reports result (test.owner_time self.now given.now) }
    {
        if !is_client_time(given.atime) && !is_client_time(given.mtime) {
            return Ok(());
        }
        ensure(owns(&self.ids, &self.attributes()), Rule::OwnerTime)
    }

    /// `TimeRight`: who asks for the server's time may write the file, or owns it.
    pub(crate) fn must_allow_server_time(&self, given: &Sattr) -> Result<(), Rule>
        ensures { Reports result (test.time_right self.now given.now) }
    {
        if !is_server_time(given.atime) && !is_server_time(given.mtime) {
            return Ok(());
        }
        ensure(self.owns_or_may(Right::Write), Rule::TimeRight)
    }
}

fn same_moment(one: Moment, other: Moment) -> bool
    ensures { result ≡ test.same_moment one other }
{
    one.seconds == other.seconds && one.nanos == other.nanos
}

fn gives_uid(ids: &Ids<'_>, file: &Fattr, uid: u32) -> bool
    ensures { result ≡ test.gives_uid ids.now file.now uid }
{
    ids.uid() == 0 || ids.uid() == file.uid && uid == file.uid
}

fn gives_gid(subject: &Subject<'_>, gid: u32) -> bool
    ensures { result ≡ test.gives_gid subject.now.ids subject.now.file gid }
{
    let owner = subject.attributes().uid;
    subject.uid() == 0
        || subject.uid() == owner && (gid == subject.attributes().gid || subject.is_in_group(gid))
}

fn is_client_time(setting: TimeSetting) -> bool
    ensures { result ≡ test.is_client_time setting }
{
    match setting {
        TimeSetting::ClientTime(_) => true,
        _ => false,
    }
}

fn is_server_time(setting: TimeSetting) -> bool
    ensures { result ≡ test.is_server_time setting }
{
    match setting {
        TimeSetting::ServerTime => true,
        _ => false,
    }
}
