//! The files that the two handles of a call name.
ghost use Rattle.std.specs.Prelude.{◌≡◌, option_map};
ghost use Rattle.nfs_rules.specs.Verdicts as verdict;
ghost use Rattle.nfs_rules.specs.Views.{ok_of};

use crate::exported_file::ExportedFile;
use crate::rule::Rule;
use crate::subject::Subject;
use nfs_attrs::fattr::Fattr;

/// What two handles name, in one volume, or the first of their rules that fails: those of the first,
/// those of the second, and then `CrossVolume`.
pub fn in_one_volume<'a>(
    one: Result<ExportedFile<'a>, Rule>,
    two: Result<ExportedFile<'a>, Rule>,
) -> Result<(Subject<'a>, Subject<'a>), Rule>
    ensures { result ≡ verdict.in_one_volume one.entry two.entry }
{
    let one = one?;
    let two = two?;
    if one.attributes().fsid == two.attributes().fsid {
        Ok((one.subject(), two.subject()))
    } else {
        Err(Rule::CrossVolume)
    }
}

/// The attributes of what a handle names, where its rules are kept.
pub fn attributes_of(file: &Result<ExportedFile<'_>, Rule>) -> Option<Fattr>
    ensures { result ≡ option_map (λ s. s.file) (ok_of file.now) }
{
    match file {
        Ok(file) => Some(file.attributes()),
        Err(_) => None,
    }
}
