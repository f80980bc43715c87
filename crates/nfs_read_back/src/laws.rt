//! Laws over the definitions alone.
ghost use Rattle.nfs_read_back.specs.ReadBack.{DirsAreReadBack, FilesAreReadBack, HardsAreReadBack, LinksAreReadBack, TimesAreReadBack};
ghost use Rattle.nfs_read_back.specs.ReadBack.{ExportsAreReadBack, LimitsAreReadBack, NamesAreReadBack, ServersAreReadBack, VolumesAreReadBack};

/// The line that is written for a directory, a file, a link, a hard link or for times asks for exactly
/// that, wherever it stands in a text: the same path, mode, owner, group, content and times.
pub fn files_are_read_back()
    ensures dirs { DirsAreReadBack }
    ensures files { FilesAreReadBack }
    ensures links { LinksAreReadBack }
    ensures hards { HardsAreReadBack }
    ensures times { TimesAreReadBack }
{}

/// The line that is written for a server says its key, the ones for a tree its limits and how names are
/// written, and the one for a volume its path, its bytes and files, and what is given of its root.
pub fn volumes_are_read_back()
    ensures servers { ServersAreReadBack }
    ensures limits { LimitsAreReadBack }
    ensures names { NamesAreReadBack }
    ensures volumes { VolumesAreReadBack }
{}

/// The line that is written for an export says exactly its pattern and its options.
pub fn exports_are_read_back()
    ensures { ExportsAreReadBack }
{}
