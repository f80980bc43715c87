//! Lines of a description by their first words.

/// What a line says, by its first word.
#[derive(Clone, Copy)]
pub(crate) enum LineKind {
    /// A volume.
    Volume,
    /// Who may reach the volume.
    Export,
    /// A directory.
    Dir,
    /// A file.
    File,
    /// A symbolic link.
    Link,
    /// A hard link.
    Hard,
    /// Anything else.
    Other,
}

const KINDS: [(&[u8], LineKind); 6] = [
    (b"volume", LineKind::Volume),
    (b"export", LineKind::Export),
    (b"dir", LineKind::Dir),
    (b"file", LineKind::File),
    (b"link", LineKind::Link),
    (b"hard", LineKind::Hard),
];

/// What a line with this first word says.
pub(crate) fn kind_of(word: &[u8]) -> LineKind {
    for (known, kind) in &KINDS {
        if word == *known {
            return *kind;
        }
    }
    LineKind::Other
}
