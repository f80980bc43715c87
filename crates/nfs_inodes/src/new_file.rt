//! What is given of a new file.
use nfs_attrs::moment::Moment;
use nfs_content::pages::Pages;

/// The attributes that a new file begins with (RFC 1813, section 2.6, sattr3); of the mode the
/// low 12 bits.
#[derive(Clone, Copy)]
pub struct NewFile {
    /// Who may do what.
    pub mode: u32,
    /// Its owner.
    pub uid: u32,
    /// Its group.
    pub gid: u32,
    /// When it was read last.
    pub atime: Moment,
    /// When it was written last.
    pub mtime: Moment,
}

/// What a new regular file holds.
#[derive(Drop)]
pub struct NewContent {
    /// Its bytes.
    pub pages: Pages,
    /// The verifier of an exclusive CREATE that makes it (RFC 1813, section 3.3.8).
    pub verifier: Option<[u8; 8]>,
}
