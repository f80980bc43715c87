//! What is given of a file that is there.
use nfs_attrs::moment::Moment;

/// The attributes that a file is to have, each where one is given (RFC 1813, section 2.6,
/// sattr3); of the mode the low 12 bits. Its size is set apart.
#[derive(Clone, Copy)]
pub struct GivenAttributes {
    /// Who may do what.
    pub mode: Option<u32>,
    /// Its owner.
    pub uid: Option<u32>,
    /// Its group.
    pub gid: Option<u32>,
    /// When it was read last.
    pub atime: Option<Moment>,
    /// When it was written last.
    pub mtime: Option<Moment>,
}
