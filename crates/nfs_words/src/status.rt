//! The names of statuses.
ghost use Rattle.std.specs.Prelude.{◌≡◌, option_map};
ghost use Rattle.nfs_words.specs.Statuses.{status_named, mount_status_named};

/// The name of a status of NFS (RFC 1813, section 2.6, nfsstat3). `None`
/// for a number of none.
pub fn status_name(status: u32) -> Option<&'static [u8]>
    ensures { option_map (λ name. name.now) result ≡ status_named status }
{
    match status {
        0 => Some(b"NFS3_OK"),
        1 => Some(b"NFS3ERR_PERM"),
        2 => Some(b"NFS3ERR_NOENT"),
        5 => Some(b"NFS3ERR_IO"),
        6 => Some(b"NFS3ERR_NXIO"),
        13 => Some(b"NFS3ERR_ACCES"),
        17 => Some(b"NFS3ERR_EXIST"),
        18 => Some(b"NFS3ERR_XDEV"),
        19 => Some(b"NFS3ERR_NODEV"),
        20 => Some(b"NFS3ERR_NOTDIR"),
        21 => Some(b"NFS3ERR_ISDIR"),
        22 => Some(b"NFS3ERR_INVAL"),
        27 => Some(b"NFS3ERR_FBIG"),
        28 => Some(b"NFS3ERR_NOSPC"),
        30 => Some(b"NFS3ERR_ROFS"),
        31 => Some(b"NFS3ERR_MLINK"),
        63 => Some(b"NFS3ERR_NAMETOOLONG"),
        66 => Some(b"NFS3ERR_NOTEMPTY"),
        69 => Some(b"NFS3ERR_DQUOT"),
        70 => Some(b"NFS3ERR_STALE"),
        71 => Some(b"NFS3ERR_REMOTE"),
        10001 => Some(b"NFS3ERR_BADHANDLE"),
        10002 => Some(b"NFS3ERR_NOT_SYNC"),
        10003 => Some(b"NFS3ERR_BAD_COOKIE"),
        10004 => Some(b"NFS3ERR_NOTSUPP"),
        10005 => Some(b"NFS3ERR_TOOSMALL"),
        10006 => Some(b"NFS3ERR_SERVERFAULT"),
        10007 => Some(b"NFS3ERR_BADTYPE"),
        10008 => Some(b"NFS3ERR_JUKEBOX"),
        _ => None,
    }
}

/// The name of a status of MNT (RFC 1813, appendix I, section 5.1.5, mountstat3). `None` for a number
/// of none.
pub fn mount_status_name(status: u32) -> Option<&'static [u8]>
    ensures { option_map (λ name. name.now) result ≡ mount_status_named status }
{
    match status {
        0 => Some(b"MNT3_OK"),
        1 => Some(b"MNT3ERR_PERM"),
        2 => Some(b"MNT3ERR_NOENT"),
        5 => Some(b"MNT3ERR_IO"),
        13 => Some(b"MNT3ERR_ACCES"),
        20 => Some(b"MNT3ERR_NOTDIR"),
        22 => Some(b"MNT3ERR_INVAL"),
        63 => Some(b"MNT3ERR_NAMETOOLONG"),
        10004 => Some(b"MNT3ERR_NOTSUPP"),
        10006 => Some(b"MNT3ERR_SERVERFAULT"),
        _ => None,
    }
}
