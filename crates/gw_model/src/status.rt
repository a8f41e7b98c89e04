//! The statuses of NFS version 3 (RFC 1813 section 2.6), which are those of MOUNT (section 5) too.
ghost use Rattle.std.specs.Prelude.{◌≡◌};
ghost use Rattle.gw_model.specs.Statuses as status;

/// Done.
pub const NFS3_OK: u32 = 0;
/// Only the owner may.
pub const NFS3ERR_PERM: u32 = 1;
/// No such name.
pub const NFS3ERR_NOENT: u32 = 2;
/// The store failed.
pub const NFS3ERR_IO: u32 = 5;
/// The caller may not.
pub const NFS3ERR_ACCES: u32 = 13;
/// The name is taken.
pub const NFS3ERR_EXIST: u32 = 17;
/// Not a directory.
pub const NFS3ERR_NOTDIR: u32 = 20;
/// A directory.
pub const NFS3ERR_ISDIR: u32 = 21;
/// An argument that isn't allowed.
pub const NFS3ERR_INVAL: u32 = 22;
/// Past the greatest size of a file.
pub const NFS3ERR_FBIG: u32 = 27;
/// The file system may only be read.
pub const NFS3ERR_ROFS: u32 = 30;
/// The name is too long.
pub const NFS3ERR_NAMETOOLONG: u32 = 63;
/// The directory has entries.
pub const NFS3ERR_NOTEMPTY: u32 = 66;
/// A handle whose file is gone.
pub const NFS3ERR_STALE: u32 = 70;
/// Bytes that aren't a handle.
pub const NFS3ERR_BADHANDLE: u32 = 10001;
/// The guard of a SETATTR differs.
pub const NFS3ERR_NOT_SYNC: u32 = 10002;
/// A cookie of a directory that isn't known.
pub const NFS3ERR_BAD_COOKIE: u32 = 10003;
/// Not supported.
pub const NFS3ERR_NOTSUPP: u32 = 10004;
/// Not one entry fits.
pub const NFS3ERR_TOOSMALL: u32 = 10005;
/// A fault that has no other name.
pub const NFS3ERR_SERVERFAULT: u32 = 10006;
/// A type that can't be made.
pub const NFS3ERR_BADTYPE: u32 = 10007;
/// To be asked again later.
pub const NFS3ERR_JUKEBOX: u32 = 10008;

/// Each constant is the number of its name. The function does nothing.
pub fn status_laws()
    ensures ok { NFS3_OK ≡ status.ok }
    ensures perm { NFS3ERR_PERM ≡ status.perm }
    ensures noent { NFS3ERR_NOENT ≡ status.noent }
    ensures io { NFS3ERR_IO ≡ status.io }
    ensures acces { NFS3ERR_ACCES ≡ status.acces }
    ensures exist { NFS3ERR_EXIST ≡ status.exist }
    ensures notdir { NFS3ERR_NOTDIR ≡ status.notdir }
    ensures isdir { NFS3ERR_ISDIR ≡ status.isdir }
    ensures inval { NFS3ERR_INVAL ≡ status.inval }
    ensures fbig { NFS3ERR_FBIG ≡ status.fbig }
    ensures rofs { NFS3ERR_ROFS ≡ status.rofs }
    ensures nametoolong { NFS3ERR_NAMETOOLONG ≡ status.nametoolong }
    ensures notempty { NFS3ERR_NOTEMPTY ≡ status.notempty }
    ensures stale { NFS3ERR_STALE ≡ status.stale }
    ensures badhandle { NFS3ERR_BADHANDLE ≡ status.badhandle }
    ensures not_sync { NFS3ERR_NOT_SYNC ≡ status.not_sync }
    ensures bad_cookie { NFS3ERR_BAD_COOKIE ≡ status.bad_cookie }
    ensures notsupp { NFS3ERR_NOTSUPP ≡ status.notsupp }
    ensures toosmall { NFS3ERR_TOOSMALL ≡ status.toosmall }
    ensures serverfault { NFS3ERR_SERVERFAULT ≡ status.serverfault }
    ensures badtype { NFS3ERR_BADTYPE ≡ status.badtype }
    ensures jukebox { NFS3ERR_JUKEBOX ≡ status.jukebox }
{}
