//! The programs and their versions (RFC 1813 sections 3 and 5).
ghost use Rattle.std.specs.Prelude.{◌≡◌};
ghost use Rattle.nfs_wire.specs.Programs.{nfs_program, mount_program, nfs_version, mount_version};

/// The program NFS.
pub const NFS_PROGRAM: u32 = 100_003;
/// The program MOUNT.
pub const MOUNT_PROGRAM: u32 = 100_005;
/// The version of NFS.
pub const NFS_VERSION: u32 = 3;
/// The version of MOUNT.
pub const MOUNT_VERSION: u32 = 3;

/// Each constant is the number of the standard.
pub fn programs_law()
    ensures nfs { NFS_PROGRAM ≡ nfs_program }
    ensures mount { MOUNT_PROGRAM ≡ mount_program }
    ensures nfs_version { NFS_VERSION ≡ nfs_version }
    ensures mount_version { MOUNT_VERSION ≡ mount_version }
{}
