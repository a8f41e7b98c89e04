// What is told of the file system whole: FSSTAT, FSINFO and PATHCONF.
ghost use Rattle.std.specs.Prelude.{◌≡◌};
ghost use Rattle.nfs_wire.specs.Results.{Fsstat, Fsinfo, Pathconf};
ghost use Rattle.name_queries.specs.Outcomes.{IsOutcome};
ghost use Rattle.name_queries.specs.Queries.{system_outcome};
ghost use Rattle.name_queries.specs.System.{system_sizes, system_preferences, name_rules};

use crate::found::found_file;
use name_tree::Tree;
use nfs_types::Time;
use nfs_wire::{FsInfo, FsStat, PathConf, Res};

/// The most bytes of a READ or a WRITE.
const TRANSFER: u32 = 1_048_576;

const SIZES: FsStat = FsStat {
    tbytes: 1 << 62,
    fbytes: 1 << 62,
    abytes: 1 << 62,
    tfiles: 1 << 32,
    ffiles: 1 << 32,
    afiles: 1 << 32,
    invarsec: 0,
};

const PREFERENCES: FsInfo = FsInfo {
    rtmax: TRANSFER,
    rtpref: TRANSFER,
    rtmult: 4096,
    wtmax: TRANSFER,
    wtpref: TRANSFER,
    wtmult: 4096,
    dtpref: 65_536,
    maxfilesize: 0x7fff_ffff_ffff_ffff,
    time_delta: Time {
        seconds: 0,
        nanos: 1_000_000,
    },
    // FSF3_SYMLINK, FSF3_HOMOGENEOUS and FSF3_CANSETTIME
    properties: 0x0002 + 0x0008 + 0x0010,
};

const NAMES: PathConf = PathConf {
    linkmax: 1,
    name_max: 255,
    no_trunc: true,
    chown_restricted: true,
    case_insensitive: false,
    case_preserving: true,
};

/// FSSTAT (RFC 1813 section 3.3.18).
pub fn fsstat<'a>(tree: &'a Tree, fsid: u64, handle: &[u8]) -> Result<Res<'a>, u32>
    ensures { IsOutcome result (system_outcome tree.now.tree fsid handle.now (Fsstat system_sizes)) }
{
    match found_file(tree, fsid, handle) {
        Ok(_) => Ok(Res::Fsstat { stat: SIZES }),
        Err(status) => Err(status),
    }
}

/// FSINFO (RFC 1813 section 3.3.19).
pub fn fsinfo<'a>(tree: &'a Tree, fsid: u64, handle: &[u8]) -> Result<Res<'a>, u32>
    ensures { IsOutcome result (system_outcome tree.now.tree fsid handle.now (Fsinfo system_preferences)) }
{
    match found_file(tree, fsid, handle) {
        Ok(_) => Ok(Res::Fsinfo { info: PREFERENCES }),
        Err(status) => Err(status),
    }
}

/// PATHCONF (RFC 1813 section 3.3.20).
pub fn pathconf<'a>(tree: &'a Tree, fsid: u64, handle: &[u8]) -> Result<Res<'a>, u32>
    ensures { IsOutcome result (system_outcome tree.now.tree fsid handle.now (Pathconf name_rules)) }
{
    match found_file(tree, fsid, handle) {
        Ok(_) => Ok(Res::Pathconf { conf: NAMES }),
        Err(status) => Err(status),
    }
}
