// Results on a file system whole.
ghost use Rattle.std.specs.Prelude.{◌≡◌, OnOk};
ghost use Rattle.xdr.specs.Rows.{joined_text};
ghost use Rattle.nfs_wire.specs.Results.{Fsstat, Fsinfo, Pathconf, results_row};

use crate::put_words::put_zeros;
use crate::{FsInfo, FsStat, PathConf};
use xdr::{NoMemory, Writer};

pub fn put_fsstat(writer: &mut Writer, stat: &FsStat) -> Result<(), NoMemory>
    ensures { OnOk result (writer.new ≡ joined_text writer.old (results_row (Fsstat stat.now))) }
{
    put_zeros(writer, 2)?;
    writer.put_u64(stat.tbytes)?;
    writer.put_u64(stat.fbytes)?;
    writer.put_u64(stat.abytes)?;
    writer.put_u64(stat.tfiles)?;
    writer.put_u64(stat.ffiles)?;
    writer.put_u64(stat.afiles)?;
    writer.put_u32(stat.invarsec)
}

pub fn put_fsinfo(writer: &mut Writer, info: &FsInfo) -> Result<(), NoMemory>
    ensures { OnOk result (writer.new ≡ joined_text writer.old (results_row (Fsinfo info.now))) }
{
    put_zeros(writer, 2)?;
    writer.put_u32(info.rtmax)?;
    writer.put_u32(info.rtpref)?;
    writer.put_u32(info.rtmult)?;
    writer.put_u32(info.wtmax)?;
    writer.put_u32(info.wtpref)?;
    writer.put_u32(info.wtmult)?;
    writer.put_u32(info.dtpref)?;
    writer.put_u64(info.maxfilesize)?;
    writer.put_u32(info.time_delta.seconds)?;
    writer.put_u32(info.time_delta.nanos)?;
    writer.put_u32(info.properties)
}

#[tactic(auto, unfolding(xdr::specs::Items::bool_text))]
pub fn put_pathconf(writer: &mut Writer, conf: &PathConf) -> Result<(), NoMemory>
    ensures { OnOk result (writer.new ≡ joined_text writer.old (results_row (Pathconf conf.now))) }
{
    put_zeros(writer, 2)?;
    writer.put_u32(conf.linkmax)?;
    writer.put_u32(conf.name_max)?;
    writer.put_bool(conf.no_trunc)?;
    writer.put_bool(conf.chown_restricted)?;
    writer.put_bool(conf.case_insensitive)?;
    writer.put_bool(conf.case_preserving)
}
