// The attributes of an object.
ghost use Rattle.std.specs.Prelude.{◌≡◌, IfOk, IfErr, Ok, Err};
ghost use Rattle.nfs_types.specs.Types.{attr_at, device_at};

use crate::file_type::read_type;
use crate::time::read_time;
use crate::{FileType, Time};
use xdr::{Reader, XdrFault};

/// `fattr3` of RFC 1813 section 2.
#[derive(Clone, Copy, Debug, PartialEq, Eq)]
pub struct Attr {
    pub kind: FileType,
    pub mode: u32,
    pub nlink: u32,
    pub uid: u32,
    pub gid: u32,
    /// In bytes.
    pub size: u64,
    /// In bytes.
    pub used: u64,
    pub rdev: Device,
    pub fsid: u64,
    pub fileid: u64,
    pub atime: Time,
    pub mtime: Time,
    pub ctime: Time,
}

/// `specdata3` of RFC 1813 section 2: the two numbers of a device.
#[derive(Clone, Copy, Debug, PartialEq, Eq)]
pub struct Device {
    pub major: u32,
    pub minor: u32,
}

/// Reads attributes, 84 bytes. A fault is the first one in the order of the bytes, at its item's place: `BadChoice` for a
/// word that names no type.
#[tactic(auto, unfolding(crate::specs::Types::attr_at))]
pub fn read_attr(reader: &mut Reader<'_>) -> Result<Attr, XdrFault>
    ensures ok { IfOk result (λ a. attr_at reader.old ≡ Ok (a, reader.new)) }
    ensures err { IfErr result (λ fault. attr_at reader.old ≡ Err fault) }
{
    let kind = read_type(reader)?;
    let mode = reader.take_u32()?;
    let nlink = reader.take_u32()?;
    let uid = reader.take_u32()?;
    let gid = reader.take_u32()?;
    let size = reader.take_u64()?;
    let used = reader.take_u64()?;
    let rdev = read_device(reader)?;
    let fsid = reader.take_u64()?;
    let fileid = reader.take_u64()?;
    let atime = read_time(reader)?;
    let mtime = read_time(reader)?;
    let ctime = read_time(reader)?;
    Ok(Attr {
        kind,
        mode,
        nlink,
        uid,
        gid,
        size,
        used,
        rdev,
        fsid,
        fileid,
        atime,
        mtime,
        ctime,
    })
}

/// Reads the numbers of a device: two words.
#[tactic(auto, unfolding(crate::specs::Types::device_at))]
pub fn read_device(reader: &mut Reader<'_>) -> Result<Device, XdrFault>
    ensures ok { IfOk result (λ d. device_at reader.old ≡ Ok (d, reader.new)) }
    ensures err { IfErr result (λ fault. device_at reader.old ≡ Err fault) }
{
    let major = reader.take_u32()?;
    let minor = reader.take_u32()?;
    Ok(Device { major, minor })
}
