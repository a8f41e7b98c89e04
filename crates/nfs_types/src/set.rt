// What a request wants to set.
ghost use Rattle.std.specs.Prelude.{◌≡◌, IfOk, IfErr, Ok, Err};
ghost use Rattle.xdr.specs.Reading.{u32_at, u64_at};
ghost use Rattle.xdr.specs.Forms.{option_at};
ghost use Rattle.nfs_types.specs.Types.{set_at};

use crate::SetTime;
use crate::time::read_set_time;
use xdr::{Reader, XdrFault};

/// `sattr3` of RFC 1813 section 2: the attributes that are to be set, and no others.
#[derive(Clone, Copy, Debug, PartialEq, Eq)]
pub struct SetAttr {
    pub mode: Option<u32>,
    pub uid: Option<u32>,
    pub gid: Option<u32>,
    pub size: Option<u64>,
    pub atime: SetTime,
    pub mtime: SetTime,
}

/// Reads a set of attributes. A fault is the first one in the order of the bytes, at its item's place: `BadBool` for a
/// word that says whether an attribute follows, `BadChoice` for one past 2 that says what is meant of a time.
#[tactic(auto, unfolding(crate::specs::Types::set_at))]
pub fn read_set(reader: &mut Reader<'_>) -> Result<SetAttr, XdrFault>
    ensures ok { IfOk result (λ s. set_at reader.old ≡ Ok (s, reader.new)) }
    ensures err { IfErr result (λ fault. set_at reader.old ≡ Err fault) }
{
    let mode = optional_u32(reader)?;
    let uid = optional_u32(reader)?;
    let gid = optional_u32(reader)?;
    let size = optional_u64(reader)?;
    let atime = read_set_time(reader)?;
    let mtime = read_set_time(reader)?;
    Ok(SetAttr {
        mode,
        uid,
        gid,
        size,
        atime,
        mtime,
    })
}

fn optional_u32(reader: &mut Reader<'_>) -> Result<Option<u32>, XdrFault>
    ensures ok { IfOk result (λ n. option_at u32_at reader.old ≡ Ok (n, reader.new)) }
    ensures err { IfErr result (λ fault. option_at u32_at reader.old ≡ Err fault) }
{
    if reader.take_bool()? {
        Ok(Some(reader.take_u32()?))
    } else {
        Ok(None)
    }
}

fn optional_u64(reader: &mut Reader<'_>) -> Result<Option<u64>, XdrFault>
    ensures ok { IfOk result (λ n. option_at u64_at reader.old ≡ Ok (n, reader.new)) }
    ensures err { IfErr result (λ fault. option_at u64_at reader.old ≡ Err fault) }
{
    if reader.take_bool()? {
        Ok(Some(reader.take_u64()?))
    } else {
        Ok(None)
    }
}
