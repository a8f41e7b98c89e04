// Results of words alone, and of a path.
ghost use Rattle.std.specs.Prelude.{◌≡◌, OnOk};
ghost use Rattle.xdr.specs.Rows.{joined_text};
ghost use Rattle.xdr.specs.Lists.{zeros_row};
ghost use Rattle.nfs_wire.specs.Results.{Readlink, Refused, results_row};
ghost use Rattle.nfs_wire.specs.Short.{IsShort};

use xdr::{NoMemory, Writer};

/// So many words of zero.
pub fn put_zeros(writer: &mut Writer, count: u32) -> Result<(), NoMemory>
    ensures { OnOk result (writer.new ≡ joined_text writer.old (zeros_row count)) }
{
    for _ in 0..count {
        writer.put_u32(0)?;
    }
    Ok(())
}

pub fn put_refused(writer: &mut Writer, status: u32, zeros: u32) -> Result<(), NoMemory>
    ensures { OnOk result (writer.new ≡ joined_text writer.old (results_row (Refused status zeros))) }
{
    writer.put_u32(status)?;
    put_zeros(writer, zeros)
}

pub fn put_readlink(writer: &mut Writer, path: &[u8]) -> Result<(), NoMemory>
    ensures ok { OnOk result (writer.new ≡ joined_text writer.old (results_row (Readlink path.now))) }
    ensures short { OnOk result (IsShort path.now) }
{
    put_zeros(writer, 2)?;
    writer.put_opaque(path)
}
