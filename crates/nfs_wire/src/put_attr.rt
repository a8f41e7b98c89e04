// Results with the attributes of a file.
ghost use Rattle.std.specs.Prelude.{◌≡◌, ◌∷◌, OnOk};
ghost use Rattle.xdr.specs.Rows.{Word, joined_text};
ghost use Rattle.nfs_types.specs.Types.{attr_row};
ghost use Rattle.nfs_wire.specs.Results.{Getattr, Lookup, Access, Create, results_row};

use crate::put_words::put_zeros;
use nfs_types::{Attr, attr_text};
use xdr::{NoMemory, Writer};

pub fn put_attr(writer: &mut Writer, attr: &Attr) -> Result<(), NoMemory>
    ensures { OnOk result (writer.new ≡ joined_text writer.old (attr_row attr.now)) }
{
    writer.put_fixed(&attr_text(attr))
}

/// Attributes that are present (`post_op_attr` of RFC 1813 section 2).
#[tactic(auto, unfolding(xdr::specs::Items::bool_text))]
pub fn put_present(writer: &mut Writer, attr: &Attr) -> Result<(), NoMemory>
    ensures { OnOk result (writer.new ≡ joined_text writer.old (Word 1 ∷ attr_row attr.now)) }
{
    writer.put_bool(true)?;
    put_attr(writer, attr)
}

pub fn put_getattr(writer: &mut Writer, attr: &Attr) -> Result<(), NoMemory>
    ensures { OnOk result (writer.new ≡ joined_text writer.old (results_row (Getattr attr.now))) }
{
    writer.put_u32(0)?;
    put_attr(writer, attr)
}

pub fn put_lookup(writer: &mut Writer, handle: &[u8; 32], attr: &Attr) -> Result<(), NoMemory>
    ensures { OnOk result (writer.new ≡ joined_text writer.old (results_row (Lookup handle.now attr.now))) }
{
    writer.put_u32(0)?;
    writer.put_opaque(handle)?;
    put_present(writer, attr)?;
    writer.put_u32(0)
}

pub fn put_access(writer: &mut Writer, attr: &Attr, mask: u32) -> Result<(), NoMemory>
    ensures { OnOk result (writer.new ≡ joined_text writer.old (results_row (Access attr.now mask))) }
{
    writer.put_u32(0)?;
    put_present(writer, attr)?;
    writer.put_u32(mask)
}

/// The results of CREATE, MKDIR and SYMLINK.
#[tactic(auto, unfolding(xdr::specs::Items::bool_text))]
pub fn put_made(writer: &mut Writer, handle: &[u8; 32], attr: &Attr) -> Result<(), NoMemory>
    ensures { OnOk result (writer.new ≡ joined_text writer.old (results_row (Create handle.now attr.now))) }
{
    writer.put_u32(0)?;
    writer.put_bool(true)?;
    writer.put_opaque(handle)?;
    put_present(writer, attr)?;
    put_zeros(writer, 2)
}
