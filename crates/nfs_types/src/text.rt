// Attributes as they are written: a block of bytes that is filled from the front.
ghost use Rattle.std.specs.Prelude.{◌≡◌, ◌+◌, ◌≤◌, ◌++◌};
ghost use Rattle.arrayvec.specs.ArrayVec.{array_vec_len};
ghost use Rattle.xdr.specs.Items.{word, long};
ghost use Rattle.xdr.specs.Rows.{joined_text, text};
ghost use Rattle.nfs_types.specs.Types.{time_row, device_row, attr_row};

use crate::{Attr, Device, Time};
use arrayvec::ArrayVec;

/// How many bytes attributes have in a message.
const ATTR_LENGTH: usize = 84;

type Block = ArrayVec<u8, ATTR_LENGTH>;

/// The bytes of attributes in a message (`fattr3` of RFC 1813 section 2). It takes no memory.
pub fn attr_text(attr: &Attr) -> [u8; 84]
    ensures { result ≡ text (attr_row attr.now) }
{
    let mut block = Block::new();
    put_u32(&mut block, attr.kind.number());
    put_u32(&mut block, attr.mode);
    put_u32(&mut block, attr.nlink);
    put_u32(&mut block, attr.uid);
    put_u32(&mut block, attr.gid);
    put_u64(&mut block, attr.size);
    put_u64(&mut block, attr.used);
    put_device(&mut block, &attr.rdev);
    put_u64(&mut block, attr.fsid);
    put_u64(&mut block, attr.fileid);
    put_time(&mut block, &attr.atime);
    put_time(&mut block, &attr.mtime);
    put_time(&mut block, &attr.ctime);
    block.into_inner().unwrap()
}

#[tactic(auto, unfolding(xdr::specs::Items::word))]
fn put_u32(block: &mut Block, n: u32)
    requires { array_vec_len block.old + 4 ≤ 84 }
    ensures items { block.new.items ≡ block.old.items ++ word n }
    ensures len { array_vec_len block.new ≡ array_vec_len block.old + 4 }
{
    let _ = block.try_extend_from_slice(&n.to_be_bytes());
}

#[tactic(auto, unfolding(xdr::specs::Items::long))]
fn put_u64(block: &mut Block, n: u64)
    requires { array_vec_len block.old + 8 ≤ 84 }
    ensures items { block.new.items ≡ block.old.items ++ long n }
    ensures len { array_vec_len block.new ≡ array_vec_len block.old + 8 }
{
    let _ = block.try_extend_from_slice(&n.to_be_bytes());
}

fn put_time(block: &mut Block, time: &Time)
    requires { array_vec_len block.old + 8 ≤ 84 }
    ensures items { block.new.items ≡ joined_text block.old.items (time_row time.now) }
    ensures len { array_vec_len block.new ≡ array_vec_len block.old + 8 }
{
    put_u32(block, time.seconds);
    put_u32(block, time.nanos);
}

fn put_device(block: &mut Block, device: &Device)
    requires { array_vec_len block.old + 8 ≤ 84 }
    ensures items { block.new.items ≡ joined_text block.old.items (device_row device.now) }
    ensures len { array_vec_len block.new ≡ array_vec_len block.old + 8 }
{
    put_u32(block, device.major);
    put_u32(block, device.minor);
}
