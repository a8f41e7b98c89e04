// The header of a reply.
ghost use Rattle.std.specs.Prelude.{◌≡◌, ◌+◌, ◌%◌, ◌^◌};
ghost use Rattle.rpc_record.specs.Records.{mark_text};

/// The header of a record of `len` bytes in one fragment, for a `len` below 2^31. From 2^31 on it is
/// the header for `len` less 2^31.
pub fn mark(len: u32) -> [u8; 4]
    ensures { result ≡ mark_text len }
{
    (0x8000_0000 + len % 0x8000_0000).to_be_bytes()
}
