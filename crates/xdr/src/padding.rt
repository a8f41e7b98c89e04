// The bytes between an item and the next multiple of four (RFC 4506 section 3).
ghost use Rattle.std.specs.Prelude.{◌≡◌, ◌+◌, ◌-◌, ◌%◌, ◌^◌, ◌<◌, replicate};
ghost use Rattle.xdr.specs.Items.{pad_len, padded_length};

/// How many bytes of padding follow `count` bytes.
pub fn padding(count: usize) -> usize
    ensures { result ≡ pad_len count }
{
    (4 - count % 4) % 4
}

/// How many bytes `count` bytes are with their padding (RFC 4506 section 3).
pub fn padded_length(count: usize) -> usize
    requires { count < 2 ^ 63 }
    ensures { result ≡ padded_length count }
{
    count + padding(count)
}

/// The padding of `count` bytes as it is written.
pub fn zeros(count: usize) -> &'static [u8]
    ensures { result.now ≡ replicate (pad_len count) 0 }
{
    match padding(count) {
        0 => &[],
        1 => &[0],
        2 => &[0, 0],
        _ => &[0, 0, 0],
    }
}
