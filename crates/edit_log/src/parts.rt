// Parts of a list of bytes, as far as they are there.
ghost use Rattle.std.specs.Prelude.{◌≡◌, take, drop};

/// The first `n` bytes, or all where there are fewer.
pub fn front(bytes: &[u8], n: usize) -> &[u8]
    ensures { result.now ≡ take n bytes.now }
{
    &bytes[..n.min(bytes.len())]
}

/// What is behind the first `n` bytes; nothing where there are fewer.
pub fn back(bytes: &[u8], n: usize) -> &[u8]
    ensures { result.now ≡ drop n bytes.now }
{
    &bytes[n.min(bytes.len())..]
}
