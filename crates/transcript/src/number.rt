// Decimal fields.
ghost use Rattle.std.specs.Prelude.{◌≡◌};
ghost use Rattle.transcript.specs.Fields.{number_of};

/// The number below 2^64 that is printed so: digits alone, with no sign, and no zero before other digits.
/// Every other text has none. Takes no memory.
pub fn parse_u64(text: &[u8]) -> Option<u64>
    ensures { result ≡ number_of 64 text.now }
{
    let Ok(digits) = std::str::from_utf8(text) else {
        return None;
    };
    let Ok(number) = digits.parse::<u64>() else {
        return None;
    };
    if text[0] == b'+' {
        return None;
    }
    if text[0] == b'0' && text.len() > 1 {
        return None;
    }
    Some(number)
}

/// The number below 2^32 that is printed so.
pub fn parse_u32(text: &[u8]) -> Option<u32>
    ensures { result ≡ number_of 32 text.now }
{
    match parse_u64(text) {
        Some(number) if number <= u32::MAX as u64 => Some(number as u32),
        _ => None,
    }
}
