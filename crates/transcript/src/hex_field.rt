// Bytes in hex digits.
ghost use Rattle.std.specs.Prelude.{◌≡◌, ◌++◌, ◌*◌, ◌<◌, None, Some, Ok, IfOk, MatchOption, MatchBool, OnOk, OnErr, IsErr, length};
ghost use Rattle.hex.specs.Hex.{decode_pairs, encode_lower, hex_digit_value};
ghost use Rattle.transcript.specs.Fields.{hex_bytes};

use std::alloc::AllocError;

// What stands for no digit, above the value of each.
const NO_DIGIT: u8 = 255;

// The value of a hex digit of either case.
fn digit_value(digit: u8) -> u8
    ensures { MatchOption (hex_digit_value digit) (result ≡ 255) (λ value. (result ≡ value) × (value < 16)) }
{
    match digit {
        b'0'..=b'9' => digit - b'0',
        b'a'..=b'f' => digit - b'a' + 10,
        b'A'..=b'F' => digit - b'A' + 10,
        _ => NO_DIGIT,
    }
}

// Decodes pairs of digits, and says whether all were digits. Digits in random order make a branch at each digit dear, so
// the loop has none, and looks at the greatest value at the end.
fn decode_pairs(text: &[u8], bytes: &mut [u8]) -> bool
    requires { length text.now ≡ 2 * length bytes.old }
    ensures { MatchBool result (decode_pairs 0 text.now ≡ Ok bytes.new) (IsErr (decode_pairs 0 text.now)) }
{
    let mut greatest = 0u8;
    for i in 0..bytes.len() {
        let high = digit_value(text[2 * i]);
        let low = digit_value(text[2 * i + 1]);
        greatest = greatest.max(high).max(low);
        bytes[i] = high.wrapping_mul(16).wrapping_add(low);
    }
    greatest < 16
}

/// The bytes of a field, which has two hex digits of either case a byte and at least one byte. Every other text is
/// `None`. The bytes lie in the room, which grows where it is too small and never shrinks, so that one block serves all
/// fields of a run. It fails only for want of memory.
pub fn decode<'r>(text: &[u8], room: &'r mut Vec<u8>) -> Result<Option<&'r [u8]>, AllocError>
    ensures { IfOk result (λ field. MatchOption field (hex_bytes text.now ≡ None)
        (λ bytes. hex_bytes text.now ≡ Some bytes.now)) }
{
    if text.is_empty() || text.len() % 2 != 0 {
        return Ok(None);
    }
    let count = text.len() / 2;
    if room.len() < count {
        room.resize(count, 0)?;
    }
    let bytes = &mut room[..count];
    if decode_pairs(text, bytes) {
        Ok(Some(bytes))
    } else {
        Ok(None)
    }
}

/// Adds the bytes to a text, as two digits in lower case a byte. It fails only for want of memory, and the text then
/// stays as it was.
pub fn push_hex(text: &mut Vec<u8>, bytes: &[u8]) -> Result<(), AllocError>
    ensures ok { OnOk result (text.new.items ≡ text.old.items ++ encode_lower bytes.now) }
    ensures err { OnErr result (text.new.items ≡ text.old.items) }
{
    let start = text.len();
    let Some(end) = start.checked_add(2 * bytes.len()) else {
        return Err(AllocError);
    };
    text.resize(end, 0)?;
    let _ = hex::encode_to_slice(bytes, &mut text[start..]);
    Ok(())
}
