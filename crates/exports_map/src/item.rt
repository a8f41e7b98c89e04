// Rules and pairs as texts.
ghost use Rattle.std.specs.Prelude.{◌≡◌, ◌<◌, ◌≤◌, ◌+◌, ◌*◌, ◌^◌, ◌==◌, ℕ, List, Some, None, position, take, drop, length, decimal, ◌++◌, ◌∷◌, MatchOption, IfSome, IsSomeAnd};
ghost use Rattle.transcript.specs.Fields.{number_of};
ghost use Rattle.exports_map.specs.Items.{IsAddress, IsExport, IsPair, address_number, mode_text};
ghost use Rattle.exports_map.specs.declared.access.ExportRule.{ExportRule as Rule};
ghost use Rattle.exports_map.specs.declared.access.IdPair.{IdPair as Pair};
ghost use Rattle.exports_map.specs.declared.access.Mode.{Mode as ModeTerm};

use crate::access::{ExportRule, IdPair, Mode};
use transcript::parse_u32;

fn separator_place(text: &[u8], separator: u8) -> Option<usize>
    ensures value { result ≡ position (λ b. b == separator) text.now }
    ensures inside { IfSome result (λ i. i < length text.now) }
{
    text.iter().position(|b| *b == separator)
}

// The number that is printed before the first separator, and what follows that.
fn number_before(text: &[u8], separator: u8) -> Option<(u32, &[u8])>
    requires { separator < 48 }
    ensures read { IfSome result (λ c. text.now ≡ decimal c.0 ++ separator ∷ c.1.now) }
    ensures found { (n : ℕ) (rest : List ℕ) → n < 2 ^ 32 → text.now ≡ decimal n ++ separator ∷ rest
        → IsSomeAnd result (λ c. (c.0 ≡ n) × (c.1.now ≡ rest)) }
{
    let i = separator_place(text, separator)?;
    let number = parse_u32(&text[..i])?;
    Some((number, &text[i + 1..]))
}

// The same, of a number below 256.
fn byte_before(text: &[u8], separator: u8) -> Option<(u8, &[u8])>
    requires { separator < 48 }
    ensures read { IfSome result (λ c. text.now ≡ decimal c.0 ++ separator ∷ c.1.now) }
    ensures found { (n : ℕ) (rest : List ℕ) → n < 2 ^ 8 → text.now ≡ decimal n ++ separator ∷ rest
        → IsSomeAnd result (λ c. (c.0 ≡ n) × (c.1.now ≡ rest)) }
{
    let (number, rest) = number_before(text, separator)?;
    if number > 255 {
        return None;
    }
    Some((number as u8, rest))
}

// The address before a slash, and what follows that.
fn address_before(text: &[u8]) -> Option<(u32, &[u8])>
    ensures read { IfSome result (λ c. IsAddress text.now c.0 c.1.now) }
    ensures found { (address : ℕ) (rest : List ℕ) → IsAddress text.now address rest
        → IsSomeAnd result (λ c. (c.0 ≡ address) × (c.1.now ≡ rest)) }
{
    let (a, rest) = byte_before(text, b'.')?;
    let (b, rest) = byte_before(rest, b'.')?;
    let (c, rest) = byte_before(rest, b'.')?;
    let (d, rest) = byte_before(rest, b'/')?;
    Some((address_of(a, b, c, d), rest))
}

fn address_of(a: u8, b: u8, c: u8, d: u8) -> u32
    ensures { result ≡ address_number a b c d }
{
    ((a as u32 * 256 + b as u32) * 256 + c as u32) * 256 + d as u32
}

fn mode_of(text: &[u8]) -> Option<Mode>
    ensures read { IfSome result (λ mode. text.now ≡ mode_text mode) }
    ensures found { (mode : ModeTerm) → text.now ≡ mode_text mode → result ≡ Some mode }
{
    match text {
        b"ro" => Some(Mode::ReadOnly),
        b"rw" => Some(Mode::ReadWrite),
        _ => None,
    }
}

/// The rule that a text is, if it is one. Takes no memory.
pub(crate) fn export_of(text: &[u8]) -> Option<ExportRule>
    ensures read { IfSome result (λ rule. IsExport text.now rule) }
    ensures found { (rule : Rule) → IsExport text.now rule → result ≡ Some rule }
{
    let (address, rest) = address_before(text)?;
    let (bits, rest) = number_before(rest, b' ')?;
    if bits > 32 {
        return None;
    }
    let mode = mode_of(rest)?;
    Some(ExportRule {
        address,
        bits,
        mode,
    })
}

/// The pair that a text is, if it is one. Takes no memory.
pub(crate) fn pair_of(text: &[u8]) -> Option<IdPair>
    ensures read { IfSome result (λ pair. IsPair text.now pair) }
    ensures found { (pair : Pair) → IsPair text.now pair → result ≡ Some pair }
{
    let (asked, rest) = number_before(text, b' ')?;
    let given = parse_u32(rest)?;
    Some(IdPair { asked, given })
}
