// The names of the files that objects lie in.
ghost use Rattle.std.specs.Prelude.{◌≡◌, ◌++◌, ◌∷◌, ◌<◌, ◌^◌, ◌==◌, ℕ, List, Some, decimal, position, length, string_bytes, OnOk, IfSome, IsSomeAnd};
ghost use Rattle.gw_model.specs.declared.object.ObjectId.{ObjectId as ObjectTerm};
ghost use Rattle.gw_model.specs.declared.object.ObjectId.TheVariants.{Log, Body};
ghost use Rattle.store_host.specs.ObjectNames.{HasWords, NamesDiffer, object_name, pair_text};

use gw_model::ObjectId;
use itoa::Buffer;
use std::alloc::AllocError;
use transcript::parse_u64;

pub(crate) fn push_number(text: &mut String, n: u64) -> Result<(), AllocError>
    ensures { OnOk result (string_bytes text.new ≡ string_bytes text.old ++ decimal n) }
{
    let mut digits = Buffer::new();
    text.push_str(digits.format(n))
}

/// Puts the name of an object's file at the end of a text: `log-GENERATION` or `body-FILE-VERSION`, in
/// decimal. Takes memory.
pub fn push_name(object: ObjectId, text: &mut String) -> Result<(), AllocError>
    ensures { OnOk result (string_bytes text.new ≡ string_bytes text.old ++ object_name object) }
{
    match object {
        ObjectId::Log { generation } => {
            text.push_str("log-")?;
            push_number(text, generation)
        }
        ObjectId::Body { file, version } => {
            text.push_str("body-")?;
            push_number(text, file)?;
            text.push_str("-")?;
            push_number(text, version)
        }
    }
}

// What follows a word at the front of a name.
fn behind<'a>(word: &[u8], name: &'a [u8]) -> Option<&'a [u8]>
    ensures read { IfSome result (λ rest. name.now ≡ word.now ++ rest.now) }
    ensures found { (rest : List ℕ) → name.now ≡ word.now ++ rest → IsSomeAnd result (λ r. r.now ≡ rest) }
{
    if name.len() < word.len() {
        return None;
    }
    let (front, rest) = name.split_at(word.len());
    if front != word {
        return None;
    }
    Some(rest)
}

fn hyphen_place(text: &[u8]) -> Option<usize>
    ensures value { result ≡ position (λ b. b == 45) text.now }
    ensures inside { IfSome result (λ i. i < length text.now) }
{
    text.iter().position(|b| *b == b'-')
}

// Two numbers with a hyphen between them.
fn pair_of(text: &[u8]) -> Option<(u64, u64)>
    ensures read { IfSome result (λ p. (text.now ≡ pair_text p.0 p.1) × (p.0 < 2 ^ 64) × (p.1 < 2 ^ 64)) }
    ensures found { (n m : ℕ) → n < 2 ^ 64 → m < 2 ^ 64 → text.now ≡ pair_text n m → result ≡ Some (n, m) }
{
    let i = hyphen_place(text)?;
    let first = parse_u64(&text[..i])?;
    let second = parse_u64(&text[i + 1..])?;
    Some((first, second))
}

fn number_in(text: &[u8]) -> Option<u64>
    ensures read { IfSome result (λ n. (text.now ≡ decimal n) × (n < 2 ^ 64)) }
    ensures found { (n : ℕ) → n < 2 ^ 64 → text.now ≡ decimal n → result ≡ Some n }
{
    parse_u64(text)
}

fn log_of(name: &[u8]) -> Option<u64>
    ensures read { IfSome result (λ g. (name.now ≡ object_name (Log g)) × HasWords (Log g)) }
    ensures found { (g : ℕ) → HasWords (Log g) → name.now ≡ object_name (Log g) → result ≡ Some g }
{
    number_in(behind(b"log-", name)?)
}

fn body_of(name: &[u8]) -> Option<(u64, u64)>
    ensures read { IfSome result (λ p. (name.now ≡ object_name (Body p.0 p.1)) × HasWords (Body p.0 p.1)) }
    ensures found { (f v : ℕ) → HasWords (Body f v) → name.now ≡ object_name (Body f v) → result ≡ Some (f, v) }
{
    pair_of(behind(b"body-", name)?)
}

/// The object whose file has this name. None exactly where the name is of no object's file. Takes no
/// memory.
pub fn object_of(name: &[u8]) -> Option<ObjectId>
    ensures read { IfSome result (λ q. name.now ≡ object_name q) }
    ensures found { (q : ObjectTerm) → HasWords q → name.now ≡ object_name q → result ≡ Some q }
{
    if let Some(generation) = log_of(name) {
        return Some(ObjectId::Log { generation });
    }
    let (file, version) = body_of(name)?;
    Some(ObjectId::Body { file, version })
}

/// Two objects never lie in one file. The function does nothing.
pub fn names_law()
    ensures { NamesDiffer }
{}
