// Lines at the end of a text. Where memory is refused, the text may end inside a line.
ghost use Rattle.std.specs.Prelude.{◌≡◌, ◌++◌, OnOk, decimal, length};
ghost use Rattle.rpc_record.specs.Records.{mark_text};
ghost use Rattle.hex.specs.Hex.{encode_lower};
ghost use Rattle.load_gen.specs.Lines.{message_line, number_line};

use gw_model::NoMemory;
use itoa::Buffer;
use rpc_record::mark;
use transcript::push_hex;

/// Adds bytes to a text.
pub fn put(text: &mut Vec<u8>, bytes: &[u8]) -> Result<(), NoMemory>
    ensures { OnOk result (text.new.items ≡ text.old.items ++ bytes.now) }
{
    text.extend_from_slice(bytes).map_err(|_| NoMemory)
}

fn put_number(text: &mut Vec<u8>, n: u64) -> Result<(), NoMemory>
    ensures { OnOk result (text.new.items ≡ text.old.items ++ decimal n) }
{
    let mut digits = Buffer::new();
    put(text, digits.format(n).as_bytes())
}

fn put_hex(text: &mut Vec<u8>, bytes: &[u8]) -> Result<(), NoMemory>
    ensures { OnOk result (text.new.items ≡ text.old.items ++ encode_lower bytes.now) }
{
    push_hex(text, bytes).map_err(|_| NoMemory)
}

/// A line of a word and a number.
#[tactic(auto, unfolding(crate::specs::Lines::number_line))]
pub fn put_number_line(text: &mut Vec<u8>, word: &[u8], n: u64) -> Result<(), NoMemory>
    ensures { OnOk result (text.new.items ≡ text.old.items ++ number_line word.now n) }
{
    put(text, word)?;
    put_number(text, n)?;
    put(text, b"\n")
}

// The digits of a record of one fragment (RFC 5531 section 11).
fn put_record(text: &mut Vec<u8>, message: &[u8]) -> Result<(), NoMemory>
    ensures { OnOk result (text.new.items ≡ text.old.items
        ++ encode_lower (mark_text (length message.now) ++ message.now)) }
{
    put_hex(text, &mark((message.len() % 0x8000_0000) as u32))?;
    put_hex(text, message)
}

/// The line of a message that a connection sends.
#[tactic(auto, unfolding(crate::specs::Lines::message_line))]
pub fn put_message_line(text: &mut Vec<u8>, conn: u64, message: &[u8]) -> Result<(), NoMemory>
    ensures { OnOk result (text.new.items ≡ text.old.items ++ message_line conn message.now) }
{
    put(text, b"bytes ")?;
    put_number(text, conn)?;
    put(text, b" ")?;
    put_record(text, message)?;
    put(text, b"\n")
}
