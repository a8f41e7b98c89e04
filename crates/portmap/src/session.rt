// A link of the port mapper, from its first byte to its end.
ghost use Rattle.std.specs.Prelude.{◌≡◌, ◌≤◌, ◌<◌, ◌||◌, ℕ, length, take, drop, IfOk, MatchResult};
ghost use Rattle.std.specs.Io.KnownBytes.{Consumes, IsAtEnd, Keeps};
ghost use Rattle.gw_outside.specs.Causes.{HasCause, Rose, ended_after};
ghost use Rattle.rpc_record.specs.Records.{Open, front};
ghost use Rattle.portmap.specs.Links.{IsMessageAnswered, IsPieceAnswered, IsRecordWritten, link_state};
ghost use Rattle.portmap.specs.Sessions.{IsSession, is_ended};

use crate::message::{MessageReply, answer_message};
use crate::ports::Ports;
use crate::reply::starved_record;
use bytes::Bytes;
use gw_outside::{ReadFault, Sink, Source, write_all};
use rpc_record::{Stream, StreamStep};
use std::alloc::Global;

/// How a session ended.
#[derive(Clone, Copy, Debug, PartialEq, Eq)]
pub enum PortEnd {
    /// The end of the input was read.
    Ended,
    /// The input has a message that is no call, or a header at fault (RFC 5531 sections 9 and 11).
    Closed,
    /// 4,294,967,296 bytes were read and answered.
    Spent,
    /// A read failed.
    ReadFault,
    /// A write failed: of the last reply a front was written, perhaps none.
    WriteFault,
    /// There was no memory to keep bytes of the link.
    Memory,
}

/// How the serving of a message ended.
#[derive(Clone, Copy, Debug, PartialEq, Eq)]
pub enum MessageEnd {
    Goes,
    Closes,
    WriteFault,
}

/// How the serving of a piece ended.
#[derive(Clone, Copy, Debug, PartialEq, Eq)]
pub enum PieceEnd {
    Goes,
    Closed,
    WriteFault,
    Memory,
}

// The most bytes that are read at once.
const PIECE: usize = 4096;

// The most bytes of a link that are read.
const MOST_BYTES: u64 = 0x1_0000_0000;

fn write_record<O: Sink>(output: &mut O, record: &[u8]) -> MessageEnd
    ensures written { IsRecordWritten result record.now (O.held output.old) (O.held output.new) }
    ensures later { O.count output.old ≤ O.count output.new }
    ensures cause { result ≡ MessageEnd.WriteFault → Rose (O.count output.old) (O.count output.new) }
{
    match write_all(output, record) {
        Ok(()) => MessageEnd::Goes,
        Err(_) => MessageEnd::WriteFault,
    }
}

fn serve_message<O: Sink>(
    alloc: Global,
    ports: &mut Ports,
    client: u32,
    message: Bytes,
    output: &mut O,
) -> MessageEnd
    ensures served { IsMessageAnswered result client ports.old message ports.new (O.held output.old) (O.held output.new) }
    ensures later { O.count output.old ≤ O.count output.new }
    ensures cause { result ≡ MessageEnd.WriteFault → Rose (O.count output.old) (O.count output.new) }
{
    match answer_message(alloc, ports, client, message) {
        MessageReply::NoCall => MessageEnd::Closes,
        MessageReply::Record(record) => write_record(output, &record),
        MessageReply::Refused { xid } => write_record(output, &starved_record(xid)),
    }
}

// What a piece has behind its first bytes.
fn behind(piece: &[u8], taken: usize) -> &[u8]
    requires { taken ≤ length piece.now }
    ensures { result.now ≡ drop taken piece.now }
{
    &piece[taken..]
}

// Answers the messages that a piece completes.
fn serve_piece<O: Sink>(
    alloc: Global,
    ports: &mut Ports,
    client: u32,
    stream: &mut Stream,
    piece: &[u8],
    output: &mut O,
) -> PieceEnd
    requires { front stream.old ≡ Open }
    ensures served { IsPieceAnswered result client (link_state stream.old ports.old) piece.now (link_state stream.new ports.new)
        (O.held output.old) (O.held output.new) }
    ensures rest { result ≡ PieceEnd.Goes → front stream.new ≡ Open }
    ensures later { O.count output.old ≤ O.count output.new }
    ensures cause { result ≡ PieceEnd.WriteFault → Rose (O.count output.old) (O.count output.new) }
{
    let mut rest = piece;
    loop {
        let Ok(step) = stream.hear(alloc, rest) else {
            return PieceEnd::Memory;
        };
        match step {
            StreamStep::More => return PieceEnd::Goes,
            StreamStep::Broken => return PieceEnd::Closed,
            StreamStep::Record { taken, message } => {
                match serve_message(alloc, ports, client, message, output) {
                    MessageEnd::Goes => rest = behind(rest, taken),
                    MessageEnd::Closes => return PieceEnd::Closed,
                    MessageEnd::WriteFault => return PieceEnd::WriteFault,
                }
            }
        }
    }
}

// Reads once into the front of a buffer, at most `left` bytes.
fn read_piece<I: Source>(
    input: &mut I,
    buffer: &mut [u8; 4096],
    left: u64,
) -> Result<usize, ReadFault>
    requires { 0 < left }
    ensures bound { IfOk result (λ n. n ≤ 4096) }
    ensures within { IfOk result (λ n. n ≤ left) }
    ensures bytes { MatchResult result
        (λ n. Consumes (I.left input.old) (I.left input.new) (take n buffer.new) × (n ≡ 0 → IsAtEnd (I.left input.new)))
        (λ _. Keeps (I.left input.old) (I.left input.new)) }
    ensures ended { I.ended input.new ≡ ended_after (I.ended input.old) result 1 }
    ensures cause { HasCause (I.count input.old) (I.count input.new) result }
{
    let room = left.min(4096) as usize;
    input.read(&mut buffer[..room])
}

/// Answers the requests of one link, from a client of this address, the first byte of which is the highest: each as a record
/// behind the other, and SYSTEM_ERR in place of its reply where memory is wanting for a request. Takes memory.
pub fn port_session<I: Source, O: Sink>(
    alloc: Global,
    ports: &mut Ports,
    client: u32,
    input: &mut I,
    output: &mut O,
) -> PortEnd
    ensures session { IsSession result client ports.old ports.new (I.left input.old) (I.left input.new) (O.held output.old) (O.held output.new) }
    ensures at_end { result ≡ PortEnd.Ended → IsAtEnd (I.left input.new) }
    ensures ended { I.ended input.new ≡ (I.ended input.old || is_ended result) }
    ensures reads_later { I.count input.old ≤ I.count input.new }
    ensures read_cause { result ≡ PortEnd.ReadFault → Rose (I.count input.old) (I.count input.new) }
    ensures writes_later { O.count output.old ≤ O.count output.new }
    ensures write_cause { result ≡ PortEnd.WriteFault → Rose (O.count output.old) (O.count output.new) }
{
    let Ok(mut stream) = Stream::new(alloc) else {
        return PortEnd::Memory;
    };
    let mut buffer = [0; PIECE];
    let mut left = MOST_BYTES;
    while left > 0 {
        let count = match read_piece(input, &mut buffer, left) {
            Ok(0) => return PortEnd::Ended,
            Ok(count) => count,
            Err(_) => return PortEnd::ReadFault,
        };
        left -= count as u64;
        match serve_piece(alloc, ports, client, &mut stream, &buffer[..count], output) {
            PieceEnd::Goes => {}
            PieceEnd::Closed => return PortEnd::Closed,
            PieceEnd::WriteFault => return PortEnd::WriteFault,
            PieceEnd::Memory => return PortEnd::Memory,
        }
    }
    PortEnd::Spent
}
