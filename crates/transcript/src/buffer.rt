// The room that lines are read into.
ghost use Rattle.std.specs.Prelude.{◌≡◌, ◌+◌, ◌-◌, ◌<◌, ◌≤◌, List, ℕ, ◌∷◌, ◌++◌, length, take, drop, vec_len, IfSome, IfNone, IfOk, OnOk, MatchResult, IsTrue};
ghost use Rattle.std.specs.Io.KnownBytes.{Consumes, IsAtEnd, Keeps};
ghost use Rattle.gw_outside.specs.Causes.{HasCause};
ghost use Rattle.transcript.specs.Script.{HasNoFeed, max_line};

use gw_outside::{ReadFault, Source};
use memchr::memchr;
use std::alloc::AllocError;

// The fewest bytes that a read has room for.
const READ_ROOM: usize = 65_536;

// The first line feed, where the bytes up to `scanned` have none.
pub(crate) fn next_feed(bytes: &[u8], scanned: usize) -> Option<usize>
    requires inside { scanned ≤ length bytes.now }
    requires clear { HasNoFeed (take scanned bytes.now) }
    ensures inside { IfSome result (λ i. i < length bytes.now) }
    ensures cut { IfSome result (λ i. bytes.now ≡ take i bytes.now ++ 10 ∷ drop (i + 1) bytes.now) }
    ensures before { IfSome result (λ i. HasNoFeed (take i bytes.now)) }
    ensures none { IfNone result (HasNoFeed bytes.now) }
{
    match memchr(b'\n', &bytes[scanned..]) {
        Some(i) => Some(scanned + i),
        None => None,
    }
}

// Moves the bytes from `start` to `end` to the front.
pub(crate) fn move_to_front(buffer: &mut Vec<u8>, start: usize, end: usize)
    requires ordered { start ≤ end }
    requires inside { end ≤ vec_len buffer.old }
    ensures kept { take (end - start) buffer.new.items ≡ take (end - start) (drop start buffer.old.items) }
    ensures len { vec_len buffer.new ≡ vec_len buffer.old }
{
    if start > 0 {
        buffer.copy_within(start..end, 0);
    }
}

// Makes room for a read behind the first `end` bytes. It grows to twice what is held and more, so that a long line
// is copied few times.
pub(crate) fn make_room(buffer: &mut Vec<u8>, end: usize) -> Result<(), AllocError>
    requires inside { end ≤ vec_len buffer.old }
    requires short { end ≤ max_line }
    ensures kept { take end buffer.new.items ≡ take end buffer.old.items }
    ensures inside { end ≤ vec_len buffer.new }
    ensures room { OnOk result (end < vec_len buffer.new) }
{
    if buffer.len() - end < READ_ROOM {
        buffer.resize(2 * (end + READ_ROOM), 0)?;
    }
    Ok(())
}

// Reads once, behind the first `end` bytes.
pub(crate) fn read_behind<S: Source>(
    source: &mut S,
    buffer: &mut Vec<u8>,
    end: usize,
) -> Result<usize, ReadFault>
    requires { end < vec_len buffer.old }
    ensures kept { take end buffer.new.items ≡ take end buffer.old.items }
    ensures len { vec_len buffer.new ≡ vec_len buffer.old }
    ensures bound { IfOk result (λ n. end + n ≤ vec_len buffer.new) }
    ensures bytes { MatchResult result
        (λ n. Consumes (S.left source.old) (S.left source.new) (take n (drop end buffer.new.items))
        × (n ≡ 0 → IsAtEnd (S.left source.new)))
        (λ _. Keeps (S.left source.old) (S.left source.new)) }
    ensures ended { IfOk result (λ n. n ≡ 0 → IsTrue (S.ended source.new)) }
    ensures cause { HasCause (S.count source.old) (S.count source.new) result }
{
    source.read(&mut buffer[end..])
}
