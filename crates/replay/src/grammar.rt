// The lines of a transcript.
ghost use Rattle.std.specs.Prelude.{◌≡◌, ◌↔◌, ◌==◌, ◌<◌, List, ℕ, Some, length, position, IfOk, IfSome, OnOk, OnErr};
ghost use Rattle.std.specs.List.{list_all};
ghost use Rattle.transcript.specs.Fields.{hex_bytes};
ghost use Rattle.replay.specs.Grammar.{LinesBefore, IsLine, first_line, is_hung_up, in_name, lines_after};
ghost use Rattle.replay.specs.Grammar.{is_name as is_name_text, file_line as file_line_of, bytes_line, piece_line as piece_line_of};
ghost use Rattle.replay.specs.Grammar.{turn_line as turn_line_of, pump_line as pump_line_of, sync_line as sync_line_of, tick_line as tick_line_of, hangup_line as hangup_line_of, other_line as other_line_of, grammar_line as line_of_text};
ghost use Rattle.replay.specs.declared.grammar.Line.{Line as LineTerm};

use gateway::{Event, Piece};
use std::alloc::{AllocError, Global};
use std::collections::BTreeSet;
use std::marker::Model;
use transcript::{decode, parse_u32, parse_u64};

/// A line of a transcript.
#[derive(Debug, Drop)]
pub enum Line<'a> {
    /// An event.
    Go(Event<'a>),
    /// The last line.
    End,
}

/// What the lines so far leave of the grammar: whether only `file` lines came, and the connections that hung up.
#[derive(Drop)]
pub struct GrammarState {
    only_files: bool,
    hung_up: BTreeSet<u32>,
}

impl Model for GrammarState {
    ghost use Rattle.replay.specs.Grammar.{LinesBefore};

    ghost Value = { LinesBefore };

    ghost view = { λ g. record { only_files = g.only_files; hung_up = g.hung_up.keys } };
}

impl GrammarState {
    /// No line came.
    pub fn new(alloc: Global) -> GrammarState
        ensures { result ≡ first_line }
    {
        GrammarState {
            only_files: true,
            hung_up: BTreeSet::new(alloc),
        }
    }

    fn hung_up(&self, conn: u32) -> bool
        ensures { result ≡ is_hung_up conn self.now }
    {
        self.hung_up.contains(&conn)
    }

    /// A line of this event came. Takes memory, and changes nothing for want of it.
    pub fn pass(&mut self, event: &Event) -> Result<(), AllocError>
        ensures ok { OnOk result (self.new ≡ lines_after event.now self.old) }
        ensures err { OnErr result (self.new ≡ self.old) }
    {
        match event {
            Event::MakeFile(_) => return Ok(()),
            Event::HangUp(conn) => {
                if self.hung_up.insert(*conn).is_err() {
                    return Err(AllocError);
                }
            }
            _ => {}
        }
        self.only_files = false;
        Ok(())
    }
}

// Whether each byte is printable, and neither a space nor a slash.
fn has_name_bytes(name: &[u8]) -> bool
    ensures { result ≡ list_all in_name name.now }
{
    name.iter().all(|b| b.is_ascii_graphic() && *b != b'/')
}

/// Whether a file may have this name: 1 to 255 printable bytes that are neither spaces nor slashes, and neither `.` nor `..`.
#[tactic(auto, unfolding(crate::specs::Grammar::is_name))]
pub fn is_name(name: &[u8]) -> bool
    ensures { result ≡ is_name_text name.now }
{
    if name.is_empty() || name.len() > 255 || !has_name_bytes(name) {
        return false;
    }
    name != b".".as_slice() && name != b"..".as_slice()
}

// What follows `file `: NAME.
fn file_line<'a>(before: &GrammarState, name: &'a [u8]) -> Option<Line<'a>>
    ensures { result ≡ file_line_of before.now name.now }
{
    if before.only_files && is_name(name) {
        Some(Line::Go(Event::MakeFile(Piece::new(name))))
    } else {
        None
    }
}

// The line with these two fields, CONN and HEX.
fn piece_line<'a>(
    before: &GrammarState,
    conn: Option<u32>,
    hex: &[u8],
    room: &'a mut Vec<u8>,
) -> Result<Option<Line<'a>>, AllocError>
    ensures { IfOk result (λ line. line ≡ piece_line_of before.now conn (hex_bytes hex.now)) }
{
    let Some(conn) = conn else {
        return Ok(None);
    };
    let Some(bytes) = decode(hex, room)? else {
        return Ok(None);
    };
    if before.hung_up(conn) {
        return Ok(None);
    }
    let bytes = Piece::new(bytes);
    Ok(Some(Line::Go(Event::Bytes { conn, bytes })))
}

fn first_space(text: &[u8]) -> Option<usize>
    ensures value { result ≡ position (λ b. b == 32) text.now }
    ensures inside { IfSome result (λ i. i < length text.now) }
{
    text.iter().position(|b| *b == b' ')
}

// What follows `bytes `: CONN HEX.
fn bytes_rest<'a>(
    before: &GrammarState,
    rest: &[u8],
    room: &'a mut Vec<u8>,
) -> Result<Option<Line<'a>>, AllocError>
    ensures { IfOk result (λ line. line ≡ bytes_line before.now rest.now (position (λ b. b == 32) rest.now)) }
{
    match first_space(rest) {
        Some(i) => piece_line(before, parse_u32(&rest[..i]), &rest[i + 1..], room),
        None => Ok(None),
    }
}

fn turn_line<'a>(file: Option<u64>) -> Option<Line<'a>>
    ensures { result ≡ turn_line_of file }
{
    match file {
        Some(file) => Some(Line::Go(Event::Turn(file))),
        None => None,
    }
}

fn pump_line<'a>(file: Option<u64>) -> Option<Line<'a>>
    ensures { result ≡ pump_line_of file }
{
    match file {
        Some(file) => Some(Line::Go(Event::Pump(file))),
        None => None,
    }
}

fn sync_line<'a>(file: Option<u64>) -> Option<Line<'a>>
    ensures { result ≡ sync_line_of file }
{
    match file {
        Some(file) => Some(Line::Go(Event::Sync(file))),
        None => None,
    }
}

fn tick_line<'a>(milliseconds: Option<u32>) -> Option<Line<'a>>
    ensures { result ≡ tick_line_of milliseconds }
{
    match milliseconds {
        Some(milliseconds) => Some(Line::Go(Event::Tick(milliseconds))),
        None => None,
    }
}

fn hangup_line<'a>(before: &GrammarState, conn: Option<u32>) -> Option<Line<'a>>
    ensures { result ≡ hangup_line_of before.now conn }
{
    match conn {
        Some(conn) if !before.hung_up(conn) => Some(Line::Go(Event::HangUp(conn))),
        _ => None,
    }
}

// A line that makes a file or hangs up, or the last one.
fn other_line<'a>(before: &GrammarState, text: &'a [u8]) -> Option<Line<'a>>
    ensures { result ≡ other_line_of before.now text.now }
{
    if text.starts_with(b"file ") {
        file_line(before, &text[5..])
    } else if text.starts_with(b"hangup ") {
        hangup_line(before, parse_u32(&text[7..]))
    } else if text == b"end".as_slice() {
        Some(Line::End)
    } else {
        None
    }
}

/// The line that a text is, if it is one, behind the lines so far. What it sends lies in the room. It fails only for want of
/// memory.
#[tactic(auto, unfolding(crate::specs::Grammar::grammar_line))]
pub fn line_of<'a>(
    before: &GrammarState,
    text: &'a [u8],
    room: &'a mut Vec<u8>,
) -> Result<Option<Line<'a>>, AllocError>
    ensures { IfOk result (λ line. line ≡ line_of_text before.now text.now) }
{
    if text.starts_with(b"bytes ") {
        bytes_rest(before, &text[6..], room)
    } else if text.starts_with(b"turn ") {
        Ok(turn_line(parse_u64(&text[5..])))
    } else if text.starts_with(b"pump ") {
        Ok(pump_line(parse_u64(&text[5..])))
    } else if text.starts_with(b"sync ") {
        Ok(sync_line(parse_u64(&text[5..])))
    } else if text.starts_with(b"tick ") {
        Ok(tick_line(parse_u32(&text[5..])))
    } else {
        Ok(other_line(before, text))
    }
}

/// The texts of the grammar are read as their lines, and no other text is a line.
pub fn grammar_law()
    ensures { (before : LinesBefore) (text : List ℕ) (line : LineTerm)
        → IsLine before text line ↔ (line_of_text before text ≡ Some line) }
{}

#[cfg(test)]
mod tests {
    use super::*;
    use std::test::Fail;

    // Behind a line that makes no file.
    fn running(alloc: Global) -> Result<GrammarState, AllocError> {
        let mut before = GrammarState::new(alloc);
        before.pass(&Event::Turn(4))?;
        Ok(before)
    }

    // Whether the text is a line in which this connection sends these bytes.
    fn sends(alloc: Global, text: &[u8], conn: u32, bytes: &[u8]) -> Result<bool, AllocError> {
        let mut room = Vec::new(alloc);
        let before = running(alloc)?;
        match line_of(&before, text, &mut room)? {
            Some(
                Line::Go(
                    Event::Bytes {
                        conn: sender,
                        bytes: sent,
                    },
                ),
            ) => Ok(sender == conn && sent.as_slice() == bytes),
            _ => Ok(false),
        }
    }

    // Whether the text is no line, neither as the first nor as a later one.
    fn is_refused(alloc: Global, text: &[u8]) -> Result<bool, AllocError> {
        let mut room = Vec::new(alloc);
        let first = line_of(&GrammarState::new(alloc), text, &mut room)?.is_none();
        let later = line_of(&running(alloc)?, text, &mut room)?.is_none();
        Ok(first && later)
    }

    #[test]
    fn reads_the_pieces(rt: HostRuntime) -> Result<(), Fail> {
        let alloc = rt.alloc();
        assert!(rt; sends(alloc, b"bytes 0 00", 0, &[0])?);
        assert!(rt; sends(alloc, b"bytes 4294967295 aB", 4_294_967_295, &[0xab])?);
        assert!(rt; sends(alloc, b"bytes 10 0a20FF", 10, &[10, 32, 255])?);
        Ok(())
    }

    #[test]
    fn refuses_other_pieces(rt: HostRuntime) -> Result<(), Fail> {
        let alloc = rt.alloc();
        assert!(rt; is_refused(alloc, b"bytes 4294967296 00")?);
        assert!(rt; is_refused(alloc, b"bytes 1")?);
        assert!(rt; is_refused(alloc, b"bytes 1 ")?);
        assert!(rt; is_refused(alloc, b"bytes 1 0")?);
        assert!(rt; is_refused(alloc, b"bytes 01 00")?);
        assert!(rt; is_refused(alloc, b"bytes 1 0g")?);
        assert!(rt; is_refused(alloc, b"bytes 1 00 ")?);
        assert!(rt; is_refused(alloc, b"bytes 1  00")?);
        assert!(rt; is_refused(alloc, b"bytes  00")?);
        Ok(())
    }

    #[test]
    fn reads_the_other_lines(rt: HostRuntime) -> Result<(), Fail> {
        let alloc = rt.alloc();
        let mut room = Vec::new(alloc);
        let before = GrammarState::new(alloc);
        assert!(rt;
            matches!(
                line_of(&before, b"turn 4", &mut room)?,
                Some(Line::Go(Event::Turn(4)))
            )
        );
        assert!(rt;
            matches!(
                line_of(&before, b"pump 18446744073709551615", &mut room)?,
                Some(Line::Go(Event::Pump(18_446_744_073_709_551_615)))
            )
        );
        assert!(rt;
            matches!(
                line_of(&before, b"sync 4", &mut room)?,
                Some(Line::Go(Event::Sync(4)))
            )
        );
        assert!(rt;
            matches!(
                line_of(&before, b"tick 4294967295", &mut room)?,
                Some(Line::Go(Event::Tick(4_294_967_295)))
            )
        );
        assert!(rt;
            matches!(
                line_of(&before, b"hangup 4294967295", &mut room)?,
                Some(Line::Go(Event::HangUp(4_294_967_295)))
            )
        );
        assert!(rt; matches!(line_of(&before, b"end", &mut room)?, Some(Line::End)));
        Ok(())
    }

    #[test]
    fn refuses_other_lines(rt: HostRuntime) -> Result<(), Fail> {
        let alloc = rt.alloc();
        assert!(rt; is_refused(alloc, b"file .")?);
        assert!(rt; is_refused(alloc, b"file ..")?);
        assert!(rt; is_refused(alloc, b"file ")?);
        assert!(rt; is_refused(alloc, b"file a/b")?);
        assert!(rt; is_refused(alloc, b"file a b")?);
        assert!(rt; is_refused(alloc, b"turn 04")?);
        assert!(rt; is_refused(alloc, b"turn 18446744073709551616")?);
        assert!(rt; is_refused(alloc, b"pump 04")?);
        assert!(rt; is_refused(alloc, b"pump")?);
        assert!(rt; is_refused(alloc, b"sync 04")?);
        assert!(rt; is_refused(alloc, b"tick 4294967296")?);
        assert!(rt; is_refused(alloc, b"hangup 4294967296")?);
        assert!(rt; is_refused(alloc, b"hangup")?);
        assert!(rt; is_refused(alloc, b"end ")?);
        assert!(rt; is_refused(alloc, b"")?);
        Ok(())
    }

    #[test]
    fn makes_files_before_all_else(rt: HostRuntime) -> Result<(), Fail> {
        let alloc = rt.alloc();
        let mut room = Vec::new(alloc);
        let mut before = GrammarState::new(alloc);
        match line_of(&before, b"file data", &mut room)? {
            Some(Line::Go(Event::MakeFile(name))) => {
                assert_eq!(rt; name.as_slice(), b"data".as_slice());
                before.pass(&Event::MakeFile(name))?;
            }
            _ => assert!(rt; false),
        }
        assert!(rt; line_of(&before, b"file a", &mut room)?.is_some());
        before.pass(&Event::Pump(4))?;
        assert!(rt; line_of(&before, b"file a", &mut room)?.is_none());
        Ok(())
    }

    #[test]
    fn a_connection_hangs_up_once(rt: HostRuntime) -> Result<(), Fail> {
        let alloc = rt.alloc();
        let mut room = Vec::new(alloc);
        let mut before = GrammarState::new(alloc);
        assert!(rt; line_of(&before, b"bytes 7 00", &mut room)?.is_some());
        before.pass(&Event::HangUp(7))?;
        assert!(rt; line_of(&before, b"bytes 7 00", &mut room)?.is_none());
        assert!(rt; line_of(&before, b"hangup 7", &mut room)?.is_none());
        assert!(rt; line_of(&before, b"bytes 8 00", &mut room)?.is_some());
        assert!(rt; line_of(&before, b"hangup 8", &mut room)?.is_some());
        Ok(())
    }

    #[test]
    fn counts_the_bytes_of_a_name(rt: HostRuntime) -> Result<(), Fail> {
        let alloc = rt.alloc();
        let mut room = Vec::new(alloc);
        let mut text = Vec::from_slice(alloc, b"file ")?;
        text.extend_from_slice(&[b'a'; 255])?;
        assert!(rt; line_of(&GrammarState::new(alloc), &text, &mut room)?.is_some());
        text.push(b'a')?;
        assert!(rt; is_refused(alloc, &text)?);
        Ok(())
    }
}
