// Lines out of the pieces that a source hands out.
ghost use Rattle.std.specs.Prelude.{◌≡◌, ◌≤◌, List, ℕ, length, IsTrue};
ghost use Rattle.std.specs.Io.KnownBytes.{Consumes};
ghost use Rattle.gw_outside.specs.Causes.{Rose};
ghost use Rattle.transcript.specs.Script.{max_line};
ghost use Rattle.transcript.specs.Assembly.{IsLineCut, IsFilled, IsNextLine};
ghost use Rattle.transcript.specs.LineBuffer.{empty_buffer};

use crate::buffer::{make_room, move_to_front, next_feed, read_behind};
use gw_outside::Source;
use std::alloc::Global;
use std::marker::Model;

/// The greatest number of bytes of a line without its line feed.
pub const MAX_LINE: usize = 4_194_304;

/// The greatest number of lines of a transcript.
pub const MAX_LINES: u64 = 16_777_216;

/// Cuts what a source gives into lines.
///
/// Each byte is looked at once, and the memory holds one line and what was read behind it, whatever was handed out.
#[derive(Drop)]
pub struct Lines {
    buffer: Vec<u8>,
    // Where the line lies that is lent.
    line_start: usize,
    line_length: usize,
    // The bytes from `start` to `end` were read and not handed out. Up to `scanned` there is no line feed among them.
    start: usize,
    scanned: usize,
    end: usize,
}

impl Model for Lines {
    ghost use Rattle.std.specs.Prelude.{◌-◌, ◌+◌, ◌≤◌, drop, take, vec_len};
    ghost use Rattle.transcript.specs.Script.{HasNoFeed};
    ghost use Rattle.transcript.specs.LineBuffer.{LineBuffer};

    ghost Value = { LineBuffer };

    ghost view = { λ l. record {
      line = take l.line_length (drop l.line_start l.buffer.items);
      pending = take (l.end - l.start) (drop l.start l.buffer.items);
    } };

    ghost invariant = { λ l. (l.line_start + l.line_length ≤ vec_len l.buffer)
        × (l.start ≤ l.scanned) × (l.scanned ≤ l.end) × (l.end ≤ vec_len l.buffer)
        × HasNoFeed (take (l.scanned - l.start) (drop l.start l.buffer.items)) };
}

#[derive(Clone, Copy)]
enum Cut {
    Line,
    TooLong,
    Part,
}

#[derive(Clone, Copy)]
enum Fill {
    More,
    AtEnd,
    ReadFault,
    NoMemory,
}

/// What came of asking for a line.
#[derive(Clone, Copy, Debug, PartialEq, Eq)]
pub enum Next {
    /// A line, which `Lines::line` lends.
    Line,
    /// More than `MAX_LINE` bytes come before any line feed. Every later call says the same.
    TooLong,
    /// The source ended, perhaps inside a line.
    AtEnd,
    /// The source failed. What was read is kept, and a later call goes on.
    ReadFault,
    /// There was no memory for a longer line. What was read is kept, and a later call goes on.
    NoMemory,
}

impl Lines {
    /// Nothing was read yet. Takes no memory.
    pub fn new(alloc: Global) -> Lines
        ensures { result ≡ empty_buffer }
    {
        Lines {
            buffer: Vec::new(alloc),
            line_start: 0,
            line_length: 0,
            start: 0,
            scanned: 0,
            end: 0,
        }
    }

    /// The line that the last call of `next` found, without its line feed.
    pub fn line(&self) -> &[u8]
        ensures { result.now ≡ self.now.line }
    {
        &self.buffer[self.line_start..self.line_start + self.line_length]
    }

    // Takes the first line off, where a whole one is there.
    fn cut(&mut self) -> Cut
        ensures { IsLineCut result self.new.line self.old.pending self.new.pending }
    {
        let pending = &self.buffer[self.start..self.end];
        match next_feed(pending, self.scanned - self.start) {
            Some(length) => {
                if length > MAX_LINE {
                    return Cut::TooLong;
                }
                self.line_start = self.start;
                self.line_length = length;
                self.start += length + 1;
                self.scanned = self.start;
                Cut::Line
            }
            None => {
                let length = pending.len();
                self.scanned = self.end;
                if length > MAX_LINE {
                    Cut::TooLong
                } else {
                    Cut::Part
                }
            }
        }
    }

    // Reads once.
    fn fill<S: Source>(&mut self, source: &mut S) -> Fill
        requires { length self.old.pending ≤ max_line }
        ensures bytes { (taken : List ℕ) × Consumes (S.left source.old) (S.left source.new) taken
            × IsFilled result self.old.pending self.new.pending taken (S.left source.new) }
        ensures ended { result ≡ Fill.AtEnd → IsTrue (S.ended source.new) }
        ensures later { S.count source.old ≤ S.count source.new }
        ensures cause { result ≡ Fill.ReadFault → Rose (S.count source.old) (S.count source.new) }
    {
        move_to_front(&mut self.buffer, self.start, self.end);
        self.line_start = 0;
        self.line_length = 0;
        self.scanned -= self.start;
        self.end -= self.start;
        self.start = 0;
        if make_room(&mut self.buffer, self.end).is_err() {
            return Fill::NoMemory;
        }
        match read_behind(source, &mut self.buffer, self.end) {
            Ok(0) => Fill::AtEnd,
            Ok(count) => {
                self.end += count;
                Fill::More
            }
            Err(_) => Fill::ReadFault,
        }
    }

    /// Finds the next line, reading as often as it takes.
    pub fn next<S: Source>(&mut self, source: &mut S) -> Next
        ensures bytes { (taken : List ℕ) × Consumes (S.left source.old) (S.left source.new) taken
            × IsNextLine result self.new.line self.old.pending self.new.pending taken (S.left source.new) }
        ensures ended { result ≡ Next.AtEnd → IsTrue (S.ended source.new) }
        ensures later { S.count source.old ≤ S.count source.new }
        ensures cause { result ≡ Next.ReadFault → Rose (S.count source.old) (S.count source.new) }
    {
        loop {
            match self.cut() {
                Cut::Line => return Next::Line,
                Cut::TooLong => return Next::TooLong,
                Cut::Part => {}
            }
            match self.fill(source) {
                Fill::More => {}
                Fill::AtEnd => return Next::AtEnd,
                Fill::ReadFault => return Next::ReadFault,
                Fill::NoMemory => return Next::NoMemory,
            }
        }
    }
}
