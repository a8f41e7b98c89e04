// What a line of a transcript asks for.
ghost use Rattle.std.specs.Prelude.{◌≡◌};

use std::marker::Model;

/// Bytes of a line, which lie in the room that lines are read or decoded into.
#[derive(Debug, Drop)]
pub struct Piece<'a> {
    bytes: &'a [u8],
}

impl<'a> Model for Piece<'a> {
    ghost use Rattle.std.specs.Prelude.{ℕ, List};

    ghost Value = { List ℕ };

    ghost view = { λ p. p.bytes.now };
}

impl<'a> Piece<'a> {
    pub fn new(bytes: &'a [u8]) -> Piece<'a>
        ensures { result ≡ bytes.now }
    {
        Piece { bytes }
    }

    pub fn as_slice(&self) -> &'a [u8]
        ensures { result.now ≡ self.now }
    {
        self.bytes
    }
}

/// What a line asks for.
#[derive(Debug, Drop)]
pub enum Event<'a> {
    /// A file of this name is made, empty, in the root.
    MakeFile(Piece<'a>),
    /// A connection sends these bytes, at least one, behind those that it sent before.
    Bytes { conn: u32, bytes: Piece<'a> },
    /// The writer of a file does the first job.
    Turn(u64),
    /// An open file hears of its writer, and sends what is ready.
    Pump(u64),
    /// What an open file has stored is made durable.
    Sync(u64),
    /// So many milliseconds are gone: each open file is judged, and closed where it is to be.
    Tick(u32),
    /// A connection hangs up: none of its requests is answered any more.
    HangUp(u32),
}
