// Any reader of std as a source, and any writer as a sink. They tell what the inner one tells.
ghost use Rattle.std.specs.Prelude.{◌≡◌, ◌<◌, length, IfOk, false, is_err};
ghost use Rattle.std.specs.Io.{ReadsAtMost, WritesAtMost};
ghost use Rattle.std.specs.Io.KnownBytes.{ReadConsumes, WriteAppends};
ghost use Rattle.gw_outside.specs.Causes.{HasCause, count_after, ended_after};

use crate::{ReadFault, Sink, Source, WriteFault};
use std::io::{Read, Write};

/// A reader of std as a source. Its count rises at each error.
#[derive(Drop)]
pub struct Reading<R: Read> {
    inner: R,
    ended: bool,
    faults: u64,
}

impl<R: Read + Drop> Reading<R> {
    /// A source over this reader, which hasn't failed or ended.
    pub fn new(inner: R) -> Self
        ensures left { ⟦<Reading<R> as Source>⟧.left result ≡ R.remaining inner }
        ensures ended { ⟦<Reading<R> as Source>⟧.ended result ≡ false }
        ensures count { ⟦<Reading<R> as Source>⟧.count result ≡ 0 }
    {
        Reading {
            inner,
            ended: false,
            faults: 0,
        }
    }
}

impl<R: Read + Drop> Source for Reading<R> {
    ghost left = { λ s. R.remaining s.inner };

    ghost ended = { λ s. s.ended };

    ghost count = { λ s. s.faults };

    fn read(&mut self, out: &mut [u8]) -> Result<usize, ReadFault>
        ensures bound { ReadsAtMost result out.new }
        ensures bytes { ReadConsumes (⟦<Reading<R> as Source>⟧.left self.old) (⟦<Reading<R> as Source>⟧.left self.new) result out.new }
        ensures ended { ⟦<Reading<R> as Source>⟧.ended self.new
            ≡ ended_after (⟦<Reading<R> as Source>⟧.ended self.old) result (length out.old) }
        ensures cause { HasCause (⟦<Reading<R> as Source>⟧.count self.old) (⟦<Reading<R> as Source>⟧.count self.new) result }
        ensures exact { ⟦<Reading<R> as Source>⟧.count self.new ≡ count_after (⟦<Reading<R> as Source>⟧.count self.old) (is_err result) }
    {
        match self.inner.read(out) {
            Ok(count) => {
                if count == 0 && !out.is_empty() {
                    self.ended = true;
                }
                Ok(count)
            }
            Err(_) => {
                self.faults = self.faults.saturating_add(1);
                Err(ReadFault)
            }
        }
    }

    fn faults(&self) -> u64 {
        self.faults
    }
}

/// A writer of std as a sink. Its count rises at each error, and where the writer takes none of
/// a piece that isn't empty.
#[derive(Drop)]
pub struct Writing<W: Write> {
    inner: W,
    faults: u64,
}

impl<W: Write + Drop> Writing<W> {
    /// A sink over this writer, which hasn't failed.
    pub fn new(inner: W) -> Self
        ensures held { ⟦<Writing<W> as Sink>⟧.held result ≡ W.contents inner }
        ensures count { ⟦<Writing<W> as Sink>⟧.count result ≡ 0 }
    {
        Writing { inner, faults: 0 }
    }
}

impl<W: Write + Drop> Sink for Writing<W> {
    ghost held = { λ s. W.contents s.inner };

    ghost count = { λ s. s.faults };

    fn write(&mut self, bytes: &[u8]) -> Result<usize, WriteFault>
        ensures bound { WritesAtMost result bytes.now }
        ensures some { IfOk result (λ n. 0 < length bytes.now → 0 < n) }
        ensures bytes { WriteAppends (⟦<Writing<W> as Sink>⟧.held self.old) (⟦<Writing<W> as Sink>⟧.held self.new) result bytes.now }
        ensures cause { HasCause (⟦<Writing<W> as Sink>⟧.count self.old) (⟦<Writing<W> as Sink>⟧.count self.new) result }
        ensures exact { ⟦<Writing<W> as Sink>⟧.count self.new ≡ count_after (⟦<Writing<W> as Sink>⟧.count self.old) (is_err result) }
    {
        match self.inner.write(bytes) {
            Ok(count) if count > 0 || bytes.is_empty() => Ok(count),
            _ => {
                self.faults = self.faults.saturating_add(1);
                Err(WriteFault)
            }
        }
    }

    fn faults(&self) -> u64 {
        self.faults
    }
}
