// Calls on the file, each with the note of its outcome.
ghost use Rattle.std.specs.Prelude.{◌≡◌, ◌-◌, ◌<◌, ◌≤◌, ◌++◌, [], ◌∷◌, length, min, take, IfOk, IfErr};
ghost use Rattle.append_store.specs.Calls.{part_at};
ghost use Rattle.writeback.specs.State.{file_seen};
ghost use Rattle.writeback.specs.Steps.{append_call, plain_call, kept_bytes, with_calls, Leaves};

use append_store::{AppendFault, AppendFile, StoreFault};
use gw_model::{Outcome, Trace};

/// Adds bytes to the file.
pub fn append<F: AppendFile>(
    file: &mut F,
    bytes: &[u8],
    trace: &mut Trace,
) -> Result<(), AppendFault>
    requires { 0 < trace.old.room }
    ensures kept { IfErr result (λ e. e.kept ≤ length bytes.now) }
    ensures notes { trace.new ≡ with_calls (append_call result ∷ []) trace.old }
    ensures file { Leaves F.tells (kept_bytes (append_call result) bytes.now) (append_call result ∷ [])
        (file_seen F.mark F.content F.durable F.count F.tally file.old)
        (file_seen F.mark F.content F.durable F.count F.tally file.new) }
{
    match file.append(bytes) {
        Ok(()) => {
            trace.note(Outcome::Done);
            Ok(())
        }
        Err(fault) => {
            trace.note(Outcome::Failed { kept: fault.kept });
            Err(fault)
        }
    }
}

/// Reads what the file has from `offset` on.
pub fn read_at<F: AppendFile>(
    file: &mut F,
    offset: u64,
    out: &mut [u8],
    trace: &mut Trace,
) -> Result<usize, StoreFault>
    requires { 0 < trace.old.room }
    ensures length { IfOk result (λ n. n ≡ min (length out.old) (length (F.content file.old) - offset)) }
    ensures bytes { IfOk result (λ n. F.tells → take n out.new ≡ part_at (F.content file.old) offset n) }
    ensures notes { trace.new ≡ with_calls (plain_call result ∷ []) trace.old }
    ensures file { Leaves F.tells [] (plain_call result ∷ [])
        (file_seen F.mark F.content F.durable F.count F.tally file.old)
        (file_seen F.mark F.content F.durable F.count F.tally file.new) }
{
    match file.read_at(offset, out) {
        Ok(count) => {
            trace.note(Outcome::Done);
            Ok(count)
        }
        Err(fault) => {
            trace.note(Outcome::Failed { kept: 0 });
            Err(fault)
        }
    }
}

/// Makes the whole file durable.
pub fn hsync<F: AppendFile>(file: &mut F, trace: &mut Trace) -> Result<(), StoreFault>
    requires { 0 < trace.old.room }
    ensures done { IfOk result (λ _. F.tells → F.durable file.new ≡ length (F.content file.new)) }
    ensures notes { trace.new ≡ with_calls (plain_call result ∷ []) trace.old }
    ensures file { Leaves F.tells [] (plain_call result ∷ [])
        (file_seen F.mark F.content F.durable F.count F.tally file.old)
        (file_seen F.mark F.content F.durable F.count F.tally file.new) }
{
    match file.hsync() {
        Ok(()) => {
            trace.note(Outcome::Done);
            Ok(())
        }
        Err(fault) => {
            trace.note(Outcome::Failed { kept: 0 });
            Err(fault)
        }
    }
}
