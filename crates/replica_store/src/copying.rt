// The copying of what one file of an object lacks from another one.
ghost use Rattle.std.specs.Prelude.{slice_set, ◌≡◌, ◌≤◌, ◌<◌, ◌-◌, ◌++◌, ℕ, List, length, min, take, true, false};
ghost use Rattle.std.specs.Prelude.{IfOk, IfNone, IfSome, IsErrOf, OnOk};
ghost use Rattle.std.specs.List.{AllByRecursion, AllZip};
ghost use Rattle.append_store.specs.Calls.{part_at};
ghost use Rattle.replica_store.specs.Copying.{Extends};
ghost use Rattle.replica_store.specs.Levels.{AreFronts, AreLevel, AreMeasured, CatchesUp, Completes, FailsOn, HasFailed};
ghost use Rattle.replica_store.specs.Levels.{Lends, Measures, Serves, StayFronts};
ghost use Rattle.replica_store.specs.Parts.{IsLead, part_of};

use crate::parts::{Lead, Part, kept_of, lead_of, size_of, sync_each};
use append_store::AppendFile;
use std::mem;

// How many bytes are copied at once, at most.
const PIECE: usize = 4096;

/// Which of the two files failed.
#[derive(Clone, Copy, Debug, PartialEq, Eq)]
pub(crate) enum CopyFault {
    Source,
    Target,
}

// Copies a piece of the source that begins at `at`, where the target ends, as much as the buffer
// takes.
#[tactic(auto, using(crate::proofs::Serving::failed_later, crate::proofs::Serving::failed_rose))]
fn copy_piece<F: AppendFile>(
    source: &mut F,
    target: &mut F,
    at: u64,
    buffer: &mut [u8],
) -> Result<usize, CopyFault>
    ensures count { IfOk result (λ n. n ≡ min (length buffer.old) (length (F.content source.old) - at)) }
    ensures piece { IfOk result (λ n. F.tells → F.content target.new ≡ F.content target.old ++ part_at (F.content source.old) at n) }
    ensures content { F.tells → at ≡ length (F.content target.old)
        → Extends (F.content source.old) (F.content target.old) (F.content target.new) }
    ensures durable { F.tells → F.durable target.old ≤ F.durable target.new }
    ensures same { F.mark target.new ≡ F.mark target.old }
    ensures later { FailsOn (F.tally target.old) (F.tally target.new) }
    ensures source_content { F.tells → F.content source.new ≡ F.content source.old }
    ensures source_durable { F.tells → F.durable source.new ≡ F.durable source.old }
    ensures source_same { F.mark source.new ≡ F.mark source.old }
    ensures source_later { FailsOn (F.tally source.old) (F.tally source.new) }
    ensures target_failed { IsErrOf result CopyFault.Target → HasFailed (F.tally target.old) (F.tally target.new) }
    ensures source_failed { IsErrOf result CopyFault.Source → HasFailed (F.tally source.old) (F.tally source.new) }
{
    let count = match source.read_at(at, buffer) {
        Ok(count) => count,
        Err(_) => return Err(CopyFault::Source),
    };
    match target.append(&buffer[..count]) {
        Ok(()) => Ok(count),
        Err(_) => Err(CopyFault::Target),
    }
}

// Adds to the target what the source has beyond the target's length.
pub(crate) fn catch_up<F: AppendFile>(source: &mut F, target: &mut F) -> Result<(), CopyFault>
    ensures whole { OnOk result (F.tells → length (F.content source.old) ≤ length (F.content target.new)) }
    ensures content { F.tells → Extends (F.content source.old) (F.content target.old) (F.content target.new) }
    ensures front { F.tells → F.content target.old ≡ take (length (F.content target.old)) (F.content target.new) }
    ensures durable { F.tells → F.durable target.old ≤ F.durable target.new }
    ensures same { F.mark target.new ≡ F.mark target.old }
    ensures later { FailsOn (F.tally target.old) (F.tally target.new) }
    ensures source_content { F.tells → F.content source.new ≡ F.content source.old }
    ensures source_durable { F.tells → F.durable source.new ≡ F.durable source.old }
    ensures source_same { F.mark source.new ≡ F.mark source.old }
    ensures source_later { FailsOn (F.tally source.old) (F.tally source.new) }
    ensures target_failed { IsErrOf result CopyFault.Target → HasFailed (F.tally target.old) (F.tally target.new) }
    ensures source_failed { IsErrOf result CopyFault.Source → HasFailed (F.tally source.old) (F.tally source.new) }
{
    let mut buffer = [0; PIECE];
    let size = source.len();
    let mut at = target.len();
    while at < size {
        let count = copy_piece(source, target, at, &mut buffer)?;
        if count == 0 {
            break;
        }
        at += count as u64;
    }
    Ok(())
}

// Notes how long a file is.
pub(crate) fn measure_one<F: AppendFile>(part: &mut Part<F>)
    ensures { Measures part.old part.new }
{
    part.kept = size_of(part);
}

// Notes how long each file is.
fn measure_each<F: AppendFile>(parts: &mut Vec<Part<F>>)
    ensures { AllZip Measures parts.old.items parts.new.items }
{
    for part in parts.iter_mut() {
        measure_one(part);
    }
}

// The longest of the files that are written, and how many bytes it has.
fn longest<F: AppendFile>(parts: &mut Vec<Part<F>>) -> Option<Lead>
    ensures pairs { AllZip Measures parts.old.items parts.new.items }
    ensures lead { IfSome result (λ lead. IsLead parts.new.items lead.index) }
    ensures kept { IfSome result (λ lead. lead.kept ≡ (part_of parts.new.items lead.index).kept) }
    ensures none { IfNone result (AllByRecursion (λ p. p.live ≡ false) parts.new.items) }
{
    measure_each(parts);
    let index = lead_of(parts)?;
    let kept = kept_of(parts, index);
    Some(Lead { index, kept })
}

// Adds to one file what the chief has beyond it, and drops whichever fails. Where one of them isn't
// written any more, nothing is done.
#[tactic(auto, using(crate::proofs::Serving::front_self))]
fn catch_up_one<F: AppendFile>(part: &mut Part<F>, chief: &mut Part<F>)
    ensures part { CatchesUp F.tells chief.old.content part.old part.new }
    ensures whole { chief.new.live ≡ true → Completes F.tells chief.old.content part.old part.new }
    ensures chief { Lends F.tells chief.old chief.new }
{
    if !part.live || !chief.live {
        return;
    }
    let Some(source) = &mut chief.file else {
        chief.live = false;
        return;
    };
    let Some(target) = &mut part.file else {
        part.live = false;
        return;
    };
    match catch_up(source, target) {
        Ok(()) => {}
        Err(CopyFault::Source) => chief.live = false,
        Err(CopyFault::Target) => part.live = false,
    }
}

// Adds to each file what the chief has beyond it, until the chief fails.
fn catch_up_each<F: AppendFile>(parts: &mut Vec<Part<F>>, chief: &mut Part<F>)
    ensures parts { AllZip (CatchesUp F.tells chief.old.content) parts.old.items parts.new.items }
    ensures whole { chief.new.live ≡ true → AllZip (Completes F.tells chief.old.content) parts.old.items parts.new.items }
    ensures chief { Lends F.tells chief.old chief.new }
{
    for part in parts.iter_mut() {
        catch_up_one(part, chief);
    }
}

// Puts a file in the place of another one, and gives that.
fn exchange<F: AppendFile>(parts: &mut Vec<Part<F>>, index: usize, part: Part<F>) -> Part<F>
    requires { index < length parts.old.items }
    ensures old { result ≡ part_of parts.old.items index }
    ensures new { parts.new.items ≡ slice_set parts.old.items index part }
{
    mem::replace(&mut parts[index], part)
}

// Puts a file in its place.
fn put<F: AppendFile>(parts: &mut Vec<Part<F>>, index: usize, part: Part<F>)
    requires { index < length parts.old.items }
    ensures { parts.new.items ≡ slice_set parts.old.items index part }
{
    parts[index] = part;
}

// Whether a file is still written.
fn is_live_at<F: AppendFile>(parts: &Vec<Part<F>>, index: usize) -> bool
    requires { index < length parts.now.items }
    ensures { result ≡ (part_of parts.now.items index).live }
{
    parts[index].live
}

// Adds to each file that is written what the chief has beyond it; false where the chief failed.
fn gather<F: AppendFile>(parts: &mut Vec<Part<F>>, index: usize) -> bool
    requires there { index < length parts.old.items }
    ensures pairs { AllZip (CatchesUp F.tells (part_of parts.old.items index).content) parts.old.items parts.new.items }
    ensures whole { result ≡ true
        → AllZip (Completes F.tells (part_of parts.old.items index).content) parts.old.items parts.new.items }
    ensures chief { Lends F.tells (part_of parts.old.items index) (part_of parts.new.items index) }
    ensures live { result ≡ (part_of parts.new.items index).live }
{
    let mut chief = exchange(parts, index, Part::missing());
    catch_up_each(parts, &mut chief);
    let live = chief.is_live();
    put(parts, index, chief);
    live
}

// One round: each file that is written gets what the longest one has, and is made durable. False
// where the longest one failed.
fn level_by<F: AppendFile>(parts: &mut Vec<Part<F>>, index: usize) -> bool
    requires lead { IsLead parts.old.items index }
    requires measured { AreMeasured parts.old.items }
    ensures pairs { AllZip (Serves F.tells) parts.old.items parts.new.items }
    ensures fronts { (bytes : List ℕ) (least : ℕ) → AreFronts F.tells bytes least parts.old.items
        → StayFronts F.tells bytes least parts.old.items parts.new.items }
    ensures level { result ≡ true → (bytes : List ℕ) (least : ℕ) → AreFronts F.tells bytes least parts.old.items
        → AreLevel F.tells (part_of parts.new.items index).content parts.new.items }
    ensures length { F.tells → length (part_of parts.new.items index).content ≡ (part_of parts.old.items index).kept }
    ensures live { result ≡ (part_of parts.new.items index).live }
{
    if !gather(parts, index) {
        return false;
    }
    sync_each(parts);
    is_live_at(parts, index)
}

// Brings all files that are written to the content of the longest one, and makes them durable: which
// of them tells it, and its length. None where each of them failed.
pub(crate) fn level<F: AppendFile>(parts: &mut Vec<Part<F>>) -> Option<Lead>
    ensures pairs { AllZip (Serves F.tells) parts.old.items parts.new.items }
    ensures fronts { (bytes : List ℕ) (least : ℕ) → AreFronts F.tells bytes least parts.old.items
        → StayFronts F.tells bytes least parts.old.items parts.new.items }
    ensures level { IfSome result (λ lead. (bytes : List ℕ) (least : ℕ) → AreFronts F.tells bytes least parts.old.items
        → AreLevel F.tells (part_of parts.new.items lead.index).content parts.new.items) }
    ensures lead { IfSome result (λ lead. (lead.index < length parts.new.items) × ((part_of parts.new.items lead.index).live ≡ true)) }
    ensures length { IfSome result (λ lead. F.tells → length (part_of parts.new.items lead.index).content ≡ lead.kept) }
    ensures none { IfNone result (AllByRecursion (λ p. p.live ≡ false) parts.new.items) }
{
    while let Some(lead) = longest(parts) {
        if level_by(parts, lead.index) {
            return Some(lead);
        }
    }
    None
}
