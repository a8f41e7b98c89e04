// Calls of a map, one after another: every map answers them alike.
ghost use Rattle.std.specs.Prelude.{◌≡◌, IfOk, OnOk};
ghost use Rattle.std.specs.Option.{option_copied, option_map};
ghost use Rattle.range_map.specs.Calls.{MayCall, MayCallAll, call_answer, call_answers, entries_after, entries_after_all};
ghost use Rattle.range_map.specs.Keys.{entry_key};
ghost use Rattle.range_map.specs.declared.calls.MapAnswer.TheVariants.{Lent};

use crate::{Entry, EntryKey, PendingMap, Place};
use gw_model::Stable;
use std::alloc::{AllocError, Global};
use tickets::Ticket;

/// A call of a map, with what it takes.
#[derive(Debug, Drop)]
pub enum MapCall {
    Insert(Entry),
    First,
    PopFirst,
    SameRange {
        offset: u64,
        count: u32,
    },
    GiveTicket {
        offset: u64,
        number: u32,
        stable: Stable,
        ticket: Ticket,
    },
    LastInMemory,
    SetPlace {
        offset: u64,
        number: u32,
        place: Place,
    },
    MaxGoal {
        limit: u64,
    },
    Len,
}

/// What a call answers.
#[derive(Debug, Drop)]
pub enum MapAnswer {
    /// Nothing.
    Done,
    /// The key of the entry that is lent, if there is one. It names the entry, since entries are in order of their keys.
    Lent(Option<EntryKey>),
    Popped(Option<Entry>),
    Replaced(Place),
    Goal(u64),
    Count(usize),
}

// An entry that is lent, by its key.
fn lent(entry: Option<&Entry>) -> MapAnswer
    ensures { result ≡ Lent (option_map entry_key (option_copied entry.entry)) }
{
    match entry {
        Some(entry) => MapAnswer::Lent(Some(entry.key())),
        None => MapAnswer::Lent(None),
    }
}

/// Makes a call. An Err comes only where `insert` was refused memory.
pub fn make_call<M: PendingMap>(map: &mut M, call: MapCall) -> Result<MapAnswer, AllocError>
    requires { MayCall call (M.entries map.old) }
    ensures answer { IfOk result (λ a. a ≡ call_answer call (M.entries map.old)) }
    ensures entries { OnOk result (M.entries map.new ≡ entries_after call (M.entries map.old)) }
{
    Ok(match call {
        MapCall::Insert(entry) => match map.insert(entry) {
            Ok(()) => MapAnswer::Done,
            Err(_) => return Err(AllocError),
        },
        MapCall::First => lent(map.first()),
        MapCall::PopFirst => MapAnswer::Popped(map.pop_first()),
        MapCall::SameRange { offset, count } => lent(map.same_range(offset, count)),
        MapCall::GiveTicket {
            offset,
            number,
            stable,
            ticket,
        } => {
            map.give_ticket(offset, number, stable, ticket);
            MapAnswer::Done
        }
        MapCall::LastInMemory => lent(map.last_in_memory()),
        MapCall::SetPlace {
            offset,
            number,
            place,
        } => MapAnswer::Replaced(map.set_place(offset, number, place)),
        MapCall::MaxGoal { limit } => MapAnswer::Goal(map.max_goal(limit)),
        MapCall::Len => MapAnswer::Count(map.len()),
    })
}

/// Makes the calls one after another, and gives their answers in this order. An Err comes only for want of memory.
pub fn make_calls<M: PendingMap>(
    alloc: Global,
    map: &mut M,
    calls: Vec<MapCall>,
) -> Result<Vec<MapAnswer>, AllocError>
    requires { MayCallAll calls.items (M.entries map.old) }
    ensures answers { IfOk result (λ v. v.items ≡ call_answers calls.items (M.entries map.old)) }
    ensures entries { OnOk result (M.entries map.new ≡ entries_after_all calls.items (M.entries map.old)) }
{
    let mut answers = Vec::new(alloc);
    for call in calls {
        answers.push(make_call(map, call)?)?;
    }
    Ok(answers)
}

/// Makes equal calls over two maps with equal entries, whatever maps they are: the answers are equal, and so are the
/// entries after them. An Err comes only for want of memory.
pub fn make_calls_twice<M: PendingMap, N: PendingMap>(
    alloc: Global,
    one: &mut M,
    calls: Vec<MapCall>,
    other: &mut N,
    again: Vec<MapCall>,
) -> Result<(Vec<MapAnswer>, Vec<MapAnswer>), AllocError>
    requires may { MayCallAll calls.items (M.entries one.old) }
    requires again { again.items ≡ calls.items }
    requires entries { N.entries other.old ≡ M.entries one.old }
    ensures answers { IfOk result (λ r. r.1.items ≡ r.0.items) }
    ensures entries { OnOk result (N.entries other.new ≡ M.entries one.new) }
{
    let answers = make_calls(alloc, one, calls)?;
    Ok((answers, make_calls(alloc, other, again)?))
}
