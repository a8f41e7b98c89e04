// The members of a replicated store, and what is kept of an object.
ghost use Rattle.std.specs.Prelude.{◌≡◌, ◌+◌, ◌-◌, ◌^◌, min, true, false, IfSome, IfNone};
ghost use Rattle.std.specs.List.{AllByRecursion};
ghost use Rattle.replica_store.specs.Seats.{IsCalledAt, called_of, counts_of, seat_view};

use crate::parts::Part;
use append_store::{AppendFile, Cluster};
use std::marker::Model;

/// A member of a replicated store.
#[derive(Drop)]
pub struct Seat<C> {
    pub(crate) cluster: C,
    // Whether it is still called.
    pub(crate) live: bool,
    // Whether it made the object of the last creation.
    pub(crate) made: bool,
}

impl<C> Seat<C> {
    /// A member that is called.
    pub fn new(cluster: C) -> Seat<C>
        ensures { result ≡ record { cluster = cluster; live = true; made = false } }
    {
        Seat {
            cluster,
            live: true,
            made: false,
        }
    }

    /// The member, whether it is still called or not.
    pub fn into_cluster(self) -> C
        ensures { result ≡ self.cluster }
    {
        self.cluster
    }
}

/// What is kept of an object: which member tells it, how many bytes each that takes part has durable
/// at least, and at each member's place whether it takes part. The parts are the room for the
/// members' files, and go out with the file.
#[derive(Drop)]
pub struct Known<F: AppendFile> {
    pub(crate) chief: usize,
    pub(crate) synced: u64,
    pub(crate) parts: Vec<Part<F>>,
}

impl<F: AppendFile> Model for Known<F> {
    ghost use Rattle.replica_store.specs.Seats.{KnownState};

    ghost Value = { KnownState };

    ghost view = { λ k. record { chief = k.chief; synced = k.synced; parts = k.parts.items } };
}

// How many members are still called.
pub(crate) fn count_called<C: Cluster>(seats: &Vec<Seat<C>>) -> usize
    ensures { result ≡ called_of (seat_view C.at C.losses C.count) seats.now.items }
{
    let mut count = 0;
    for seat in seats {
        if seat.live {
            count += 1;
        }
    }
    count
}

// The first member that is still called.
pub(crate) fn first_called<C: Cluster>(seats: &Vec<Seat<C>>) -> Option<usize>
    ensures some { IfSome result (λ k. IsCalledAt (seat_view C.at C.losses C.count) seats.now.items k) }
    ensures none { IfNone result (AllByRecursion (λ s. s.live ≡ false) seats.now.items) }
{
    for i in 0..seats.len() {
        if seats[i].live {
            return Some(i);
        }
    }
    None
}

// How often the members have failed, with so many more.
pub(crate) fn count_failures<C: Cluster>(seats: &Vec<Seat<C>>, refusals: u64) -> u64
    ensures { result ≡ min (counts_of (seat_view C.at C.losses C.count) seats.now.items + refusals) (2 ^ 64 - 1) }
{
    let mut count = refusals;
    for seat in seats {
        count = count.saturating_add(seat.cluster.faults());
    }
    count
}
