// What taking one after another comes to: laws of the definitions that the contracts cite, each a clause. The function
// does nothing.
ghost use Rattle.commit_queue.specs.Laws.{TakesInOrder, LeavesOthers, TakesNoneAtEnd};

/// Taking until `None` gives all that are ready, in the order in which they were added and each once, and leaves the
/// others in theirs.
pub fn queue_laws()
    ensures order { TakesInOrder }
    ensures others { LeavesOthers }
    ensures end { TakesNoneAtEnd }
{}
