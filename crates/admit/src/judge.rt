// What a request meets, before anything is changed.

/// What a WRITE meets.
#[derive(Clone, Copy, Debug, Drop)]
pub enum WriteJudgement {
    /// The file is stale.
    Barred,
    /// A cap is reached.
    Busy,
    /// It lies wholly below reach.
    Compared,
    /// The pending write of this number has its range.
    Again(u32, Repeat),
    Taken,
}

/// How a WRITE repeats a pending one of its range.
#[derive(Clone, Copy, Debug, Drop)]
pub enum Repeat {
    /// The bytes differ.
    Differs,
    /// The pending one waits for its answer.
    Unanswered,
    /// The pending one was answered.
    Answered,
    /// The pending one was answered, and takes the ticket of this one, which is to be durable.
    Takes,
}

/// What stands in the range of a WRITE.
#[derive(Clone, Copy, Debug, Drop)]
pub enum Found {
    Nothing,
    Pending(u32, Repeat),
}

/// What a COMMIT meets.
#[derive(Clone, Copy, Debug, Drop)]
pub enum CommitJudgement {
    /// The file is stale, or bytes that the COMMIT covers may be lost.
    Barred,
    /// A cap is reached.
    Busy,
    /// Reach has come to its goal.
    Settles,
    /// Reach has to come to this goal first.
    Waits(u64),
}
