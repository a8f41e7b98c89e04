// What the definitions mean for one another. No law has a body: each clause is a fact of the definitions, which callers cite.
ghost use Rattle.edit_log.specs.Laws.{FitsWhereJudged, FrontsAreTorn, HasListedSizes, HoldsOneMore, IsInRangeWhereJudged, IsReadAgain, KeepsAnswered, ListsAllOrNothing, ListsAnswered, ListsJustAnswered, ListsWholeEdits, PassesOverTornEnds, PassesOverTornHeaders, RecoversAnswered, RecoversCrashedRun, RecoversFailedRun, RecoversRun, RecoversSteps, RecoversStore, RunsWhereJudged, StartsFromLogs, StartsJudgeable, StartsRecoverable, StaysJudgeable};

/// What is written for an edit in its ranges is read again, but for its times and its verifier. What lacks some bytes at its
/// end is torn.
#[tactic(auto, using(crate::proofs::EditTexts::edit_again))]
pub fn text_law()
    ensures again { IsReadAgain }
    ensures torn { FrontsAreTorn }
{}

/// A log of edits lists them, and an end that is torn is passed over.
#[tactic(auto, using(crate::proofs::LoggedEdits::log_whole, crate::proofs::LoggedEdits::front_read, crate::proofs::LoggedEdits::front_torn, crate::proofs::LoggedEdits::header_cut))]
pub fn listing_law()
    ensures whole { ListsWholeEdits }
    ensures torn { PassesOverTornEnds }
    ensures front { ListsAllOrNothing }
    ensures header { PassesOverTornHeaders }
{}

/// After any crash the recovered tree is that of a front of the edits that were added to a log, which has all that were
/// answered: after a failed add it may have that one edit more.
pub fn recovery_law()
    ensures more { HoldsOneMore }
    ensures keeps { KeepsAnswered }
    ensures lists { ListsAnswered }
    ensures just { ListsJustAnswered }
    ensures tree { RecoversAnswered }
{}

/// A start has the tree of all logs of the store. After a crash the next one has it with the edits that were answered since, by
/// the list that the store then gives.
pub fn store_law()
    ensures start { StartsFromLogs }
    ensures crash { RecoversStore }
{}

/// What a start recovers of a run is the tree that the run left, but for times, the verifiers of exclusive creations, and the
/// sizes of files, which are the lengths of their bodies. After a crash it is that of the steps whose edits were answered, and
/// after a failed add perhaps with the edit of this add.
pub fn run_law()
    ensures start { StartsRecoverable }
    ensures sizes { HasListedSizes }
    ensures steps { RecoversSteps }
    ensures run { RecoversRun }
    ensures crash { RecoversCrashedRun }
    ensures failed { RecoversFailedRun }
{}

/// An edit that a tree judges a request to come to fits that tree: so it is over the tree that a start gives, and after any
/// steps of a run. So a run of such edits is one of which `run_law` speaks. The edit is in the ranges of its text, but for a
/// link's path that is too long.
pub fn judged_law()
    ensures start { StartsJudgeable }
    ensures stays { StaysJudgeable }
    ensures fits { FitsWhereJudged }
    ensures runs { RunsWhereJudged }
    ensures range { IsInRangeWhereJudged }
{}
