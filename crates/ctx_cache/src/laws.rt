// What the definitions come to that the contracts cite: laws, each a clause. The function does nothing.
ghost use Rattle.ctx_cache.specs.Laws.{FullIsBusy, LeastUsedIsReplaced, RemovingUndoesEntering, ReplacingKeepsOrder, ReplacingKeepsNumber};

/// The file that is replaced is idle, and none that was used less recently is. Where none is replaced all are busy. A file
/// that was entered and is taken out again leaves the order as it was; one that came in place of another leaves the
/// others in theirs, as many as before.
pub fn order_laws()
    ensures replaced { LeastUsedIsReplaced }
    ensures busy { FullIsBusy }
    ensures undone { RemovingUndoesEntering }
    ensures order { ReplacingKeepsOrder }
    ensures number { ReplacingKeepsNumber }
{}
