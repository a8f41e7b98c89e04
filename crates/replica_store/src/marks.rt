// The mark of a file that is made of several tells what each of these has.
ghost use Rattle.replica_store.specs.Marks.{MarksTell};

/// A joined mark tells what it was made of.
#[tactic(auto, using(crate::proofs::Marking::marks_tell))]
pub fn marks_law()
    ensures { MarksTell }
{}
