// What the definitions of changes mean. The law has no body: each clause is a fact of the definitions, which callers cite.
ghost use Rattle.name_changes.specs.ChangeLaws.{RemovedIsGone, TellsTreesAttr};

/// What is told of an edit that fits a tree is so in the tree that it leaves: the attributes of what it made, and the file that it
/// took out.
#[tactic(auto, using(crate::proofs::ChangeLaws::tells_trees_attr))]
pub fn change_laws()
    ensures attr { TellsTreesAttr }
    ensures removed { RemovedIsGone }
{}
