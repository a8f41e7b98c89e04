// What edits mean for the names and the attributes of a tree. The law has no body: each clause is a fact of the definitions,
// which callers cite.
ghost use Rattle.name_tree.specs.Tree.{root_tree};
ghost use Rattle.name_tree.specs.Flat.{AttrsAfter, IsSoundTree, KeepsSound, KeepsUnfitting, NamesAfter};

/// A tree is a table of names, each in a directory, and a list of attributes. An edit that fits adds, takes out or replaces
/// names and attributes, and another one does nothing.
pub fn tree_laws()
    ensures root { IsSoundTree root_tree }
    ensures sound { KeepsSound }
    ensures unfitting { KeepsUnfitting }
    ensures names { NamesAfter }
    ensures attributes { AttrsAfter }
{}
