// What the definitions of rows and readings mean for one another. No law has a body: each is a fact of the definitions,
// which callers cite.
ghost use Rattle.xdr.specs.Exact.{IsExact, IsReadAgain};
ghost use Rattle.nfs_types.specs.Types.{time_at, time_row, set_at, set_row, attr_at, attr_row};

/// A time is read from exactly its spellings, and what is written for it is read again.
pub fn time_law()
    ensures exact { IsExact time_at time_row }
    ensures again { IsReadAgain time_at time_row }
{}

/// The same for a set of attributes.
pub fn set_law()
    ensures exact { IsExact set_at set_row }
    ensures again { IsReadAgain set_at set_row }
{}

/// The same for attributes.
pub fn attr_law()
    ensures exact { IsExact attr_at attr_row }
    ensures again { IsReadAgain attr_at attr_row }
{}
