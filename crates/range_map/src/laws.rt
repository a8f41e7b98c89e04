// Laws of the definitions that the contracts of a map cite, each a clause. The function does nothing.
ghost use Rattle.range_map.specs.Laws.{GoesBehind, StaysInOrder};

/// An entry with a new number is put in order; the newest goes behind those that begin at or before it.
pub fn order_laws()
    ensures ordered { StaysInOrder }
    ensures newest { GoesBehind }
{}
