// What the definitions of records mean. No law has a body: each is a fact of the definitions, which
// callers cite.
ghost use Rattle.std.specs.Prelude.{◌≡◌, ◌↔◌, ◌≤◌, ◌++◌, ◌∷◌, [], ℕ, List, length, take, None, Ok, Err};
ghost use Rattle.rpc_record.specs.declared.fault.FrameFault.{FrameFault};
ghost use Rattle.rpc_record.specs.Records.{Open, Fault, Whole, front, Records, Rest, Broken, records, then_record, SpellsRecord};
ghost use Rattle.rpc_record.specs.Assembly.{Assembly, empty_assembly, feed_result, ready_records, MatchesStream};

/// A stream begins with a record exactly where it begins with the fragments of that record. More
/// bytes change neither a whole record nor a fault.
pub fn front_law()
    ensures exact { (bytes joined rest : List ℕ)
        → (front bytes ≡ Whole joined rest)
        ↔ ((text : List ℕ) × (bytes ≡ text ++ rest) × SpellsRecord text joined) }
    ensures whole { (bytes more joined rest : List ℕ) → front bytes ≡ Whole joined rest
        → front (bytes ++ more) ≡ Whole joined (rest ++ more) }
    ensures fault { (bytes more : List ℕ) (fault : FrameFault) → front bytes ≡ Fault fault
        → front (bytes ++ more) ≡ Fault fault }
{}

/// The records of a stream are its first record and the records of what follows.
pub fn records_law()
    ensures unfinished { (bytes : List ℕ) → front bytes ≡ Open
        → records bytes ≡ record { whole = []; end = Rest bytes } }
    ensures fault { (bytes : List ℕ) (fault : FrameFault) → front bytes ≡ Fault fault
        → records bytes ≡ record { whole = []; end = Broken fault } }
    ensures whole { (bytes joined rest : List ℕ) → front bytes ≡ Whole joined rest
        → records bytes ≡ then_record joined (records rest) }
{}

/// However a stream is cut into pieces, the records that an assembler gave, and the one that is
/// ready, are the records of the bytes that it took; and it is at fault where that stream is.
pub fn assembler_law()
    ensures start { MatchesStream [] [] empty_assembly }
    ensures taken { (given : List (List ℕ)) (bytes piece : List ℕ) (s t : Assembly) (count : ℕ)
        → MatchesStream given bytes s → s.ready ≡ None → feed_result s piece ≡ (Ok count, t)
        → (count ≤ length piece) × MatchesStream given (bytes ++ take count piece) t }
    ensures fault { (given : List (List ℕ)) (bytes piece : List ℕ) (s t : Assembly) (fault : FrameFault)
        → MatchesStream given bytes s → s.ready ≡ None → feed_result s piece ≡ (Err fault, t)
        → ((records (bytes ++ piece)).end ≡ Broken fault) × MatchesStream given (bytes ++ piece) t }
    ensures next { (given : List (List ℕ)) (bytes : List ℕ) (s : Assembly) → MatchesStream given bytes s
        → MatchesStream (given ++ ready_records s.ready) bytes (record s { ready = None }) }
{}
