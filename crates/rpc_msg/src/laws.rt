// What the definition of a call means. The law has no body: it is a fact of the definitions, which
// callers cite.
ghost use Rattle.std.specs.Prelude.{◌≡◌, ◌≢◌, ◌↔◌, ℕ, List, Ok, Err};
ghost use Rattle.rpc_msg.specs.declared.fault.CallFault.{CallFault};
ghost use Rattle.rpc_msg.specs.Calls.{CallText, call_of};
ghost use Rattle.rpc_msg.specs.Spellings.{SpellsCall, call_text, CanBeWritten};

/// A message is read as a call exactly where it spells it, what is written for a call is read again, and no reading is
/// want of memory.
pub fn call_law()
    ensures exact { (bytes : List ℕ) (call : CallText) → (call_of bytes ≡ Ok call) ↔ SpellsCall bytes call }
    ensures again { (call : CallText) → CanBeWritten call → call_of (call_text call) ≡ Ok call }
    ensures no_memory { (bytes : List ℕ) (xid : ℕ) → call_of bytes ≢ Err (CallFault.Memory xid) }
{}
