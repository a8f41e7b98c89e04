// What the definitions of arguments and results mean. No law has a body: each is a fact of the definitions, which callers
// cite.
ghost use Rattle.std.specs.Prelude.{◌≡◌, ◌↔◌, ℕ, List, Ok};
ghost use Rattle.xdr.specs.Rows.{Spells, text, AllFit};
ghost use Rattle.nfs_wire.specs.declared.args.Args.{Args};
ghost use Rattle.nfs_wire.specs.Arguments.{args_row, procedure_of, args_of};
ghost use Rattle.nfs_wire.specs.Results.{Results, results_row, results_at, AnswerOf};

/// Bytes are read as arguments of a procedure exactly where they are its own and the bytes spell them, with any padding.
/// What is written for arguments, with zero padding, is read again.
pub fn args_law()
    ensures exact { (prog proc_no : ℕ) (bytes : List ℕ) (a : Args)
        → (args_of prog proc_no bytes ≡ Ok a) ↔ ((procedure_of a ≡ (prog, proc_no)) × Spells bytes (args_row a)) }
    ensures again { (a : Args) → AllFit (args_row a) → args_of (procedure_of a).0 (procedure_of a).1 (text (args_row a)) ≡ Ok a }
{}

/// The same for results: each procedure's own, or a refusal with its number of zero words.
pub fn results_law()
    ensures exact { (prog proc_no : ℕ) (bytes : List ℕ) (r : Results)
        → (results_at prog proc_no bytes ≡ Ok r) ↔ (AnswerOf prog proc_no r × Spells bytes (results_row r)) }
    ensures again { (prog proc_no : ℕ) (r : Results) → AnswerOf prog proc_no r → AllFit (results_row r)
        → results_at prog proc_no (text (results_row r)) ≡ Ok r }
{}
