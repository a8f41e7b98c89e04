// What the definitions come to. Each function says it in its contract, and does nothing.
ghost use Rattle.std.specs.Prelude.{◌≡◌, ◌≤◌, ◌<◌, ◌^◌, ◌+◌, ◌++◌, ◌∷◌, List, ℕ, Some, decimal};
ghost use Rattle.transcript.specs.Fields.{number_of};
ghost use Rattle.transcript.specs.Script.{AtBad, AtOpen, BeginsTooLong, IsPart, LineReading, TakesLine, line_then, max_lines, script_from, empty_script};

/// A field is read as the number that prints it, and each number as what is printed of it.
pub fn number_law()
    ensures read_as { (bits : ℕ) (text : List ℕ) (n : ℕ) → number_of bits text ≡ Some n
        → (text ≡ decimal n) × (n < 2 ^ bits) }
    ensures printed { (bits n : ℕ) → bits ≤ 64 → n < 2 ^ bits
        → number_of bits (decimal n) ≡ Some n }
{}

/// The script of bytes by what they begin with, for any grammar and after any number of lines.
///
/// A line goes to the grammar (`line`, and `takes` where it was taken off the bytes). Bytes that
/// begin too long, and what comes after as many lines as there may be, are bad whatever follows.
/// Bytes that are part of a line end open.
pub fn script_laws<G, E>()
    ensures line { (read : G → List ℕ → LineReading G E) (grammar : G) (before : ℕ) (line rest : List ℕ)
        → before < max_lines → IsPart line
        → script_from read grammar before (line ++ 10 ∷ rest)
        ≡ line_then (read grammar line) (λ later. script_from read later (before + 1) rest) }
    ensures takes { (read : G → List ℕ → LineReading G E) (grammar : G) (before : ℕ) (line old new more : List ℕ)
        → before < max_lines → TakesLine line old new
        → script_from read grammar before (old ++ more)
        ≡ line_then (read grammar line) (λ later. script_from read later (before + 1) (new ++ more)) }
    ensures long { (read : G → List ℕ → LineReading G E) (grammar : G) (before : ℕ) (bytes more : List ℕ)
        → BeginsTooLong bytes
        → script_from read grammar before (bytes ++ more) ≡ empty_script AtBad }
    ensures late { (read : G → List ℕ → LineReading G E) (grammar : G) (before : ℕ) (bytes : List ℕ)
        → max_lines ≤ before
        → script_from read grammar before bytes ≡ empty_script AtBad }
    ensures part { (read : G → List ℕ → LineReading G E) (grammar : G) (before : ℕ) (bytes : List ℕ)
        → before < max_lines → IsPart bytes
        → script_from read grammar before bytes ≡ empty_script AtOpen }
{}
