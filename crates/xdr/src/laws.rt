// What the definitions of reading and writing mean for one another. No law has a body: each is a fact
// of the definitions, which callers cite.
ghost use Rattle.std.specs.Prelude.{◌≡◌, ◌↔◌, ◌+◌, ◌<◌, ◌≤◌, ◌^◌, ◌++◌, ◌∷◌, ℕ, Bool, List, [], length, All, Ok, Err};
ghost use Rattle.xdr.specs.declared.fault.XdrFault.{XdrFault};
ghost use Rattle.xdr.specs.Items.{word, long, pad_len, bool_text, fixed_text, opaque_text, SpellsU32, SpellsU64, SpellsBool, SpellsFixed, SpellsOpaque};
ghost use Rattle.xdr.specs.Rows.{Item, Spells, text, AllFit, AllBounded, row_length};
ghost use Rattle.xdr.specs.Reading.{Cursor, Takes, u32_at, u64_at, bool_at, fixed_at, opaque_at, finish_at};

/// A number of 32 bits is read from exactly its spellings; the written word spells it, and is read
/// again; no other bytes spell it.
pub fn u32_law()
    ensures exact { (from to : Cursor) (n : ℕ) → (u32_at from ≡ Ok (n, to)) ↔ Takes SpellsU32 from n to }
    ensures written { (n : ℕ) → n < 2 ^ 32 → SpellsU32 (word n) n }
    ensures again { (place n : ℕ) (rest : List ℕ) → n < 2 ^ 32
        → u32_at (record { place = place; left = word n ++ rest })
        ≡ Ok (n, record { place = place + 4; left = rest }) }
    ensures only { (bytes : List ℕ) (n : ℕ) → All (λ b. b < 256) bytes → SpellsU32 bytes n → bytes ≡ word n }
{}

/// The same for a number of 64 bits.
pub fn u64_law()
    ensures exact { (from to : Cursor) (n : ℕ) → (u64_at from ≡ Ok (n, to)) ↔ Takes SpellsU64 from n to }
    ensures written { (n : ℕ) → n < 2 ^ 64 → SpellsU64 (long n) n }
    ensures again { (place n : ℕ) (rest : List ℕ) → n < 2 ^ 64
        → u64_at (record { place = place; left = long n ++ rest })
        ≡ Ok (n, record { place = place + 8; left = rest }) }
    ensures only { (bytes : List ℕ) (n : ℕ) → All (λ b. b < 256) bytes → SpellsU64 bytes n → bytes ≡ long n }
{}

/// The same for a boolean.
pub fn bool_law()
    ensures exact { (from to : Cursor) (b : Bool) → (bool_at from ≡ Ok (b, to)) ↔ Takes SpellsBool from b to }
    ensures written { (b : Bool) → SpellsBool (bool_text b) b }
    ensures again { (place : ℕ) (b : Bool) (rest : List ℕ)
        → bool_at (record { place = place; left = bool_text b ++ rest })
        ≡ Ok (b, record { place = place + 4; left = rest }) }
{}

/// An opaque of a known length is read from exactly its spellings, of which the written one has zero
/// padding.
pub fn fixed_law()
    ensures exact { (len : ℕ) (from to : Cursor) (v : List ℕ)
        → (fixed_at len from ≡ Ok (v, to)) ↔ ((length v ≡ len) × Takes SpellsFixed from v to) }
    ensures written { (v : List ℕ) → SpellsFixed (fixed_text v) v }
    ensures again { (place : ℕ) (v rest : List ℕ)
        → fixed_at (length v) (record { place = place; left = fixed_text v ++ rest })
        ≡ Ok (v, record { place = place + (length v + pad_len (length v)); left = rest }) }
{}

/// The same for an opaque with its length, up to a greatest length.
pub fn opaque_law()
    ensures exact { (max : ℕ) (from to : Cursor) (v : List ℕ)
        → (opaque_at max from ≡ Ok (v, to)) ↔ ((length v ≤ max) × Takes SpellsOpaque from v to) }
    ensures written { (v : List ℕ) → length v < 2 ^ 32 → SpellsOpaque (opaque_text v) v }
    ensures again { (max place : ℕ) (v rest : List ℕ) → length v ≤ max → length v < 2 ^ 32
        → opaque_at max (record { place = place; left = opaque_text v ++ rest })
        ≡ Ok (v, record { place = place + (4 + length v + pad_len (length v)); left = rest }) }
{}

/// The reading ends well exactly where nothing is left.
pub fn finish_law()
    ensures exact { (c : Cursor) → (finish_at c ≡ Ok tt) ↔ (c.left ≡ []) }
{}

/// What is written for a row spells it, and has so many bytes; bytes spell only a row whose items are within their
/// bounds.
pub fn row_law()
    ensures written { (row : List Item) → AllFit row → Spells (text row) row }
    ensures length { (row : List Item) → length (text row) ≡ row_length row }
    ensures bounded { (bytes : List ℕ) (row : List Item) → Spells bytes row → AllBounded row }
{}
