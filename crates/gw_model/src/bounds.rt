//! Sizes that hold whatever the settings are.
ghost use Rattle.std.specs.Prelude.{◌≡◌};
ghost use Rattle.gw_model.specs.Bounds as bound;

/// The greatest count of one READ or WRITE, in bytes: `rtmax` and `wtmax` of RFC 1813 section 3.3.19.
pub const MAX_TRANSFER: u32 = 1_048_576;
/// What a write that is pending, or a job that is ready, weighs beside its bytes, in bytes.
pub const BASE_WEIGHT: u64 = 1024;
/// The requests that may wait for one sync.
pub const MAX_WAITING: usize = 1024;
/// The end of a file is below this number of bytes, 2^63.
pub const END_LIMIT: u64 = 1 << 63;
/// The writes that one opening of a file accepts at most.
pub const MAX_HISTORY: u64 = 131_072;

/// Each constant is the bound that the definitions name. The function does nothing.
pub fn bound_laws()
    ensures transfer { MAX_TRANSFER ≡ bound.max_transfer }
    ensures weight { BASE_WEIGHT ≡ bound.base_weight }
    ensures waiting { MAX_WAITING ≡ bound.max_waiting }
    ensures end { END_LIMIT ≡ bound.end_limit }
    ensures history { MAX_HISTORY ≡ bound.max_history }
{}
