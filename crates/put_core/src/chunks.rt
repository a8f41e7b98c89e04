// How far the chunks of a source are.
ghost use Rattle.std.specs.Prelude.{◌≡◌, ◌<◌, ◌≤◌, length, map, position, IfSome, count_by};
ghost use Rattle.put_core.specs.Steps.{first_unheld, idle_place, is_unsent, is_sent, last_place, unheld_chunk, unsent_chunk};
ghost use Rattle.put_core.specs.Kept.{AreSent};

use crate::call::{ChunkState, SentWrite};

impl ChunkState {
    fn is_unsent(self) -> bool
        ensures { result ≡ is_unsent self }
    {
        match self {
            ChunkState::Idle => true,
            ChunkState::Sent | ChunkState::Held => false,
        }
    }

    fn unheld(self) -> ChunkState
        ensures { result ≡ unheld_chunk self }
    {
        match self {
            ChunkState::Sent => ChunkState::Sent,
            ChunkState::Idle | ChunkState::Held => ChunkState::Idle,
        }
    }
}

// The first chunk of these that is to be sent.
fn first_idle(chunks: &[ChunkState]) -> Option<usize>
    ensures { result ≡ position is_unsent chunks.now }
{
    chunks.iter().position(|chunk| chunk.is_unsent())
}

// The last chunk of these that is to be sent.
fn last_idle(chunks: &[ChunkState]) -> Option<usize>
    ensures { result ≡ last_place is_unsent chunks.now }
{
    let mut end = chunks.len();
    while end > 0 {
        if chunks[end - 1].is_unsent() {
            return Some(end - 1);
        }
        end -= 1;
    }
    None
}

// The first chunk of these that is to be sent, or the last.
pub(crate) fn idle_place(chunks: &[ChunkState], backward: bool) -> Option<usize>
    ensures value { result ≡ idle_place backward chunks.now }
    ensures within { IfSome result (λ k. k < length chunks.now) }
{
    if backward {
        last_idle(chunks)
    } else {
        first_idle(chunks)
    }
}

// The least chunk that isn't held, where all before `from` are. Passes over each chunk that is held once.
pub(crate) fn unheld_from(chunks: &[ChunkState], from: usize) -> usize
    requires { from ≤ first_unheld chunks.now }
    ensures { result ≡ first_unheld chunks.now }
{
    let mut first = from;
    while first < chunks.len() {
        match chunks[first] {
            ChunkState::Held => first += 1,
            ChunkState::Idle | ChunkState::Sent => return first,
        }
    }
    first
}

// No chunk is held any more.
pub(crate) fn forget_held(chunks: &mut [ChunkState])
    ensures { chunks.new ≡ map unheld_chunk chunks.old }
{
    for place in 0..chunks.len() {
        chunks[place] = chunks[place].unheld();
    }
}

// No chunk's WRITE is outstanding any more, where these were.
pub(crate) fn release_all(chunks: &mut [ChunkState], writes: &[SentWrite])
    requires sent { AreSent chunks.old writes.now }
    requires counted { length writes.now ≡ count_by is_sent chunks.old }
    ensures { chunks.new ≡ map unsent_chunk chunks.old }
{
    for write in writes {
        chunks[write.chunk as usize] = ChunkState::Idle;
    }
}
