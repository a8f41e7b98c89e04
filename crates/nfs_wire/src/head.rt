// The results of READ, WRITE and COMMIT up to their data.
ghost use Rattle.std.specs.Prelude.{◌≡◌, ◌+◌, ◌%◌, ◌^◌, ◌≤◌, ◌<◌, ◌++◌, ◌∷◌, [], length};
ghost use Rattle.arrayvec.specs.ArrayVec.{array_vec_len};
ghost use Rattle.xdr.specs.Items.{word, long, fixed_text};
ghost use Rattle.xdr.specs.Rows.{Word, text};
ghost use Rattle.nfs_wire.specs.Results.{Write, Commit, Refused, flag_item, results_row};
ghost use Rattle.nfs_wire.specs.Heads.{body_results, body_data, head_row};

use arrayvec::ArrayVec;
use std::marker::Model;
use tickets::Body;

/// The front of results, at most 64 bytes.
#[derive(Drop)]
pub struct Head {
    text: ArrayVec<u8, 64>,
}

impl Model for Head {
    ghost use Rattle.std.specs.Prelude.{List, ℕ};

    ghost Value = { List ℕ };

    ghost view = { λ h. h.text.items };
}

impl Head {
    /// Its bytes.
    pub fn bytes(&self) -> &[u8]
        ensures bytes { result.now ≡ self.now }
        ensures few { length result.now ≤ 64 }
    {
        self.text.as_slice()
    }
}

/// The results of an answer up to its data: of a READ that was done (RFC 1813 section 3.3.6) what stands in front of the
/// bytes, which follow with their padding; of a refused one, a WRITE and a COMMIT (sections 3.3.7, 3.3.21) all; nothing of
/// the others. It takes no memory.
pub fn body_head(body: &Body, verifier: u64) -> Head
    ensures exact { result ≡ text (head_row body.now verifier) }
    ensures whole { length (body_data body.now) < 2 ^ 32
        → text (results_row (body_results body.now verifier)) ≡ result ++ fixed_text (body_data body.now) }
{
    front(body, verifier)
}

fn front(body: &Body, verifier: u64) -> Head
    ensures { result ≡ text (head_row body.now verifier) }
{
    match body {
        Body::Write {
            status: 0,
            count,
            committed,
        } => write_head(*count, *committed, verifier),
        Body::Commit { status: 0 } => commit_head(verifier),
        Body::Read {
            status: 0,
            eof,
            bytes,
        } => read_head(bytes.len(), *eof),
        Body::Write { status, .. } | Body::Commit { status } => refused_head(*status, 2),
        Body::Read { status, .. } => refused_head(*status, 1),
        Body::Text(_) | Body::SystemErr => Head {
            text: ArrayVec::new(),
        },
    }
}

fn write_head(count: u32, committed: u32, verifier: u64) -> Head
    ensures { result ≡ text (results_row (Write count committed verifier)) }
{
    let mut text = ArrayVec::new();
    put_word(&mut text, 0);
    put_word(&mut text, 0);
    put_word(&mut text, 0);
    put_word(&mut text, count);
    put_word(&mut text, committed);
    put_long(&mut text, verifier);
    Head { text }
}

fn commit_head(verifier: u64) -> Head
    ensures { result ≡ text (results_row (Commit verifier)) }
{
    let mut text = ArrayVec::new();
    put_word(&mut text, 0);
    put_word(&mut text, 0);
    put_word(&mut text, 0);
    put_long(&mut text, verifier);
    Head { text }
}

// The number of bytes stands as the count and as the length.
fn read_head(len: usize, eof: bool) -> Head
    ensures { result ≡ text (Word 0 ∷ Word 0 ∷ Word (len % 2 ^ 32) ∷ flag_item eof ∷ Word (len % 2 ^ 32) ∷ []) }
{
    let count = (len % (1 << 32)) as u32;
    let mut text = ArrayVec::new();
    put_word(&mut text, 0);
    put_word(&mut text, 0);
    put_word(&mut text, count);
    put_word(&mut text, u32::from(eof));
    put_word(&mut text, count);
    Head { text }
}

// A status and one or two words of zero.
fn refused_head(status: u32, zeros: u32) -> Head
    requires one { 1 ≤ zeros }
    requires two { zeros ≤ 2 }
    ensures { result ≡ text (results_row (Refused status zeros)) }
{
    let mut text = ArrayVec::new();
    put_word(&mut text, status);
    put_word(&mut text, 0);
    if zeros == 2 {
        put_word(&mut text, 0);
    }
    Head { text }
}

#[tactic(auto, unfolding(xdr::specs::Items::word))]
fn put_word(text: &mut ArrayVec<u8, 64>, n: u32)
    requires { array_vec_len text.old + 4 ≤ 64 }
    ensures items { text.new.items ≡ text.old.items ++ word n }
    ensures len { array_vec_len text.new ≡ array_vec_len text.old + 4 }
{
    let _ = text.try_extend_from_slice(&n.to_be_bytes());
}

#[tactic(auto, unfolding(xdr::specs::Items::long))]
fn put_long(text: &mut ArrayVec<u8, 64>, n: u64)
    requires { array_vec_len text.old + 8 ≤ 64 }
    ensures items { text.new.items ≡ text.old.items ++ long n }
    ensures len { array_vec_len text.new ≡ array_vec_len text.old + 8 }
{
    let _ = text.try_extend_from_slice(&n.to_be_bytes());
}
