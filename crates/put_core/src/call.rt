// What an upload asks for, and what it is told.

/// What is to be done next.
#[derive(Clone, Copy, Debug, PartialEq, Eq)]
pub enum Next {
    /// Send an UNSTABLE WRITE of `count` bytes of the source from `offset` on (RFC 1813 section 3.3.7).
    Write { xid: u32, offset: u64, count: u32 },
    /// Send a COMMIT of the whole file: offset 0, count 0 (RFC 1813 section 3.3.21).
    Commit { xid: u32 },
    /// Nothing, until a reply comes or the link breaks. A call is outstanding.
    Wait,
    /// The file is the source, durably: the COMMIT was answered with the verifier of all chunks.
    Done { verifier: u64 },
    /// A call was answered with this status, after which it isn't sent again.
    Refused { status: u32 },
    /// The upload was begun anew 16 times, or 1,024 calls had to be sent again.
    Spent { beginnings: u32, retries: u32 },
}

/// What a reply says.
#[derive(Clone, Copy, Debug, PartialEq, Eq)]
pub enum PutAnswer {
    /// A WRITE was done: so many of its bytes, under this verifier (`writeverf3` of RFC 1813 section 3.3.7).
    Written { count: u32, verifier: u64 },
    /// A COMMIT was done, under this verifier.
    Committed { verifier: u64 },
    /// A call was answered with a status other than NFS3_OK (`nfsstat3` of RFC 1813 section 2.6).
    Failed { status: u32 },
}

// How far a chunk is.
#[derive(Clone, Copy, Debug, PartialEq, Eq)]
pub(crate) enum ChunkState {
    // It is to be sent.
    Idle,
    // Its WRITE is outstanding.
    Sent,
    // It was taken, under the verifier of all chunks that are held.
    Held,
}

// An outstanding WRITE.
#[derive(Clone, Copy, Debug, PartialEq, Eq)]
pub(crate) struct SentWrite {
    pub(crate) xid: u32,
    // the number of its chunk, from 0
    pub(crate) chunk: u32,
}

// How an upload ended, by a reply.
#[derive(Clone, Copy, Debug, PartialEq, Eq)]
pub(crate) enum PutEnding {
    // by the verifier under which all is durable
    Durable(u64),
    // by a status
    Rejected(u32),
}

// What is to be done next, by the number of the chunk.
#[derive(Clone, Copy, Debug, PartialEq, Eq)]
pub(crate) enum Choice {
    Sends(u32),
    Commits,
    Waits,
    Ends(Next),
}
