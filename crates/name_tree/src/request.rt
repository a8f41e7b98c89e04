// What a changing procedure asks for, and what it comes to.
use crate::Edit;
use gw_model::FileId;
use nfs_types::{SetAttr, Time};
use std::alloc::AllocError;

/// How a file is to be made: `createhow3` of RFC 1813 section 3.3.8.
#[derive(Clone, Copy)]
pub enum How {
    /// A file that is there stays as it is.
    Unchecked(SetAttr),
    /// No file of this name may be there.
    Guarded(SetAttr),
    /// Only a file that was made with this verifier may be there.
    Exclusive([u8; 8]),
}

/// What a changing procedure asks for. A moment is in milliseconds; it stands for the server's time.
#[derive(Clone, Copy)]
pub enum NameRequest<'a> {
    SetAttr {
        moment: u64,
        file: FileId,
        set: SetAttr,
        /// The time of the last change that the caller knows of.
        guard: Option<Time>,
    },
    Create {
        moment: u64,
        dir: FileId,
        name: &'a [u8],
        how: How,
    },
    Mkdir {
        moment: u64,
        dir: FileId,
        name: &'a [u8],
        set: SetAttr,
    },
    Symlink {
        moment: u64,
        dir: FileId,
        name: &'a [u8],
        set: SetAttr,
        path: &'a [u8],
    },
    Remove {
        dir: FileId,
        name: &'a [u8],
    },
    Rmdir {
        dir: FileId,
        name: &'a [u8],
    },
    Rename {
        dir: FileId,
        name: &'a [u8],
        to_dir: FileId,
        to_name: &'a [u8],
    },
}

/// What is to be done.
#[derive(Drop)]
pub enum Judged {
    Change(Edit),
    /// Nothing: it is so already, of this file.
    Same(FileId),
}

/// Why nothing is done.
#[derive(Clone, Copy, Debug, PartialEq, Eq)]
pub enum Refused {
    /// A status of NFS.
    Status(u32),
    /// Memory was refused.
    Memory,
}

impl From<AllocError> for Refused {
    ghost use Rattle.std.specs.Prelude.{◌≡◌};
    ghost use Rattle.name_tree.specs.declared.request.Refused.TheVariants.{Memory};

    ghost from_gives = { λ _ e. e ≡ Memory };

    fn from(_fault: AllocError) -> Refused {
        Refused::Memory
    }
}
