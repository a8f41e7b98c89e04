// Why arguments can't be read.
ghost use Rattle.std.specs.Prelude.{◌≡◌};
ghost use Rattle.nfs_wire.specs.declared.fault.ArgsFault.TheVariants.{Garbage, Memory};
ghost use Rattle.nfs_wire.specs.Faults.{fault_place};

use std::alloc::AllocError;
use xdr::XdrFault;

/// Why the bytes of a call aren't its arguments.
#[derive(Clone, Copy, Debug, PartialEq, Eq)]
pub enum ArgsFault {
    /// They don't spell them. The place is that of the first item that is at fault, in bytes from the front.
    Garbage { place: usize },
    /// No memory was left.
    Memory,
}

impl From<XdrFault> for ArgsFault {
    ghost from_gives = { λ fault e. e ≡ Garbage (fault_place fault) };

    fn from(fault: XdrFault) -> ArgsFault {
        match fault {
            XdrFault::Short { place }
            | XdrFault::BadBool { place }
            | XdrFault::TooLong { place }
            | XdrFault::BadChoice { place }
            | XdrFault::Trailing { place } => ArgsFault::Garbage { place },
        }
    }
}

impl From<AllocError> for ArgsFault {
    ghost from_gives = { λ _ e. e ≡ Memory };

    fn from(_fault: AllocError) -> ArgsFault {
        ArgsFault::Memory
    }
}
