// Why a MNT is refused.

/// Why a MNT is refused (RFC 1813 section 5.2.1).
#[derive(Clone, Copy, Debug, PartialEq, Eq)]
pub enum MountRefusal {
    /// A status other than `NFS3_OK`.
    Status(u32),
    /// Memory was refused.
    Memory,
}
