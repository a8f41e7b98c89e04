// What a rule says of a client, and what a pair says of an id.
ghost use Rattle.std.specs.Prelude.{◌≡◌};
ghost use Rattle.exports_map.specs.Access.{access_by, fits};

/// What a client may do with the files that are exported to it.
#[derive(Clone, Copy, Debug, PartialEq, Eq)]
pub enum Mode {
    ReadOnly,
    ReadWrite,
}

/// What a client may do.
#[derive(Clone, Copy, Debug, PartialEq, Eq)]
pub enum Access {
    /// All that its caller may do.
    Full,
    /// What changes nothing.
    ReadOnly,
    /// Nothing: no rule fits it.
    Denied,
}

/// A rule for the clients whose addresses begin with the same bits.
#[derive(Clone, Copy, Debug, PartialEq, Eq)]
pub struct ExportRule {
    /// The address, its first number in the highest byte.
    pub address: u32,
    /// How many bits of it are compared, from the first on: 0 to 32.
    pub bits: u32,
    pub mode: Mode,
}

/// A user or group id, and the one that stands for it.
#[derive(Clone, Copy, Debug, PartialEq, Eq)]
pub struct IdPair {
    pub asked: u32,
    pub given: u32,
}

impl ExportRule {
    /// Whether the rule is for the client of this address.
    pub fn fits(&self, client: u32) -> bool
        ensures { result ≡ fits client self.now }
    {
        let block = 2u64.pow(32u32.saturating_sub(self.bits));
        client as u64 / block == self.address as u64 / block
    }
}

/// What the rule that fits gives, or none.
pub(crate) fn access_of_rule(rule: Option<ExportRule>) -> Access
    ensures { result ≡ access_by rule }
{
    match rule {
        Some(rule) => match rule.mode {
            Mode::ReadOnly => Access::ReadOnly,
            Mode::ReadWrite => Access::Full,
        },
        None => Access::Denied,
    }
}
