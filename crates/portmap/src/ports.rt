// The table of ports, and what is asked of it.
ghost use Rattle.std.specs.Prelude.{◌≡◌, ◌++◌, ◌∷◌, [], not, filter, find, IfOk, OnOk, OnErr};
ghost use Rattle.portmap.specs.Ports.{after_set, after_unset, first_ports, has_program, has_service, is_local, is_of_program, is_port, is_same_service, is_transport, may_set, may_unset, port_of};

use std::alloc::Global;
use std::marker::Model;
use xdr::NoMemory;

/// A port at which a program is served (RFC 1833 section 3.1). In a request some of it may be passed over.
#[derive(Clone, Copy, Debug, PartialEq, Eq)]
pub struct Mapping {
    pub prog: u32,
    pub vers: u32,
    /// The transport: 6 is TCP, 17 is UDP.
    pub prot: u32,
    /// 1 to 65,535 in an entry that was set.
    pub port: u32,
}

/// The table of a port mapper: its entries, in the order in which they were set.
#[derive(Drop)]
pub struct Ports {
    table: Vec<Mapping>,
}

impl Model for Ports {
    ghost use Rattle.std.specs.Prelude.{List};
    ghost use Rattle.portmap.specs.declared.ports.Mapping.{Mapping};

    ghost Value = { List Mapping };

    ghost view = { λ p. p.table.items };
}

/// The port mapper's own program (RFC 1833 section 3.1).
pub const MAPPER_PROGRAM: u32 = 100_000;

/// The version of it that is served.
pub const MAPPER_VERSION: u32 = 2;

const TCP: u32 = 6;

const UDP: u32 = 17;

const LAST_PORT: u32 = 65_535;

const MOST_PORTS: usize = 1024;

const NFS: u32 = 100_003;

const MOUNT: u32 = 100_005;

fn tcp_mapping(prog: u32, vers: u32, port: u32) -> Mapping
    ensures { result ≡ record { prog = prog; vers = vers; prot = 6; port = port } }
{
    Mapping {
        prog,
        vers,
        prot: TCP,
        port,
    }
}

// Whether a client is on this machine.
fn is_local(client: u32) -> bool
    ensures { result ≡ is_local client }
{
    client / 0x0100_0000 == 127
}

fn is_transport(prot: u32) -> bool
    ensures { result ≡ is_transport prot }
{
    prot == TCP || prot == UDP
}

fn is_port(port: u32) -> bool
    ensures { result ≡ is_port port }
{
    1 <= port && port <= LAST_PORT
}

impl Mapping {
    fn is_of_program(&self, entry: &Mapping) -> bool
        ensures { result ≡ is_of_program self.now entry.now }
    {
        entry.prog == self.prog && entry.vers == self.vers
    }

    fn is_same_service(&self, entry: &Mapping) -> bool
        ensures { result ≡ is_same_service self.now entry.now }
    {
        self.is_of_program(entry) && entry.prot == self.prot
    }
}

fn has_service(table: &[Mapping], mapping: &Mapping) -> bool
    ensures { result ≡ has_service table.now mapping.now }
{
    table.iter().any(|entry| mapping.is_same_service(entry))
}

fn has_program(table: &[Mapping], mapping: &Mapping) -> bool
    ensures { result ≡ has_program table.now mapping.now }
{
    table.iter().any(|entry| mapping.is_of_program(entry))
}

fn find_service(table: &[Mapping], mapping: &Mapping) -> Option<Mapping>
    ensures { result ≡ find (is_same_service mapping.now) table.now }
{
    table
        .iter()
        .copied()
        .find(|entry| mapping.is_same_service(entry))
}

fn remove_program(table: &mut Vec<Mapping>, mapping: &Mapping)
    ensures { table.new.items ≡ filter (λ entry. not (is_of_program mapping.now entry)) table.old.items }
{
    table.retain(|entry| !mapping.is_of_program(entry));
}

impl Ports {
    /// A table with the port mapper itself at its own port, and NFS and MOUNT of version 3 at another one, all over TCP.
    /// Takes memory.
    pub fn new(alloc: Global, own: u32, nfs: u32) -> Result<Ports, NoMemory>
        ensures { IfOk result (λ ports. ports ≡ first_ports own nfs) }
    {
        let entries = [
            tcp_mapping(MAPPER_PROGRAM, MAPPER_VERSION, own),
            tcp_mapping(NFS, 3, nfs),
            tcp_mapping(MOUNT, 3, nfs),
        ];
        match Vec::from_slice(alloc, &entries) {
            Ok(table) => Ok(Ports { table }),
            Err(_) => Err(NoMemory),
        }
    }

    /// The entries, in the order in which they were set.
    pub fn entries(&self) -> &[Mapping]
        ensures { result.now ≡ self.now }
    {
        &self.table
    }

    /// Whether SET by this client would give true (RFC 1833 section 3.2).
    pub fn may_set(&self, client: u32, mapping: &Mapping) -> bool
        ensures { result ≡ may_set self.now client mapping.now }
    {
        is_local(client)
            && is_transport(mapping.prot)
            && is_port(mapping.port)
            && !has_service(&self.table, mapping)
            && self.table.len() < MOST_PORTS
    }

    /// SET (RFC 1833 section 3.2): gives whether the mapping went into the table, as its last entry. Takes memory, and
    /// changes nothing for want of it.
    pub fn set(&mut self, client: u32, mapping: Mapping) -> Result<bool, NoMemory>
        ensures told { IfOk result (λ told. told ≡ may_set self.old client mapping) }
        ensures ok { OnOk result (self.new ≡ after_set self.old client mapping) }
        ensures err { OnErr result (self.new ≡ self.old) }
    {
        if !self.may_set(client, &mapping) {
            return Ok(false);
        }
        match self.table.push(mapping) {
            Ok(()) => Ok(true),
            Err(_) => Err(NoMemory),
        }
    }

    /// Whether UNSET by this client would give true (RFC 1833 section 3.2).
    pub fn may_unset(&self, client: u32, mapping: &Mapping) -> bool
        ensures { result ≡ may_unset self.now client mapping.now }
    {
        is_local(client) && has_program(&self.table, mapping)
    }

    /// UNSET (RFC 1833 section 3.2): takes all entries of the mapping's program and version out of the table, and gives
    /// whether there were any. The mapping's transport and port are passed over.
    pub fn unset(&mut self, client: u32, mapping: &Mapping) -> bool
        ensures told { result ≡ may_unset self.old client mapping.now }
        ensures done { self.new ≡ after_unset self.old client mapping.now }
    {
        if !self.may_unset(client, mapping) {
            return false;
        }
        remove_program(&mut self.table, mapping);
        true
    }

    /// GETPORT (RFC 1833 section 3.2): the port of the mapping's program, version and transport, or 0 where the table has
    /// none. The mapping's port is passed over.
    pub fn port_of(&self, mapping: &Mapping) -> u32
        ensures { result ≡ port_of self.now mapping.now }
    {
        match find_service(&self.table, mapping) {
            Some(entry) => entry.port,
            None => 0,
        }
    }
}
