// A host that mounted a path.
ghost use Rattle.std.specs.Prelude.{◌≡◌, IfOk};
ghost use Rattle.std.specs.Str.{bytes_eq};
ghost use Rattle.nfs_wire.specs.Views.{mount_view};
ghost use Rattle.mount_proc.specs.Mounts.{is_mount_of};

use nfs_wire::Mounted;
use std::alloc::{AllocError, Global};
use std::marker::Model;

#[derive(Drop)]
pub struct Mount {
    host: Vec<u8>,
    path: Vec<u8>,
}

impl Model for Mount {
    ghost use Rattle.nfs_wire.specs.Results.{MountText};

    ghost Value = { MountText };

    ghost view = { λ m. record { host = m.host.items; path = m.path.items } };
}

impl Mount {
    pub fn of(alloc: Global, host: &[u8], path: &[u8]) -> Result<Mount, AllocError>
        ensures { IfOk result (λ m. m ≡ record { host = host.now; path = path.now }) }
    {
        let host = Vec::from_slice(alloc, host)?;
        let path = Vec::from_slice(alloc, path)?;
        Ok(Mount { host, path })
    }

    pub fn is_of(&self, host: &[u8], path: &[u8]) -> bool
        ensures { result ≡ is_mount_of host.now path.now self.now }
    {
        self.host.as_slice() == host && self.path.as_slice() == path
    }

    pub fn is_of_host(&self, host: &[u8]) -> bool
        ensures { result ≡ bytes_eq self.now.host host.now }
    {
        self.host.as_slice() == host
    }

    pub fn row(&self) -> Mounted<'_>
        ensures { mount_view result ≡ self.now }
    {
        Mounted {
            host: &self.host,
            path: &self.path,
        }
    }
}
