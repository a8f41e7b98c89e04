// The items of arguments, from the front of a message.
ghost use Rattle.std.specs.Prelude.{◌≡◌};
ghost use Rattle.xdr.specs.Reading.{start, u32_at, u64_at, fixed_at, opaque_at, finish_at};
ghost use Rattle.xdr.specs.Forms.{option_at};
ghost use Rattle.nfs_types.specs.Types.{time_at, set_at, device_at};
ghost use Rattle.nfs_wire.specs.Faults.{Gives};
ghost use Rattle.nfs_wire.specs.Arguments.{handle_at, name_at, path_at, dir_op_at, stable_at, data_at};
ghost use Rattle.nfs_wire.specs.Places.{StandsIn};

use crate::{ArgsFault, DirOp};
use bytes::Bytes;
use gw_model::{MAX_TRANSFER, Stable};
use nfs_types::{Device, SetAttr, Time, read_device, read_set, read_time};
use std::alloc::Global;
use std::marker::Model;
use xdr::Reader;

/// Reads arguments item by item. What outlives the message is copied, but for data.
#[derive(Drop)]
pub struct Items<'a> {
    alloc: Global,
    reader: Reader<'a>,
}

const LONGEST_HANDLE: u32 = 64;

const LONGEST_NAME: u32 = 4096;

const LONGEST_PATH: u32 = 1024;

impl<'a> Model for Items<'a> {
    ghost use Rattle.xdr.specs.Reading.{Cursor};

    ghost Value = { Cursor };

    ghost view = { λ i. i.reader };
}

impl<'a> Items<'a> {
    /// The items of a message.
    pub fn new(alloc: Global, message: &'a [u8]) -> Items<'a>
        ensures { result ≡ start message.now }
    {
        Items {
            alloc,
            reader: Reader::new(message),
        }
    }

    /// How many bytes were taken.
    pub fn place(&self) -> usize
        ensures { result ≡ self.now.place }
    {
        self.reader.place()
    }

    pub fn word(&mut self) -> Result<u32, ArgsFault>
        ensures { Gives (λ n. (n, self.new)) result (u32_at self.old) }
    {
        Ok(self.reader.take_u32()?)
    }

    pub fn long(&mut self) -> Result<u64, ArgsFault>
        ensures { Gives (λ n. (n, self.new)) result (u64_at self.old) }
    {
        Ok(self.reader.take_u64()?)
    }

    /// Eight bytes.
    pub fn verifier(&mut self) -> Result<[u8; 8], ArgsFault>
        ensures { Gives (λ v. (v, self.new)) result (fixed_at 8 self.old) }
    {
        let bytes = self.reader.take_fixed(8)?;
        let mut verifier = [0; 8];
        verifier.copy_from_slice(bytes);
        Ok(verifier)
    }

    pub fn handle(&mut self) -> Result<Bytes, ArgsFault>
        ensures { Gives (λ v. (v, self.new)) result (handle_at self.old) }
    {
        self.opaque(LONGEST_HANDLE)
    }

    pub fn path(&mut self) -> Result<Bytes, ArgsFault>
        ensures { Gives (λ v. (v, self.new)) result (path_at self.old) }
    {
        self.opaque(LONGEST_PATH)
    }

    /// The handle of a directory and a name.
    #[tactic(auto, unfolding(crate::specs::Arguments::dir_op_at))]
    pub fn dir_op(&mut self) -> Result<DirOp, ArgsFault>
        ensures { Gives (λ p. (p, self.new)) result (dir_op_at self.old) }
    {
        let dir = self.handle()?;
        let name = self.opaque(LONGEST_NAME)?;
        Ok(DirOp { dir, name })
    }

    fn opaque(&mut self, most: u32) -> Result<Bytes, ArgsFault>
        ensures { Gives (λ v. (v, self.new)) result (opaque_at most self.old) }
    {
        let part = self.reader.take_opaque(most)?;
        Ok(Bytes::copy_from_slice(self.alloc, part)?)
    }

    /// The data of a WRITE, as a slice of the message that these are the items of.
    pub fn slice(&mut self, message: &Bytes) -> Result<Bytes, ArgsFault>
        requires { StandsIn message.now self.old }
        ensures { Gives (λ v. (v, self.new)) result (data_at self.old) }
    {
        let _length = message.len();
        let place = self.reader.place();
        let len = self.reader.take_opaque(MAX_TRANSFER)?.len();
        let first = place + 4;
        Ok(message.slice(first..first + len)?)
    }

    #[tactic(auto, unfolding(crate::specs::Arguments::stable_at))]
    pub fn stable(&mut self) -> Result<Stable, ArgsFault>
        ensures { Gives (λ s. (s, self.new)) result (stable_at self.old) }
    {
        let place = self.reader.place();
        match self.reader.take_u32()? {
            0 => Ok(Stable::Unstable),
            1 => Ok(Stable::DataSync),
            2 => Ok(Stable::FileSync),
            _ => Err(ArgsFault::Garbage { place }),
        }
    }

    pub fn set(&mut self) -> Result<SetAttr, ArgsFault>
        ensures { Gives (λ s. (s, self.new)) result (set_at self.old) }
    {
        Ok(read_set(&mut self.reader)?)
    }

    pub fn device(&mut self) -> Result<Device, ArgsFault>
        ensures { Gives (λ d. (d, self.new)) result (device_at self.old) }
    {
        Ok(read_device(&mut self.reader)?)
    }

    /// The guard of a SETATTR.
    pub fn guard(&mut self) -> Result<Option<Time>, ArgsFault>
        ensures { Gives (λ t. (t, self.new)) result (option_at time_at self.old) }
    {
        if self.reader.take_bool()? {
            Ok(Some(read_time(&mut self.reader)?))
        } else {
            Ok(None)
        }
    }

    /// Ends the reading: nothing may be left.
    pub fn finish(self) -> Result<(), ArgsFault>
        ensures { Gives (λ u. u) result (finish_at self.entry) }
    {
        let Items { alloc: _, reader } = self;
        Ok(reader.finish()?)
    }
}
