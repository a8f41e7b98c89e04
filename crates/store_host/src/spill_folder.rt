// A spill host over a folder of files of the operating system.
ghost use Rattle.std.specs.Prelude.{◌≡◌, false, IfOk};
ghost use Rattle.gw_outside.specs.Tally.{no_calls};

use crate::folder::{Disk, Folder, FolderFault};
use gw_outside::Tally;
use spill::{SpillDevice, SpillFault, SpillHost};
use std::fs::File;
use std::os::unix::fs::FileExt;

/// A device in a file of the operating system. The file has no name, so its room is free again when
/// the device is let go, and when the process ends. It tells what it counted, and not what it holds.
/// A read behind the last byte that was written fails.
#[derive(Drop)]
pub struct FolderDevice {
    file: File,
    tally: Tally,
}

impl SpillDevice for FolderDevice {
    ghost tells = { ⊥ };

    ghost byte = { λ d place. 0 };

    ghost count = { λ d. d.tally.failed };

    ghost tally = { λ d. d.tally };

    fn write_at(&mut self, place: u64, bytes: &[u8]) -> Result<(), SpillFault> {
        let answer = self.file.write_all_at(bytes, place);
        self.tally.count(answer.is_err());
        answer.map_err(|_| SpillFault)
    }

    fn read_at(&mut self, place: u64, out: &mut [u8]) -> Result<(), SpillFault> {
        let answer = self.file.read_exact_at(out, place);
        self.tally.count(answer.is_err());
        answer.map_err(|_| SpillFault)
    }

    fn faults(&self) -> u64 {
        self.tally.failed
    }
}

/// A spill host over a folder: each device that is out is a file of it. The folder is locked while
/// the host lasts.
#[derive(Drop)]
pub struct SpillFolder<R: Disk> {
    folder: Folder<R>,
    tally: Tally,
}

impl<R: Disk> SpillFolder<R> {
    /// A host over a folder that is there, none of whose devices is out. No call is counted. Takes
    /// memory.
    pub fn open(files: R, folder: &str) -> Result<SpillFolder<R>, FolderFault>
        ensures { IfOk result (λ host. host.tally ≡ no_calls) }
    {
        let folder = Folder::open(files, folder)?;
        Ok(SpillFolder {
            folder,
            tally: Tally::new(),
        })
    }
}

impl<R: Disk> SpillHost for SpillFolder<R> {
    type Device = FolderDevice;

    ghost is_out = { λ h file. false };

    ghost count = { λ h. h.tally.failed };

    ghost tally = { λ h. h.tally };

    fn take_device(&mut self, file: u64) -> Result<FolderDevice, SpillFault> {
        let answer = self.folder.open_spill(file);
        self.tally.count(answer.is_err());
        match answer {
            Ok(file) => Ok(FolderDevice {
                file,
                tally: Tally::new(),
            }),
            Err(_) => Err(SpillFault),
        }
    }

    fn give_device(&mut self, file: u64, device: FolderDevice) {
        self.tally.join(device.tally);
    }

    fn faults(&self) -> u64 {
        self.tally.failed
    }
}
