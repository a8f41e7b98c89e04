// EXPORT.
ghost use Rattle.std.specs.Prelude.{◌≡◌, IfOk, OnOk};
ghost use Rattle.xdr.specs.Rows.{text};
ghost use Rattle.nfs_wire.specs.Results.{Export, results_row};
ghost use Rattle.nfs_wire.specs.Short.{CanBeSpelled};

use gw_model::NoMemory;
use nfs_wire::{Res, res_text};
use std::alloc::Global;

/// The results of EXPORT (RFC 1813 section 5.2.5): the export path, for everybody. A path of 2^32 bytes or more has no
/// spelling, and is answered as want of memory. Takes memory.
pub fn export_text(alloc: Global, export: &[u8]) -> Result<Vec<u8>, NoMemory>
    ensures ok { IfOk result (λ v. v.items ≡ text (results_row (Export export.now))) }
    ensures short { OnOk result (CanBeSpelled (Export export.now)) }
{
    res_text(alloc, &Res::Export { path: export })
}
