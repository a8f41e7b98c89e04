// The results of a call that is refused.
ghost use Rattle.std.specs.Prelude.{◌≡◌, ◌≢◌, ℕ, Some, None, IfSome, IfNone};
ghost use Rattle.nfs_wire.specs.Arguments.{procedure_of};
ghost use Rattle.nfs_wire.specs.Results.{Refused, AnswerOf, zeros_of};
ghost use Rattle.nfs_wire.specs.Views.{results_of};

use crate::{Args, Res};

/// How many words of zero stand behind a failing status of the procedure that has these arguments: its optional parts,
/// which are absent (RFC 1813 sections 3.3 and 5.2). `None` for a procedure whose results have no status.
#[tactic(auto, unfolding(crate::specs::Results::nfs_forms, crate::specs::Results::mount_forms))]
pub fn absent_words(args: &Args) -> Option<u32>
    ensures { result ≡ zeros_of args.now }
{
    match args {
        Args::Null
        | Args::MountNull
        | Args::Dump
        | Args::Umnt { .. }
        | Args::Umntall
        | Args::Export => None,
        Args::Getattr { .. } | Args::Mnt { .. } => Some(0),
        Args::Lookup { .. } | Args::Access { .. } | Args::Readlink { .. } | Args::Read { .. } =>
            Some(1),
        Args::Readdir { .. } | Args::Readdirplus { .. } => Some(1),
        Args::Fsstat { .. } | Args::Fsinfo { .. } | Args::Pathconf { .. } => Some(1),
        Args::Setattr { .. } | Args::Write { .. } | Args::Commit { .. } => Some(2),
        Args::Create { .. } | Args::Mkdir { .. } | Args::Symlink { .. } | Args::Mknod { .. } =>
            Some(2),
        Args::Remove { .. } | Args::Rmdir { .. } => Some(2),
        Args::Link { .. } => Some(3),
        Args::Rename { .. } => Some(4),
    }
}

/// The results by which a call with these arguments is refused, with a status that isn't `NFS3_OK`. `None` for a procedure
/// whose results have no status.
pub fn refusal(args: &Args, status: u32) -> Option<Res<'static>>
    ensures some { IfSome result (λ r. (zeros : ℕ) × (zeros_of args.now ≡ Some zeros) × (results_of r ≡ Refused status zeros)) }
    ensures none { IfNone result (zeros_of args.now ≡ None) }
    ensures own { status ≢ 0 → IfSome result
        (λ r. AnswerOf (procedure_of args.now).0 (procedure_of args.now).1 (results_of r)) }
{
    match absent_words(args) {
        Some(zeros) => Some(Res::Refused { status, zeros }),
        None => None,
    }
}
