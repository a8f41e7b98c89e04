// What the arguments of a changing procedure ask of a tree.
ghost use Rattle.std.specs.Prelude.{◌≡◌, ◌<◌, ◌≤◌, ◌^◌};
ghost use Rattle.gw_model.specs.Statuses as status;
ghost use Rattle.name_tree.specs.Judging.{IsJudgement};
ghost use Rattle.name_queries.specs.Found.{found_by_numbers, found_file};
ghost use Rattle.name_changes.specs.Asks.{IsRequestBy, change_judgement, how_of, is_changing, making_judgement, number_of, refusal_behind, scene_of, unsupported_refusal};

use gw_model::FileId;
use gw_model::status::{NFS3ERR_BADHANDLE, NFS3ERR_NOTSUPP, NFS3ERR_STALE};
use handles::file_of;
use name_tree::{How, Judged, NameRequest, Refused, Tree};
use nfs_wire::{Args, CreateHow};
use rpc_msg::Caller;

fn file_by_numbers(tree: &Tree, fsid: u64, file: u64, system: u64) -> Result<u64, u32>
    ensures found { result ≡ number_of (found_by_numbers tree.now.tree fsid file system) }
    ensures low { file < 2 ^ 64 }
    ensures low_system { system < 2 ^ 64 }
{
    if system != fsid {
        return Err(NFS3ERR_STALE);
    }
    match tree.attr(FileId(file)) {
        Some(_) => Ok(file),
        None => Err(NFS3ERR_STALE),
    }
}

// The file of a handle, or the status by which the handle is refused.
#[tactic(auto, unfolding(name_queries::specs::Found::found_file))]
fn file_at(tree: &Tree, fsid: u64, handle: &[u8]) -> Result<u64, u32>
    ensures { result ≡ number_of (found_file tree.now.tree fsid handle.now) }
{
    match file_of(handle) {
        Some((file, system)) => file_by_numbers(tree, fsid, file.0, system),
        None => Err(NFS3ERR_BADHANDLE),
    }
}

fn how_of(how: &CreateHow) -> How
    ensures { result ≡ how_of how.now }
{
    match how {
        CreateHow::Unchecked(set) => How::Unchecked(*set),
        CreateHow::Guarded(set) => How::Guarded(*set),
        CreateHow::Exclusive(verifier) => How::Exclusive(*verifier),
    }
}

/// Whether a procedure changes names or attributes.
pub fn is_changing(args: &Args) -> bool
    ensures { result ≡ is_changing args.now }
{
    match args {
        Args::Setattr { .. }
        | Args::Create { .. }
        | Args::Mkdir { .. }
        | Args::Symlink { .. }
        | Args::Remove { .. }
        | Args::Rmdir { .. }
        | Args::Rename { .. } => true,
        _ => false,
    }
}

// What a procedure that makes a file, a directory or a link asks for.
#[tactic(auto, unfolding(crate::specs::Asks::making_judgement))]
fn making_request<'a>(
    tree: &Tree,
    fsid: u64,
    moment: u64,
    args: &'a Args,
) -> Result<NameRequest<'a>, u32>
    ensures { IsRequestBy tree.now.tree result (λ s. making_judgement s fsid moment args.now) }
{
    match args {
        Args::Create { place, how } => Ok(NameRequest::Create {
            moment,
            dir: FileId(file_at(tree, fsid, place.dir.as_slice())?),
            name: place.name.as_slice(),
            how: how_of(how),
        }),
        Args::Mkdir { place, set } => Ok(NameRequest::Mkdir {
            moment,
            dir: FileId(file_at(tree, fsid, place.dir.as_slice())?),
            name: place.name.as_slice(),
            set: *set,
        }),
        Args::Symlink { place, set, path } => Ok(NameRequest::Symlink {
            moment,
            dir: FileId(file_at(tree, fsid, place.dir.as_slice())?),
            name: place.name.as_slice(),
            set: *set,
            path: path.as_slice(),
        }),
        _ => Err(NFS3ERR_NOTSUPP),
    }
}

// What a changing procedure asks for at a moment in milliseconds, or the status by which a handle is refused.
#[tactic(auto, unfolding(crate::specs::Asks::change_judgement))]
fn change_request<'a>(
    tree: &Tree,
    fsid: u64,
    moment: u64,
    args: &'a Args,
) -> Result<NameRequest<'a>, u32>
    ensures { IsRequestBy tree.now.tree result (λ s. change_judgement s fsid moment args.now) }
{
    match args {
        Args::Setattr { handle, set, guard } => Ok(NameRequest::SetAttr {
            moment,
            file: FileId(file_at(tree, fsid, handle.as_slice())?),
            set: *set,
            guard: *guard,
        }),
        Args::Remove { place } => Ok(NameRequest::Remove {
            dir: FileId(file_at(tree, fsid, place.dir.as_slice())?),
            name: place.name.as_slice(),
        }),
        Args::Rmdir { place } => Ok(NameRequest::Rmdir {
            dir: FileId(file_at(tree, fsid, place.dir.as_slice())?),
            name: place.name.as_slice(),
        }),
        Args::Rename { from, to } => Ok(NameRequest::Rename {
            dir: FileId(file_at(tree, fsid, from.dir.as_slice())?),
            name: from.name.as_slice(),
            to_dir: FileId(file_at(tree, fsid, to.dir.as_slice())?),
            to_name: to.name.as_slice(),
        }),
        _ => making_request(tree, fsid, moment, args),
    }
}

/// What a changing procedure comes to at a moment in milliseconds. Takes memory.
pub fn judge_change(
    tree: &Tree,
    fsid: u64,
    caller: &Caller,
    read_only: bool,
    moment: u64,
    args: &Args,
) -> Result<Judged, Refused>
    requires { caller.now.gid_count ≤ 16 }
    ensures { IsJudgement result (change_judgement (scene_of tree.now.tree caller.now read_only) fsid moment args.now) }
{
    match change_request(tree, fsid, moment, args) {
        Ok(request) => tree.judge(caller, read_only, &request),
        Err(status) => Err(Refused::Status(status)),
    }
}

/// The status by which MKNOD and LINK are refused; `None` for another procedure.
#[tactic(auto, unfolding(crate::specs::Asks::unsupported_refusal))]
pub fn unsupported_refusal(tree: &Tree, fsid: u64, args: &Args) -> Option<u32>
    ensures { result ≡ unsupported_refusal tree.now.tree fsid args.now }
{
    match args {
        Args::Mknod { place, .. } => {
            Some(refusal_behind(file_at(tree, fsid, place.dir.as_slice())))
        }
        Args::Link { handle, place } => Some(match file_at(tree, fsid, handle.as_slice()) {
            Ok(_) => refusal_behind(file_at(tree, fsid, place.dir.as_slice())),
            Err(status) => status,
        }),
        _ => None,
    }
}

// That of a handle, or else that nothing is supported.
fn refusal_behind(found: Result<u64, u32>) -> u32
    ensures { result ≡ refusal_behind status.notsupp found }
{
    match found {
        Ok(_) => NFS3ERR_NOTSUPP,
        Err(status) => status,
    }
}
