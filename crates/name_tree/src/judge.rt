// What a changing procedure comes to: a refusal, nothing to do, or an edit. And LOOKUP.
ghost use Rattle.std.specs.Prelude.{◌≡◌, ◌≤◌, IfOk};
ghost use Rattle.name_tree.specs.Table.{change_refusal, judge_lookup, lookup_refusal, name_judgement, name_refusal, named_file};
ghost use Rattle.name_tree.specs.Judging.{IsJudgement, IsLookup};

use crate::tree::is_dots;
use crate::{Judged, Name, NameRequest, Refused, Tree};
use gw_model::FileId;
use gw_model::status::{
    NFS3ERR_ACCES, NFS3ERR_INVAL, NFS3ERR_NAMETOOLONG, NFS3ERR_NOENT, NFS3ERR_NOTDIR, NFS3ERR_ROFS,
    NFS3ERR_STALE,
};
use rpc_msg::Caller;
use std::alloc::{AllocError, Global};

// The name check: its refusal, or 0.
pub fn name_refusal(name: &[u8]) -> u32
    ensures { result ≡ name_refusal name.now }
{
    if name.len() > 255 {
        return NFS3ERR_NAMETOOLONG;
    }
    if name.is_empty() || name.contains(&b'/') || name.contains(&0) {
        return NFS3ERR_INVAL;
    }
    0
}

pub fn owned(alloc: Global, name: &[u8]) -> Result<Name, AllocError>
    ensures { IfOk result (λ n. n ≡ name.now) }
{
    Ok(Name::of(Vec::from_slice(alloc, name)?))
}

impl Tree {
    /// What a changing procedure comes to: the first refusal of its order, a file that it leaves as it is, or an edit. Where
    /// the tree may only be read, each change is refused at its place in the order. Takes memory.
    pub fn judge(
        &self,
        caller: &Caller,
        read_only: bool,
        request: &NameRequest<'_>,
    ) -> Result<Judged, Refused>
        requires { caller.now.gid_count ≤ 16 }
        ensures { IsJudgement result
            (name_judgement (record { tree = self.now.tree; caller = caller.now; read_only = read_only }) request.now) }
    {
        match request {
            NameRequest::SetAttr {
                moment,
                file,
                set,
                guard,
            } => self.judge_setattr(caller, read_only, *moment, file.0, set, *guard),
            NameRequest::Create {
                moment,
                dir,
                name,
                how,
            } => self.judge_create(caller, read_only, *moment, dir.0, name, how),
            NameRequest::Mkdir {
                moment,
                dir,
                name,
                set,
            } => self.judge_mkdir(caller, read_only, *moment, dir.0, name, set),
            NameRequest::Symlink {
                moment,
                dir,
                name,
                set,
                path,
            } => self.judge_symlink(caller, read_only, *moment, dir.0, name, set, path),
            NameRequest::Remove { dir, name } => {
                self.judge_remove(caller, read_only, dir.0, name)
            }
            NameRequest::Rmdir { dir, name } => { self.judge_rmdir(caller, read_only, dir.0, name) }
            NameRequest::Rename {
                dir,
                name,
                to_dir,
                to_name,
            } => self.judge_rename(caller, read_only, dir.0, name, to_dir.0, to_name),
        }
    }

    // The first refusal of a change at a name of a directory, or 0.
    #[tactic(auto, unfolding(crate::specs::Table::change_refusal))]
    pub(crate) fn change_refusal(
        &self,
        caller: &Caller,
        read_only: bool,
        dir: u64,
        name: &[u8],
    ) -> u32
        requires { caller.now.gid_count ≤ 16 }
        ensures { result ≡
            change_refusal (record { tree = self.now.tree; caller = caller.now; read_only = read_only }) dir name.now }
    {
        if !self.has(dir) {
            return NFS3ERR_STALE;
        }
        if !self.is_dir_at(dir) {
            return NFS3ERR_NOTDIR;
        }
        let fault = name_refusal(name);
        if fault != 0 {
            return fault;
        }
        if read_only {
            return NFS3ERR_ROFS;
        }
        if !self.may_at(2, caller, dir) {
            return NFS3ERR_ACCES;
        }
        0
    }

    // The first refusal of a LOOKUP that says nothing of whether the name is there, or 0.
    #[tactic(auto, unfolding(crate::specs::Table::lookup_refusal))]
    fn lookup_refusal(&self, caller: &Caller, dir: u64, name: &[u8]) -> u32
        requires { caller.now.gid_count ≤ 16 }
        ensures { result ≡ lookup_refusal self.now.tree caller.now dir name.now }
    {
        if !self.has(dir) {
            return NFS3ERR_STALE;
        }
        if !self.is_dir_at(dir) {
            return NFS3ERR_NOTDIR;
        }
        if !self.may_at(1, caller, dir) {
            return NFS3ERR_ACCES;
        }
        name_refusal(name)
    }

    // What a name of a directory names: `.` is the directory, and `..` its parent.
    fn named_file(&self, dir: u64, name: &[u8]) -> Option<u64>
        ensures { result ≡ named_file self.now.tree dir name.now }
    {
        if name == b".".as_slice() {
            return Some(dir);
        }
        if name == b"..".as_slice() {
            return Some(self.parent_at(dir));
        }
        self.child_at(dir, name)
    }

    /// What a LOOKUP finds, or its status. Takes no memory.
    #[tactic(auto, unfolding(crate::specs::Table::judge_lookup), using(crate::proofs::TableRefusals::refusals))]
    pub fn lookup(&self, caller: &Caller, dir: FileId, name: &[u8]) -> Result<FileId, u32>
        requires { caller.now.gid_count ≤ 16 }
        ensures { IsLookup result (judge_lookup self.now.tree caller.now dir.0 name.now) }
    {
        let refusal = self.lookup_refusal(caller, dir.0, name);
        if refusal != 0 {
            return Err(refusal);
        }
        match self.named_file(dir.0, name) {
            Some(id) => Ok(FileId(id)),
            None => Err(NFS3ERR_NOENT),
        }
    }
}
