// CREATE, MKDIR and SYMLINK.
ghost use Rattle.std.specs.Prelude.{◌≡◌, ◌≤◌, Bool, IfOk};
ghost use Rattle.rpc_msg.specs.declared.call.Caller.{Caller};
ghost use Rattle.name_tree.specs.Table.{create_absent, create_there, id_refusal, judge_create, judge_mkdir, judge_symlink, make_refusal, new_edit, new_file};
ghost use Rattle.name_tree.specs.Judging.{IsJudgement};

use crate::judge::owned;
use crate::set::{is_other, mode_or, time_or_none};
use crate::tree::is_dots;
use crate::{Edit, How, Judged, Refused, Tree};
use gw_model::FileId;
use gw_model::status::{NFS3ERR_EXIST, NFS3ERR_NOTSUPP, NFS3ERR_SERVERFAULT};
use nfs_types::{FileType, SetAttr, SetTime};
use rpc_msg::Caller;
use std::alloc::AllocError;

// Sets nothing.
const NO_SET: SetAttr = SetAttr {
    mode: None,
    uid: None,
    gid: None,
    size: None,
    atime: SetTime::Leave,
    mtime: SetTime::Leave,
};

impl Tree {
    // The edit that makes a node, with the caller's uid and gid where none is set. Takes memory.
    fn new_edit(
        &self,
        caller: &Caller,
        moment: u64,
        dir: u64,
        name: &[u8],
        kind: u32,
        mode: u32,
        set: &SetAttr,
        path: &[u8],
        verifier: Option<[u8; 8]>,
    ) -> Result<Edit, AllocError>
        ensures { IfOk result (λ e. e ≡
            new_edit self.now.tree caller.now moment dir name.now kind mode set.now path.now verifier) }
    {
        Ok(Edit::Make {
            parent: dir,
            id: self.next_id(),
            kind,
            mode: mode_or(set.mode, mode),
            uid: set.uid.unwrap_or(caller.uid),
            gid: set.gid.unwrap_or(caller.gid),
            name: owned(self.alloc, name)?,
            path: owned(self.alloc, path)?,
            atime: time_or_none(set.atime, moment),
            mtime: time_or_none(set.mtime, moment),
            verifier,
        })
    }

    // What a CREATE comes to, at a moment. Takes memory.
    #[tactic(auto, unfolding(crate::specs::Table::judge_create), using(crate::proofs::TableRefusals::refusals))]
    pub(crate) fn judge_create(
        &self,
        caller: &Caller,
        read_only: bool,
        moment: u64,
        dir: u64,
        name: &[u8],
        how: &How,
    ) -> Result<Judged, Refused>
        requires { caller.now.gid_count ≤ 16 }
        ensures { IsJudgement result
            (judge_create (record { tree = self.now.tree; caller = caller.now; read_only = read_only }) moment dir name.now how.now) }
    {
        let refusal = self.change_refusal(caller, read_only, dir, name);
        if refusal != 0 {
            return Err(Refused::Status(refusal));
        }
        if is_dots(name) {
            return Err(Refused::Status(NFS3ERR_EXIST));
        }
        match self.child_at(dir, name) {
            Some(id) => self.create_there(id, how),
            None => self.create_absent(caller, moment, dir, name, how),
        }
    }

    // What a CREATE of a name that isn't there comes to. Takes memory.
    fn create_absent(
        &self,
        caller: &Caller,
        moment: u64,
        dir: u64,
        name: &[u8],
        how: &How,
    ) -> Result<Judged, Refused>
        ensures { (read_only : Bool) → IsJudgement result
            (create_absent (record { tree = self.now.tree; caller = caller.now; read_only = read_only }) moment dir name.now how.now) }
    {
        match how {
            How::Unchecked(set) => self.new_file(caller, moment, dir, name, set, None),
            How::Guarded(set) => self.new_file(caller, moment, dir, name, set, None),
            How::Exclusive(verifier) => {
                self.new_file(caller, moment, dir, name, &NO_SET, Some(*verifier))
            }
        }
    }

    // What a CREATE of a name that is there comes to.
    #[tactic(auto, using(crate::proofs::TableRefusals::refusals))]
    fn create_there(&self, id: u64, how: &How) -> Result<Judged, Refused>
        ensures { (caller : Caller) (read_only : Bool) → IsJudgement result
            (create_there (record { tree = self.now.tree; caller = caller; read_only = read_only }) id how.now) }
    {
        match how {
            How::Guarded(_) => Err(Refused::Status(NFS3ERR_EXIST)),
            How::Exclusive(verifier) => {
                if self.has_verifier(id, verifier) {
                    Ok(Judged::Same(FileId(id)))
                } else {
                    Err(Refused::Status(NFS3ERR_EXIST))
                }
            }
            How::Unchecked(set) => match self.attr_at(id) {
                Some(attr) => {
                    if !matches!(attr.kind, FileType::Regular) {
                        return Err(Refused::Status(NFS3ERR_EXIST));
                    }
                    if is_other(set.size, attr.size) {
                        return Err(Refused::Status(NFS3ERR_NOTSUPP));
                    }
                    Ok(Judged::Same(FileId(id)))
                }
                None => Err(Refused::Status(NFS3ERR_EXIST)),
            },
        }
    }

    // What a CREATE of a new file comes to. Takes memory.
    #[tactic(auto, using(crate::proofs::TableRefusals::refusals))]
    fn new_file(
        &self,
        caller: &Caller,
        moment: u64,
        dir: u64,
        name: &[u8],
        set: &SetAttr,
        verifier: Option<[u8; 8]>,
    ) -> Result<Judged, Refused>
        ensures { (read_only : Bool) → IsJudgement result
            (new_file (record { tree = self.now.tree; caller = caller.now; read_only = read_only }) moment dir name.now set.now verifier) }
    {
        if is_other(set.size, 0) {
            return Err(Refused::Status(NFS3ERR_NOTSUPP));
        }
        if self.next_id() == u64::MAX {
            return Err(Refused::Status(NFS3ERR_SERVERFAULT));
        }
        let edit = self.new_edit(caller, moment, dir, name, 1, 0o644, set, &[], verifier)?;
        Ok(Judged::Change(edit))
    }

    // The first refusal of a MKDIR or a SYMLINK, or 0.
    #[tactic(auto, unfolding(crate::specs::Table::make_refusal))]
    fn make_refusal(&self, caller: &Caller, read_only: bool, dir: u64, name: &[u8]) -> u32
        requires { caller.now.gid_count ≤ 16 }
        ensures { result ≡
            make_refusal (record { tree = self.now.tree; caller = caller.now; read_only = read_only }) dir name.now }
    {
        let refusal = self.change_refusal(caller, read_only, dir, name);
        if refusal != 0 {
            return refusal;
        }
        if is_dots(name) || self.child_at(dir, name).is_some() {
            return NFS3ERR_EXIST;
        }
        if self.next_id() == u64::MAX {
            return NFS3ERR_SERVERFAULT;
        }
        0
    }

    // What a MKDIR comes to, at a moment. Takes memory.
    #[tactic(auto, unfolding(crate::specs::Table::judge_mkdir), using(crate::proofs::TableRefusals::refusals))]
    pub(crate) fn judge_mkdir(
        &self,
        caller: &Caller,
        read_only: bool,
        moment: u64,
        dir: u64,
        name: &[u8],
        set: &SetAttr,
    ) -> Result<Judged, Refused>
        requires { caller.now.gid_count ≤ 16 }
        ensures { IsJudgement result
            (judge_mkdir (record { tree = self.now.tree; caller = caller.now; read_only = read_only }) moment dir name.now set.now) }
    {
        let refusal = self.make_refusal(caller, read_only, dir, name);
        if refusal != 0 {
            return Err(Refused::Status(refusal));
        }
        let edit = self.new_edit(caller, moment, dir, name, 2, 0o755, set, &[], None)?;
        Ok(Judged::Change(edit))
    }

    // What a SYMLINK comes to, at a moment. Takes memory.
    #[tactic(auto, unfolding(crate::specs::Table::judge_symlink), using(crate::proofs::TableRefusals::refusals))]
    pub(crate) fn judge_symlink(
        &self,
        caller: &Caller,
        read_only: bool,
        moment: u64,
        dir: u64,
        name: &[u8],
        set: &SetAttr,
        path: &[u8],
    ) -> Result<Judged, Refused>
        requires { caller.now.gid_count ≤ 16 }
        ensures { IsJudgement result
            (judge_symlink (record { tree = self.now.tree; caller = caller.now; read_only = read_only })
            moment dir name.now set.now path.now) }
    {
        let refusal = self.make_refusal(caller, read_only, dir, name);
        if refusal != 0 {
            return Err(Refused::Status(refusal));
        }
        let edit = self.new_edit(caller, moment, dir, name, 5, 0o777, set, path, None)?;
        Ok(Judged::Change(edit))
    }
}
