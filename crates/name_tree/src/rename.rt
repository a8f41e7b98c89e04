// RENAME.
ghost use Rattle.std.specs.Prelude.{◌≡◌, ◌≤◌, Bool, Some};
ghost use Rattle.rpc_msg.specs.declared.call.Caller.{Caller};
ghost use Rattle.name_tree.specs.Table.{both_refusal, is_same_file, judge_rename, move, target_refusal};
ghost use Rattle.name_tree.specs.Judging.{IsJudgement};

use crate::judge::{name_refusal, owned};
use crate::tree::is_dots;
use crate::{Edit, Judged, Refused, Tree};
use gw_model::FileId;
use gw_model::status::{
    NFS3ERR_ACCES, NFS3ERR_EXIST, NFS3ERR_INVAL, NFS3ERR_NOENT, NFS3ERR_NOTDIR, NFS3ERR_NOTEMPTY,
    NFS3ERR_ROFS, NFS3ERR_STALE,
};
use rpc_msg::Caller;

fn is_same_file(id: u64, there: Option<u64>) -> bool
    ensures { result ≡ is_same_file id there }
{
    match there {
        Some(there) => id == there,
        None => false,
    }
}

impl Tree {
    // The first refusal of a RENAME by its two directories and names, or 0.
    #[tactic(auto, unfolding(crate::specs::Table::both_refusal))]
    fn both_refusal(
        &self,
        caller: &Caller,
        read_only: bool,
        dir: u64,
        name: &[u8],
        to: u64,
        to_name: &[u8],
    ) -> u32
        requires { caller.now.gid_count ≤ 16 }
        ensures { result ≡
            both_refusal (record { tree = self.now.tree; caller = caller.now; read_only = read_only }) dir name.now to to_name.now }
    {
        if !self.has(dir) || !self.has(to) {
            return NFS3ERR_STALE;
        }
        if !self.is_dir_at(dir) || !self.is_dir_at(to) {
            return NFS3ERR_NOTDIR;
        }
        let fault = name_refusal(name);
        if fault != 0 {
            return fault;
        }
        let fault = name_refusal(to_name);
        if fault != 0 {
            return fault;
        }
        if read_only {
            return NFS3ERR_ROFS;
        }
        if !self.may_at(2, caller, dir) || !self.may_at(2, caller, to) {
            return NFS3ERR_ACCES;
        }
        if is_dots(name) || is_dots(to_name) {
            return NFS3ERR_INVAL;
        }
        0
    }

    // What stands in the way of a move onto what the new name names, or 0.
    #[tactic(auto, unfolding(crate::specs::Table::target_refusal))]
    fn target_refusal(&self, id: u64, there: Option<u64>) -> u32
        ensures { result ≡ target_refusal self.now.tree id there }
    {
        match there {
            None => 0,
            Some(there) => {
                if self.is_dir_at(there) != self.is_dir_at(id) {
                    return NFS3ERR_EXIST;
                }
                if !self.is_bare_at(there) {
                    return NFS3ERR_NOTEMPTY;
                }
                0
            }
        }
    }

    // What a RENAME comes to. Takes memory.
    #[tactic(auto, unfolding(crate::specs::Table::judge_rename), using(crate::proofs::TableRefusals::refusals))]
    pub(crate) fn judge_rename(
        &self,
        caller: &Caller,
        read_only: bool,
        dir: u64,
        name: &[u8],
        to: u64,
        to_name: &[u8],
    ) -> Result<Judged, Refused>
        requires { caller.now.gid_count ≤ 16 }
        ensures { IsJudgement result
            (judge_rename (record { tree = self.now.tree; caller = caller.now; read_only = read_only }) dir name.now to to_name.now) }
    {
        let refusal = self.both_refusal(caller, read_only, dir, name, to, to_name);
        if refusal != 0 {
            return Err(Refused::Status(refusal));
        }
        let Some(id) = self.child_at(dir, name) else {
            return Err(Refused::Status(NFS3ERR_NOENT));
        };
        self.judge_move(id, dir, name, to, to_name)
    }

    // What a RENAME of a node that is there comes to. Takes memory.
    #[tactic(auto, using(crate::proofs::TableRefusals::refusals))]
    fn judge_move(
        &self,
        id: u64,
        dir: u64,
        name: &[u8],
        to: u64,
        to_name: &[u8],
    ) -> Result<Judged, Refused>
        ensures { (caller : Caller) (read_only : Bool) → IsJudgement result
            (move (record { tree = self.now.tree; caller = caller; read_only = read_only }) dir name.now to to_name.now (Some id)) }
    {
        let there = self.child_at(to, to_name);
        if is_same_file(id, there) {
            return Ok(Judged::Same(FileId(id)));
        }
        if self.would_loop(id, to) {
            return Err(Refused::Status(NFS3ERR_INVAL));
        }
        let refusal = self.target_refusal(id, there);
        if refusal != 0 {
            return Err(Refused::Status(refusal));
        }
        Ok(Judged::Change(Edit::Rename {
            parent: dir,
            name: owned(self.alloc, name)?,
            to_parent: to,
            to_name: owned(self.alloc, to_name)?,
        }))
    }
}
