// REMOVE and RMDIR.
ghost use Rattle.std.specs.Prelude.{◌≡◌, ◌≤◌};
ghost use Rattle.name_tree.specs.Table.{judge_remove, judge_rmdir};
ghost use Rattle.name_tree.specs.Judging.{IsJudgement};

use crate::judge::owned;
use crate::tree::is_dots;
use crate::{Edit, Judged, Refused, Tree};
use gw_model::status::{
    NFS3ERR_INVAL, NFS3ERR_ISDIR, NFS3ERR_NOENT, NFS3ERR_NOTDIR, NFS3ERR_NOTEMPTY,
};
use rpc_msg::Caller;

impl Tree {
    // What a REMOVE comes to. Takes memory.
    #[tactic(auto, unfolding(crate::specs::Table::judge_remove), using(crate::proofs::TableRefusals::refusals))]
    pub(crate) fn judge_remove(
        &self,
        caller: &Caller,
        read_only: bool,
        dir: u64,
        name: &[u8],
    ) -> Result<Judged, Refused>
        requires { caller.now.gid_count ≤ 16 }
        ensures { IsJudgement result
            (judge_remove (record { tree = self.now.tree; caller = caller.now; read_only = read_only }) dir name.now) }
    {
        let refusal = self.change_refusal(caller, read_only, dir, name);
        if refusal != 0 {
            return Err(Refused::Status(refusal));
        }
        if is_dots(name) {
            return Err(Refused::Status(NFS3ERR_INVAL));
        }
        let Some(id) = self.child_at(dir, name) else {
            return Err(Refused::Status(NFS3ERR_NOENT));
        };
        if self.is_dir_at(id) {
            return Err(Refused::Status(NFS3ERR_ISDIR));
        }
        Ok(Judged::Change(Edit::Remove {
            parent: dir,
            name: owned(self.alloc, name)?,
        }))
    }

    // What an RMDIR comes to. Takes memory.
    #[tactic(auto, unfolding(crate::specs::Table::judge_rmdir), using(crate::proofs::TableRefusals::refusals))]
    pub(crate) fn judge_rmdir(
        &self,
        caller: &Caller,
        read_only: bool,
        dir: u64,
        name: &[u8],
    ) -> Result<Judged, Refused>
        requires { caller.now.gid_count ≤ 16 }
        ensures { IsJudgement result
            (judge_rmdir (record { tree = self.now.tree; caller = caller.now; read_only = read_only }) dir name.now) }
    {
        let refusal = self.change_refusal(caller, read_only, dir, name);
        if refusal != 0 {
            return Err(Refused::Status(refusal));
        }
        if is_dots(name) {
            return Err(Refused::Status(NFS3ERR_INVAL));
        }
        let Some(id) = self.child_at(dir, name) else {
            return Err(Refused::Status(NFS3ERR_NOENT));
        };
        if !self.is_dir_at(id) {
            return Err(Refused::Status(NFS3ERR_NOTDIR));
        }
        if !self.is_bare_at(id) {
            return Err(Refused::Status(NFS3ERR_NOTEMPTY));
        }
        Ok(Judged::Change(Edit::Remove {
            parent: dir,
            name: owned(self.alloc, name)?,
        }))
    }
}
