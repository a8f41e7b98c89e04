// SETATTR, and what a set of attributes gives.
ghost use Rattle.std.specs.Prelude.{◌≡◌, ◌≤◌};
ghost use Rattle.name_tree.specs.Table.{guard_differs, is_other, judge_setattr, mode_or, setattr_refusal, sets_more, sets_time, time_or_none};
ghost use Rattle.name_tree.specs.Judging.{IsJudgement};

use crate::{Edit, Judged, Refused, Tree};
use gw_model::FileId;
use gw_model::status::{
    NFS3ERR_INVAL, NFS3ERR_NOT_SYNC, NFS3ERR_NOTSUPP, NFS3ERR_PERM, NFS3ERR_ROFS, NFS3ERR_STALE,
};
use nfs_types::{Attr, FileType, SetAttr, SetTime, Time};
use rpc_msg::Caller;

// Mode bits 0 to 11.
pub fn mode_or(set: Option<u32>, mode: u32) -> u32
    ensures { result ≡ mode_or set mode }
{
    match set {
        Some(set) => set % 4096,
        None => mode,
    }
}

pub fn time_or_none(set: SetTime, moment: u64) -> Option<Time>
    ensures { result ≡ time_or_none set moment }
{
    match set {
        SetTime::Leave => None,
        SetTime::Server => Some(Time::of_moment(moment)),
        SetTime::At(time) => Some(time),
    }
}

fn sets_time(set: SetTime) -> bool
    ensures { result ≡ sets_time set }
{
    !matches!(set, SetTime::Leave)
}

// Whether anything but the size is set.
fn sets_more(set: &SetAttr) -> bool
    ensures { result ≡ sets_more set.now }
{
    set.mode.is_some()
        || set.uid.is_some()
        || set.gid.is_some()
        || sets_time(set.atime)
        || sets_time(set.mtime)
}

// Whether a number is set, and to another one.
pub fn is_other(set: Option<u64>, n: u64) -> bool
    ensures { result ≡ is_other set n }
{
    match set {
        Some(m) => m != n,
        None => false,
    }
}

fn is_other_word(set: Option<u32>, n: u32) -> bool
    ensures { result ≡ is_other set n }
{
    match set {
        Some(m) => m != n,
        None => false,
    }
}

fn guard_differs(guard: Option<Time>, time: Time) -> bool
    ensures { result ≡ guard_differs guard time }
{
    match guard {
        Some(guard) => guard.seconds != time.seconds || guard.nanos != time.nanos,
        None => false,
    }
}

impl Tree {
    // What a SETATTR comes to, at a moment.
    #[tactic(auto, unfolding(crate::specs::Table::judge_setattr), using(crate::proofs::TableRefusals::refusals))]
    pub(crate) fn judge_setattr(
        &self,
        caller: &Caller,
        read_only: bool,
        moment: u64,
        file: u64,
        set: &SetAttr,
        guard: Option<Time>,
    ) -> Result<Judged, Refused>
        ensures { IsJudgement result
            (judge_setattr (record { tree = self.now.tree; caller = caller.now; read_only = read_only }) moment file set.now guard) }
    {
        let Some(attr) = self.attr_at(file) else {
            return Err(Refused::Status(NFS3ERR_STALE));
        };
        let refusal = self.setattr_refusal(caller, read_only, attr, set, guard);
        if refusal != 0 {
            return Err(Refused::Status(refusal));
        }
        if !sets_more(set) {
            return Ok(Judged::Same(FileId(file)));
        }
        Ok(Judged::Change(Edit::Set {
            id: file,
            mode: mode_or(set.mode, attr.mode),
            uid: set.uid.unwrap_or(attr.uid),
            gid: set.gid.unwrap_or(attr.gid),
            atime: time_or_none(set.atime, moment),
            mtime: time_or_none(set.mtime, moment),
        }))
    }

    // The first refusal of a SETATTR, or 0.
    #[tactic(auto, unfolding(crate::specs::Table::setattr_refusal))]
    fn setattr_refusal(
        &self,
        caller: &Caller,
        read_only: bool,
        attr: &Attr,
        set: &SetAttr,
        guard: Option<Time>,
    ) -> u32
        ensures { result ≡
            setattr_refusal (record { tree = self.now.tree; caller = caller.now; read_only = read_only }) attr.now set.now guard }
    {
        if read_only {
            return NFS3ERR_ROFS;
        }
        if guard_differs(guard, attr.ctime) {
            return NFS3ERR_NOT_SYNC;
        }
        if sets_more(set) && caller.uid != 0 && caller.uid != attr.uid {
            return NFS3ERR_PERM;
        }
        if is_other_word(set.uid, attr.uid) && caller.uid != 0 {
            return NFS3ERR_PERM;
        }
        if set.size.is_some() && !matches!(attr.kind, FileType::Regular) {
            return NFS3ERR_INVAL;
        }
        if is_other(set.size, attr.size) {
            return NFS3ERR_NOTSUPP;
        }
        0
    }
}
