// Who may do what.
ghost use Rattle.std.specs.Prelude.{◌≡◌, ◌<◌, ◌≤◌};
ghost use Rattle.name_tree.specs.Access.{access_at, given_access, given_bit, in_group, may, may_at};
ghost use Rattle.name_tree.specs.Tree.{node};

use crate::Tree;
use gw_model::FileId;
use nfs_types::{Attr, FileType};
use rpc_msg::Caller;

fn in_group(caller: &Caller, gid: u32) -> bool
    requires { caller.now.gid_count ≤ 16 }
    ensures { result ≡ in_group caller.now gid }
{
    caller.gid == gid || caller.gids[..caller.gid_count as usize].contains(&gid)
}

// Whether a caller has one of the three bits: 4 read, 2 write, 1 search.
fn may(bit: u32, caller: &Caller, attr: &Attr) -> bool
    requires bit { (0 < bit) × (bit ≤ 4) }
    requires caller { caller.now.gid_count ≤ 16 }
    ensures { result ≡ may bit caller.now attr.now }
{
    if caller.uid == 0 {
        return true;
    }
    let class = if caller.uid == attr.uid {
        64
    } else if in_group(caller, attr.gid) {
        8
    } else {
        1
    };
    attr.mode / (class * bit) % 2 == 1
}

// A bit of a mask that is asked for and allowed.
fn given_bit(allowed: bool, mask: u32, bit: u32) -> u32
    requires { 0 < bit }
    ensures given { result ≡ given_bit allowed mask bit }
    ensures small { result ≤ bit }
{
    if allowed && mask / bit % 2 == 1 {
        bit
    } else {
        0
    }
}

// What of a mask is given.
#[tactic(auto, unfolding(crate::specs::Access::given_access))]
fn given_access(caller: &Caller, attr: &Attr, mask: u32) -> u32
    requires { caller.now.gid_count ≤ 16 }
    ensures { result ≡ given_access caller.now attr.now mask }
{
    let is_dir = matches!(attr.kind, FileType::Directory);
    let may_search = may(1, caller, attr);
    let may_write = may(2, caller, attr);
    let read = given_bit(may(4, caller, attr), mask, 1);
    let lookup = given_bit(is_dir && may_search, mask, 2);
    let modify = given_bit(may_write, mask, 4);
    let extend = given_bit(may_write, mask, 8);
    let delete = given_bit(is_dir && may_write, mask, 16);
    let execute = given_bit(!is_dir && may_search, mask, 32);
    read + lookup + modify + extend + delete + execute
}

impl Tree {
    // Whether a caller has a bit at a node.
    pub(crate) fn may_at(&self, bit: u32, caller: &Caller, file: u64) -> bool
        requires bit { (0 < bit) × (bit ≤ 4) }
        requires caller { caller.now.gid_count ≤ 16 }
        ensures { result ≡ may_at bit caller.now (node self.now.tree file) }
    {
        match self.attr_at(file) {
            Some(attr) => may(bit, caller, attr),
            None => false,
        }
    }

    /// What of an ACCESS mask (RFC 1813 section 3.3.4) a caller is given at a file; nothing where there is none.
    pub fn access(&self, caller: &Caller, file: FileId, mask: u32) -> u32
        requires { caller.now.gid_count ≤ 16 }
        ensures { result ≡ access_at caller.now (node self.now.tree file.0) mask }
    {
        match self.attr_at(file.0) {
            Some(attr) => given_access(caller, attr, mask),
            None => 0,
        }
    }
}
