// The name tree.
ghost use Rattle.std.specs.Prelude.{◌≡◌, ℕ, List, IfOk, OnOk, None, Some, not, is_none};
ghost use Rattle.std.specs.Option.{option_copied, option_map};
ghost use Rattle.gw_model.specs.declared.FileId.{FileId};
ghost use Rattle.name_tree.specs.Tree.{child, entry_after, first_file_without, is_bare, is_below, is_dir, is_dots, is_fitting, may_move, node, parent_of, root_tree, tree_after, tree_past, tree_with_size, would_loop};
ghost use Rattle.name_tree.specs.Table.{is_same_verifier, node_attr, verifier_in};
ghost use Rattle.name_tree.specs.Flat.{IsSoundTree};
ghost use Rattle.name_tree.specs.Listing.{lent_bytes, lent_name_entry, link_path};
ghost use Rattle.name_tree.specs.Seen.{IsReserved, IsRoomFor, IsRoomThere, tree_state};

use crate::node::{Node, Room};
use crate::{Edit, Name, node, rooms};
use gw_model::{FileId, NoMemory};
use nfs_types::{Attr, FileType, Time};
use std::alloc::{AllocError, Global};
use std::collections::BTreeMap;
use std::marker::Model;

/// Files, directories and links by their numbers. The root has the number 3, and each other node one of at least 4.
#[derive(Drop)]
pub struct Tree {
    pub(crate) alloc: Global,
    nodes: BTreeMap<u64, Option<Node>>,
    next_id: u64,
    room: Option<Room>,
}

impl Model for Tree {
    ghost use Rattle.name_tree.specs.Seen.{TreeState};

    ghost Value = { TreeState };

    ghost use Rattle.name_tree.specs.Seen.{IsRoomThere, tree_state};
    ghost use Rattle.name_tree.specs.Flat.{IsSoundTree};

    ghost view = { λ t. tree_state t.nodes.entries t.next_id t.room };

    ghost invariant = { λ t. IsRoomThere t.nodes.entries t.room × IsSoundTree (tree_state t.nodes.entries t.next_id t.room).tree };
}

/// An entry of a directory.
#[derive(Drop)]
pub struct Listed<'a> {
    pub file: FileId,
    pub name: &'a [u8],
    /// Entries behind this one have greater cookies.
    pub cookie: u64,
}

// Whether a node is another one or below it. No way up is longer than the next id says.
fn is_below(nodes: &BTreeMap<u64, Option<Node>>, steps: u64, top: u64, id: u64) -> bool
    ensures { (next : ℕ) → result ≡ is_below steps (tree_state nodes.now.entries next None).tree top id }
{
    let mut left = steps;
    let mut at = id;
    while left > 0 {
        if at == top {
            return true;
        }
        if at == 3 {
            return false;
        }
        at = node::parent(nodes, at);
        left -= 1;
    }
    false
}

pub fn is_dots(name: &[u8]) -> bool
    ensures { result ≡ is_dots name.now }
{
    name == b".".as_slice() || name == b"..".as_slice()
}

// Whether a node may take the place of what a name names.
fn may_move(
    nodes: &BTreeMap<u64, Option<Node>>,
    next_id: u64,
    id: u64,
    dir: u64,
    name: &[u8],
) -> bool
    ensures { result ≡ may_move (tree_state nodes.now.entries next_id None).tree (Some id) dir name.now }
{
    if !node::is_dir(nodes, dir) || is_dots(name) {
        return false;
    }
    if node::is_dir(nodes, id) && is_below(nodes, next_id, id, dir) {
        return false;
    }
    match node::child(nodes, dir, name) {
        None => true,
        Some(there) => {
            there != id
                && node::is_dir(nodes, id) == node::is_dir(nodes, there)
                && node::is_bare(nodes, there)
        }
    }
}

// Whether an edit fits the tree.
fn is_fitting(nodes: &BTreeMap<u64, Option<Node>>, next_id: u64, edit: &Edit) -> bool
    ensures { result ≡ is_fitting (tree_state nodes.now.entries next_id None).tree edit.now }
{
    match edit {
        Edit::Make {
            parent,
            id,
            name,
            ..
        } => {
            if !node::is_dir(nodes, *parent) || is_dots(name.bytes()) {
                return false;
            }
            if node::child(nodes, *parent, name.bytes()).is_some() || *id < 4 {
                return false;
            }
            !node::is_there(nodes, *id)
        }
        Edit::Remove { parent, name } => match node::child(nodes, *parent, name.bytes()) {
            Some(id) => node::is_bare(nodes, id),
            None => false,
        },
        Edit::Rename {
            parent,
            name,
            to_parent,
            to_name,
        } => match node::child(nodes, *parent, name.bytes()) {
            Some(id) => may_move(nodes, next_id, id, *to_parent, to_name.bytes()),
            None => false,
        },
        Edit::Set { id, .. } => node::is_there(nodes, *id),
    }
}

// Does an edit to the nodes, with the room that was made for it. Takes no memory.
#[tactic(auto, unfolding(crate::specs::Tree::tree_after))]
fn edit_nodes(
    alloc: Global,
    nodes: &mut BTreeMap<u64, Option<Node>>,
    next_id: &mut u64,
    room: Option<Room>,
    edit: &Edit,
    moment: u64,
)
    requires there { IsRoomThere nodes.old.entries room }
    requires reserved { IsReserved edit.now (tree_state nodes.old.entries next_id.old room) }
    ensures tree { (tree_state nodes.new.entries next_id.new None).tree ≡
        tree_after edit.now moment (tree_state nodes.old.entries next_id.old None).tree }
{
    // A call on the map tells that its keys are in order.
    let _ = nodes.len();
    if !is_fitting(nodes, *next_id, edit) {
        node::drop_rooms(nodes, room);
        return;
    }
    let now = Time::of_moment(moment);
    match edit {
        Edit::Make {
            id,
            kind,
            mode,
            uid,
            gid,
            atime,
            mtime,
            verifier,
            ..
        } => {
            if let Some(room) = room {
                node::make(
                    nodes, alloc, room, *kind, *mode, *uid, *gid, *atime, *mtime, *verifier, now,
                );
                *next_id = (*next_id).max(id.saturating_add(1));
            }
        }
        Edit::Remove { parent, name } => {
            node::remove_whole(nodes, *parent, name.bytes(), now);
        }
        Edit::Rename { parent, name, .. } => {
            if let Some(room) = room {
                node::rename(nodes, *parent, name.bytes(), room, now);
            }
        }
        Edit::Set {
            id,
            mode,
            uid,
            gid,
            atime,
            mtime,
        } => {
            node::reset(nodes, *id, *mode, *uid, *gid, *atime, *mtime, now);
        }
    }
}

impl Tree {
    /// The root alone. Takes memory.
    pub fn new(alloc: Global) -> Result<Tree, NoMemory>
        ensures { IfOk result (λ t. t ≡ record { tree = root_tree; room = None }) }
    {
        let mut nodes = BTreeMap::new(alloc);
        match nodes.insert(3, Some(node::root(alloc))) {
            Ok(_) => Ok(Tree {
                alloc,
                nodes,
                next_id: 4,
                room: None,
            }),
            Err(_) => Err(NoMemory),
        }
    }

    // Whether there is a node.
    pub(crate) fn has(&self, id: u64) -> bool
        ensures { result ≡ not (is_none (node self.now.tree id)) }
    {
        node::is_there(&self.nodes, id)
    }

    // Whether a node is a directory.
    pub(crate) fn is_dir_at(&self, id: u64) -> bool
        ensures { result ≡ is_dir self.now.tree id }
    {
        node::is_dir(&self.nodes, id)
    }

    // Whether a node has no names.
    pub(crate) fn is_bare_at(&self, id: u64) -> bool
        ensures { result ≡ is_bare self.now.tree id }
    {
        node::is_bare(&self.nodes, id)
    }

    // What a name of a directory names.
    pub(crate) fn child_at(&self, dir: u64, name: &[u8]) -> Option<u64>
        ensures { result ≡ child self.now.tree dir name.now }
    {
        node::child(&self.nodes, dir, name)
    }

    // The directory that a node is in.
    pub(crate) fn parent_at(&self, id: u64) -> u64
        ensures { result ≡ parent_of self.now.tree id }
    {
        node::parent(&self.nodes, id)
    }

    // Whether a directory would come into itself or below.
    pub(crate) fn would_loop(&self, id: u64, into: u64) -> bool
        ensures { result ≡ would_loop self.now.tree id into }
    {
        node::is_dir(&self.nodes, id) && is_below(&self.nodes, self.next_id, id, into)
    }

    // The attributes of a node.
    #[tactic(auto, using(crate::proofs::TreeNodes::node_seen))]
    pub(crate) fn attr_at(&self, id: u64) -> Option<&Attr>
        ensures { option_copied result ≡ node_attr self.now.tree id }
    {
        match rooms::find(&self.nodes, id) {
            Some(node) => Some(&node.attr),
            None => None,
        }
    }

    // Whether a node was made with this verifier.
    #[tactic(auto, using(crate::proofs::TreeNodes::node_seen))]
    pub(crate) fn has_verifier(&self, id: u64, verifier: &[u8; 8]) -> bool
        ensures { result ≡ is_same_verifier verifier.now (verifier_in (node self.now.tree id)) }
    {
        match rooms::find(&self.nodes, id) {
            Some(node) => match &node.verifier {
                Some(had) => verifier.as_slice() == had.as_slice(),
                None => false,
            },
            None => false,
        }
    }

    /// The attributes of a file, without the number of its file system, in whose place stands 0.
    pub fn attr(&self, file: FileId) -> Option<&Attr>
        ensures { option_copied result ≡ node_attr self.now.tree file.0 }
    {
        self.attr_at(file.0)
    }

    /// What a link leads to; `None` where the file isn't a link of the tree.
    #[tactic(auto, using(crate::proofs::TreeNodes::node_seen))]
    pub fn path(&self, file: FileId) -> Option<&[u8]>
        ensures { lent_bytes result ≡ link_path (node self.now.tree file.0) }
    {
        match rooms::find(&self.nodes, file.0) {
            Some(node) => match node.attr.kind {
                FileType::Link => Some(node.path.bytes()),
                _ => None,
            },
            None => None,
        }
    }

    /// What a name of a directory names, whoever asks.
    pub fn child(&self, dir: FileId, name: &[u8]) -> Option<FileId>
        ensures { option_map (λ (f : FileId). f.0) result ≡ child self.now.tree dir.0 name.now }
    {
        match self.child_at(dir.0, name) {
            Some(id) => Some(FileId(id)),
            None => None,
        }
    }

    /// The least regular file that has no entry in a map.
    pub fn first_file_without(&self, kept: &BTreeMap<u64, u64>) -> Option<u64>
        ensures { result ≡ first_file_without kept.now.entries self.now.tree.nodes }
    {
        node::first_without(&self.nodes, kept)
    }

    /// The entry of a directory with the least cookie above this one: the directory, its parent, and its names by rising ids.
    #[tactic(auto, using(crate::proofs::TreeNodes::node_seen))]
    pub fn list_after(&self, dir: FileId, cookie: u64) -> Option<Listed<'_>>
        ensures { lent_name_entry result ≡ entry_after self.now.tree dir.0 cookie }
    {
        match rooms::find(&self.nodes, dir.0) {
            Some(node) => {
                if !matches!(node.attr.kind, FileType::Directory) {
                    return None;
                }
                if cookie == 0 {
                    return Some(Listed {
                        file: dir,
                        name: b".",
                        cookie: 1,
                    });
                }
                if cookie == 1 {
                    return Some(Listed {
                        file: FileId(node.parent),
                        name: b"..",
                        cookie: 2,
                    });
                }
                match node.names.after(cookie) {
                    Some((file, name)) => Some(Listed {
                        file: FileId(file),
                        name: name.bytes(),
                        cookie: file,
                    }),
                    None => None,
                }
            }
            None => None,
        }
    }

    /// Each tree that a `Tree` is, is one of which `tree_laws` speaks. Does nothing.
    pub fn soundness(&self)
        ensures { IsSoundTree self.now.tree }
    {
        // A call on the map tells that its keys are in order.
        let _ = self.nodes.len();
    }

    /// The number that the next node gets.
    pub fn next_id(&self) -> u64
        ensures { result ≡ self.now.tree.next_id }
    {
        self.next_id
    }

    /// The next node gets a number above this one, or the greatest if there is none. Takes no memory.
    pub fn pass_id(&mut self, id: u64)
        ensures tree { self.new.tree ≡ tree_past id self.old.tree }
    {
        self.next_id = self.next_id.max(id.saturating_add(1));
    }

    /// Tells a file its size in bytes, and the moment in milliseconds of its last write, if there was one. Takes no memory.
    pub fn learn(&mut self, file: FileId, size: u64, changed: Option<u64>)
        ensures tree { self.new.tree ≡ tree_with_size file.0 size changed self.old.tree }
    {
        self.drop_room();
        node::learn(&mut self.nodes, file.0, size, changed);
    }

    // Takes away the room that was made last, where nothing fills it. Takes no memory.
    fn drop_room(&mut self)
        ensures tree { self.new.tree ≡ self.old.tree }
        ensures room { self.new.room ≡ None }
    {
        let room = self.room.take();
        node::drop_rooms(&mut self.nodes, room);
    }

    // Makes room for a name of a node in a directory, and for the node. Takes memory.
    fn hold(&mut self, parent: u64, id: u64, name: &[u8], path: &[u8]) -> Result<(), AllocError>
        ensures tree { self.new.tree ≡ self.old.tree }
        ensures room { OnOk result (IsRoomFor parent id name.now path.now self.new.room) }
    {
        self.room = None;
        let room = Room {
            parent,
            id,
            name: Name::of(Vec::from_slice(self.alloc, name)?),
            path: Name::of(Vec::from_slice(self.alloc, path)?),
        };
        let key = Vec::from_slice(self.alloc, name)?;
        node::make_room(&mut self.nodes, parent, id, key)?;
        self.room = Some(room);
        Ok(())
    }

    // Makes the room that an edit will need, in place of that for an earlier one. Takes memory.
    fn make_room(&mut self, edit: &Edit) -> Result<(), AllocError>
        ensures tree { self.new.tree ≡ self.old.tree }
        ensures room { OnOk result (IsReserved edit.now self.new) }
    {
        self.drop_room();
        match edit {
            Edit::Make {
                parent,
                id,
                name,
                path,
                ..
            } => self.hold(*parent, *id, name.bytes(), path.bytes()),
            Edit::Remove { .. } | Edit::Set { .. } => Ok(()),
            Edit::Rename {
                parent,
                name,
                to_parent,
                to_name,
            } => match node::child(&self.nodes, *parent, name.bytes()) {
                Some(id) => self.hold(*to_parent, id, to_name.bytes(), &[]),
                None => Ok(()),
            },
        }
    }

    /// Takes all memory that an edit will need.
    pub fn reserve(&mut self, edit: &Edit) -> Result<(), NoMemory>
        ensures tree { self.new.tree ≡ self.old.tree }
        ensures room { OnOk result (IsReserved edit.now self.new) }
    {
        match self.make_room(edit) {
            Ok(()) => Ok(()),
            Err(_) => Err(NoMemory),
        }
    }

    /// Does an edit for which memory was taken, at a moment in milliseconds. One that doesn't fit changes nothing. Takes no
    /// memory.
    pub fn apply(&mut self, edit: &Edit, moment: u64)
        requires { IsReserved edit.now self.old }
        ensures tree { self.new.tree ≡ tree_after edit.now moment self.old.tree }
    {
        let room = self.room.take();
        edit_nodes(
            self.alloc,
            &mut self.nodes,
            &mut self.next_id,
            room,
            edit,
            moment,
        );
    }
}
