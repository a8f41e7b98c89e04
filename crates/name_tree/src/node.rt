// The nodes, and what a change of one does to all.
ghost use Rattle.std.specs.Prelude.{◌≡◌, ◌≢◌, ℕ, List, not, is_none, None, Some, OnOk};
ghost use Rattle.name_tree.specs.Rooms.{HasKey, filled_entries, slot_at};
ghost use Rattle.name_tree.specs.Directory.{child_in};
ghost use Rattle.name_tree.specs.Tree.{child_at, first_file_without, has_no_names, new_attr, new_node, node_in, node_is_dir, node_with_size, parent_in, root_node, with_change, with_name, with_new_name, with_new_node, with_parent, with_settings, without_child, without_name};
ghost use Rattle.name_tree.specs.Views.{HasDirRoom, IsNameFree, KeepsDirRooms, KeepsFreeNames, node_of, nodes_of};

use crate::directory::Directory;
use crate::{Name, rooms};
use nfs_types::{Attr, Device, FileType, Time};
use std::alloc::{AllocError, Global};
use std::collections::BTreeMap;

/// A file, a directory or a link.
#[derive(Drop)]
pub struct Node {
    pub attr: Attr,
    /// The directory that it is in; the root's is the root.
    pub parent: u64,
    /// A link's.
    pub path: Name,
    pub verifier: Option<[u8; 8]>,
    /// A directory's.
    pub names: Directory,
}

impl Node {
    fn unlist(&mut self, name: &[u8], now: Time)
        ensures node { node_of self.new ≡ without_name name.now now (node_of self.old) }
        ensures gone { child_in name.now (node_of self.new).names ≡ None }
        ensures absent { (q : List ℕ) → child_in q (node_of self.old).names ≡ None → child_in q (node_of self.new).names ≡ None }
        ensures rooms { (id : ℕ) (q : List ℕ) → HasDirRoom id q (Some self.old) → HasDirRoom id q (Some self.new) }
    {
        self.names.take(name);
        self.attr.mtime = now;
        self.attr.ctime = now;
    }

    fn make_room(&mut self, id: u64, name: Vec<u8>) -> Result<(), AllocError>
        ensures same { node_of self.new ≡ node_of self.old }
        ensures room { OnOk result (HasDirRoom id name.items (Some self.new)) }
    {
        self.names.make_room(id, name)
    }

    fn drop_room(&mut self, id: u64, name: &[u8])
        ensures same { node_of self.new ≡ node_of self.old }
    {
        self.names.drop_room(id, name);
    }

    fn relist(&mut self, id: u64, name: Name, now: Time)
        requires room { HasDirRoom id name (Some self.old) }
        requires free { child_in name (node_of self.old).names ≡ None }
        ensures node { node_of self.new ≡ with_name id name now (node_of self.old) }
    {
        self.names.add(id, name);
        self.attr.mtime = now;
        self.attr.ctime = now;
    }

    fn move_to(&mut self, parent: u64, now: Time)
        ensures node { node_of self.new ≡ with_parent parent now (node_of self.old) }
    {
        self.parent = parent;
        self.attr.ctime = now;
    }

    fn reset(
        &mut self,
        mode: u32,
        uid: u32,
        gid: u32,
        atime: Option<Time>,
        mtime: Option<Time>,
        now: Time,
    )
        ensures node { node_of self.new ≡ with_settings mode uid gid atime mtime now (node_of self.old) }
    {
        self.attr.mode = mode;
        self.attr.uid = uid;
        self.attr.gid = gid;
        self.attr.atime = atime.unwrap_or(self.attr.atime);
        self.attr.mtime = mtime.unwrap_or(self.attr.mtime);
        self.attr.ctime = now;
    }

    fn learn(&mut self, size: u64, changed: Option<u64>)
        ensures node { node_of self.new ≡ node_with_size size changed (node_of self.old) }
    {
        self.attr.size = size;
        self.attr.used = size;
        if let Some(moment) = changed {
            let time = Time::of_moment(moment);
            self.attr.mtime = time;
            self.attr.ctime = time;
        }
    }
}

/// Takes a name out of a directory. Takes no memory.
pub fn unlist(nodes: &mut BTreeMap<u64, Option<Node>>, dir: u64, name: &[u8], now: Time)
    ensures nodes { nodes_of nodes.new.entries ≡ with_change dir (without_name name.now now) (nodes_of nodes.old.entries) }
    ensures rooms { KeepsDirRooms nodes.old.entries nodes.new.entries }
    ensures gone { IsNameFree name.now (slot_at dir nodes.new.entries) }
    ensures absent { KeepsFreeNames nodes.old.entries nodes.new.entries }
{
    if let Some(place) = nodes.get_mut(&dir) {
        if let Some(node) = place {
            node.unlist(name, now);
        }
    }
}

// Makes room in a directory for a name. Takes memory.
fn make_names_room(
    nodes: &mut BTreeMap<u64, Option<Node>>,
    dir: u64,
    id: u64,
    name: Vec<u8>,
) -> Result<(), AllocError>
    ensures same { nodes_of nodes.new.entries ≡ nodes_of nodes.old.entries }
    ensures names { OnOk result (HasDirRoom id name.items (slot_at dir nodes.new.entries)) }
    ensures kept { (q : ℕ) → HasKey q nodes.old.entries → HasKey q nodes.new.entries }
{
    if let Some(place) = nodes.get_mut(&dir) {
        if let Some(node) = place {
            return node.make_room(id, name);
        }
    }
    Ok(())
}

// Takes away the room that a directory has for an id and for a name, where they have none. Takes
// no memory.
fn drop_room(nodes: &mut BTreeMap<u64, Option<Node>>, dir: u64, id: u64, name: &[u8])
    ensures same { nodes_of nodes.new.entries ≡ nodes_of nodes.old.entries }
{
    if let Some(place) = nodes.get_mut(&dir) {
        if let Some(node) = place {
            node.drop_room(id, name);
        }
    }
}

/// Makes room for a node and for a name of it in a directory. Takes memory.
pub fn make_room(
    nodes: &mut BTreeMap<u64, Option<Node>>,
    dir: u64,
    id: u64,
    name: Vec<u8>,
) -> Result<(), AllocError>
    ensures same { nodes_of nodes.new.entries ≡ nodes_of nodes.old.entries }
    ensures id { OnOk result (HasKey id nodes.new.entries) }
    ensures names { OnOk result (HasDirRoom id name.items (slot_at dir nodes.new.entries)) }
{
    rooms::make_room(nodes, id)?;
    make_names_room(nodes, dir, id, name)
}

/// Takes away the room that was made for an edit, where nothing fills it. Takes no memory.
pub fn drop_rooms(nodes: &mut BTreeMap<u64, Option<Node>>, room: Option<Room>)
    ensures same { nodes_of nodes.new.entries ≡ nodes_of nodes.old.entries }
{
    if let Some(room) = room {
        drop_room(nodes, room.parent, room.id, room.name.bytes());
        rooms::drop_room(nodes, room.id);
    }
}

/// Puts a name into the room that a directory has for it. Takes no memory.
pub fn relist(nodes: &mut BTreeMap<u64, Option<Node>>, dir: u64, id: u64, name: Name, now: Time)
    requires room { HasDirRoom id name (slot_at dir nodes.old.entries) }
    requires free { IsNameFree name (slot_at dir nodes.old.entries) }
    ensures nodes { nodes_of nodes.new.entries ≡ with_change dir (with_name id name now) (nodes_of nodes.old.entries) }
{
    if let Some(place) = nodes.get_mut(&dir) {
        if let Some(node) = place {
            node.relist(id, name, now);
        }
    }
}

/// Puts a node into another directory. Takes no memory.
pub fn move_to(nodes: &mut BTreeMap<u64, Option<Node>>, id: u64, parent: u64, now: Time)
    ensures nodes { nodes_of nodes.new.entries ≡ with_change id (with_parent parent now) (nodes_of nodes.old.entries) }
{
    if let Some(place) = nodes.get_mut(&id) {
        if let Some(node) = place {
            node.move_to(parent, now);
        }
    }
}

/// Sets what an edit sets of a node. Takes no memory.
pub fn reset(
    nodes: &mut BTreeMap<u64, Option<Node>>,
    id: u64,
    mode: u32,
    uid: u32,
    gid: u32,
    atime: Option<Time>,
    mtime: Option<Time>,
    now: Time,
)
    ensures nodes { nodes_of nodes.new.entries ≡
        with_change id (with_settings mode uid gid atime mtime now) (nodes_of nodes.old.entries) }
{
    if let Some(place) = nodes.get_mut(&id) {
        if let Some(node) = place {
            node.reset(mode, uid, gid, atime, mtime, now);
        }
    }
}

/// Tells a node its size, and the moment of its last write. Takes no memory.
pub fn learn(nodes: &mut BTreeMap<u64, Option<Node>>, id: u64, size: u64, written: Option<u64>)
    ensures nodes { nodes_of nodes.new.entries ≡ with_change id (node_with_size size written) (nodes_of nodes.old.entries) }
{
    if let Some(place) = nodes.get_mut(&id) {
        if let Some(node) = place {
            node.learn(size, written);
        }
    }
}

/// Whether a node is a directory.
#[tactic(auto, using(crate::proofs::TreeNodes::node_seen))]
pub fn is_dir(nodes: &BTreeMap<u64, Option<Node>>, id: u64) -> bool
    ensures { result ≡ node_is_dir (node_in id (nodes_of nodes.now.entries)) }
{
    match rooms::find(nodes, id) {
        Some(node) => matches!(node.attr.kind, FileType::Directory),
        None => false,
    }
}

/// Whether there is a node.
#[tactic(auto, using(crate::proofs::TreeNodes::node_seen))]
pub fn is_there(nodes: &BTreeMap<u64, Option<Node>>, id: u64) -> bool
    ensures { result ≡ not (is_none (node_in id (nodes_of nodes.now.entries))) }
{
    match rooms::find(nodes, id) {
        Some(_) => true,
        None => false,
    }
}

/// Whether a node has no names.
#[tactic(auto, using(crate::proofs::TreeNodes::node_seen))]
pub fn is_bare(nodes: &BTreeMap<u64, Option<Node>>, id: u64) -> bool
    ensures { result ≡ has_no_names (node_in id (nodes_of nodes.now.entries)) }
{
    match rooms::find(nodes, id) {
        Some(node) => node.names.is_empty(),
        None => true,
    }
}

/// What a name of a directory names.
#[tactic(auto, using(crate::proofs::TreeNodes::node_seen))]
pub fn child(nodes: &BTreeMap<u64, Option<Node>>, dir: u64, name: &[u8]) -> Option<u64>
    ensures { result ≡ child_at dir name.now (nodes_of nodes.now.entries) }
{
    match rooms::find(nodes, dir) {
        Some(node) => node.names.child(name),
        None => None,
    }
}

/// The first regular file that has no entry in a map.
pub fn first_without(nodes: &BTreeMap<u64, Option<Node>>, kept: &BTreeMap<u64, u64>) -> Option<u64>
    ensures { result ≡ first_file_without kept.now.entries (nodes_of nodes.now.entries) }
{
    // A call on the map tells that its keys are in order.
    let _ = kept.len();
    for (id, node) in nodes {
        if let Some(node) = node {
            if matches!(node.attr.kind, FileType::Regular) && !kept.contains_key(id) {
                return Some(*id);
            }
        }
    }
    None
}

/// The directory that a node is in.
#[tactic(auto, using(crate::proofs::TreeNodes::node_seen))]
pub fn parent(nodes: &BTreeMap<u64, Option<Node>>, id: u64) -> u64
    ensures { result ≡ parent_in (node_in id (nodes_of nodes.now.entries)) }
{
    match rooms::find(nodes, id) {
        Some(node) => node.parent,
        None => 3,
    }
}

// The attributes of a new node.
fn new_attr(
    id: u64,
    kind: u32,
    mode: u32,
    uid: u32,
    gid: u32,
    path: &Name,
    atime: Option<Time>,
    mtime: Option<Time>,
    now: Time,
) -> Attr
    ensures { result ≡ new_attr id kind mode uid gid path.now atime mtime now }
{
    let size = if kind == 2 {
        4096
    } else {
        path.bytes().len() as u64
    };
    Attr {
        kind: match kind {
            2 => FileType::Directory,
            5 => FileType::Link,
            _ => FileType::Regular,
        },
        mode,
        nlink: if kind == 2 { 2 } else { 1 },
        uid,
        gid,
        size,
        used: size,
        rdev: Device { major: 0, minor: 0 },
        fsid: 0,
        fileid: id,
        atime: atime.unwrap_or(now),
        mtime: mtime.unwrap_or(now),
        ctime: now,
    }
}

/// What an edit brings to the tree: a name of a node in a directory, and the path of a new link.
#[derive(Drop)]
pub struct Room {
    pub parent: u64,
    pub id: u64,
    pub name: Name,
    pub path: Name,
}

/// Makes the node for which there is room. Takes no memory.
pub fn make(
    nodes: &mut BTreeMap<u64, Option<Node>>,
    alloc: Global,
    room: Room,
    kind: u32,
    mode: u32,
    uid: u32,
    gid: u32,
    atime: Option<Time>,
    mtime: Option<Time>,
    verifier: Option<[u8; 8]>,
    now: Time,
)
    requires id { HasKey room.id nodes.old.entries }
    requires names { HasDirRoom room.id room.name (slot_at room.parent nodes.old.entries) }
    requires free { IsNameFree room.name (slot_at room.parent nodes.old.entries) }
    requires apart { room.id ≢ room.parent }
    ensures nodes { nodes_of nodes.new.entries ≡
        with_new_node room.parent room.id room.name
        (new_node room.parent room.id kind mode uid gid room.path atime mtime verifier now) now (nodes_of nodes.old.entries) }
{
    let Room {
        parent,
        id,
        name,
        path,
    } = room;
    let node = Node {
        attr: new_attr(id, kind, mode, uid, gid, &path, atime, mtime, now),
        parent,
        path,
        verifier,
        names: Directory::new(alloc),
    };
    rooms::fill(nodes, id, node);
    relist(nodes, parent, id, name, now);
}

/// Takes out a name and what it names. Takes no memory.
pub fn remove(nodes: &mut BTreeMap<u64, Option<Node>>, dir: u64, name: &[u8], now: Time)
    ensures nodes { nodes_of nodes.new.entries ≡
        without_child (child_at dir name.now (nodes_of nodes.old.entries)) dir name.now now (nodes_of nodes.old.entries) }
    ensures gone { IsNameFree name.now (slot_at dir nodes.new.entries) }
    ensures rooms { KeepsDirRooms nodes.old.entries nodes.new.entries }
{
    // A call on the map tells that its keys are in order.
    let _ = nodes.len();
    match child(nodes, dir, name) {
        Some(id) => {
            rooms::empty(nodes, id);
            unlist(nodes, dir, name, now);
        }
        None => {}
    }
}

/// Takes out a name and what it names, and their room. Takes no memory.
pub fn remove_whole(nodes: &mut BTreeMap<u64, Option<Node>>, dir: u64, name: &[u8], now: Time)
    ensures nodes { nodes_of nodes.new.entries ≡
        without_child (child_at dir name.now (nodes_of nodes.old.entries)) dir name.now now (nodes_of nodes.old.entries) }
{
    match child(nodes, dir, name) {
        Some(id) => {
            remove(nodes, dir, name, now);
            drop_room(nodes, dir, id, name);
        }
        None => remove(nodes, dir, name, now),
    }
}

/// Gives a node the name for which there is room. Takes no memory.
pub fn rename(nodes: &mut BTreeMap<u64, Option<Node>>, dir: u64, name: &[u8], room: Room, now: Time)
    requires names { HasDirRoom room.id room.name (slot_at room.parent nodes.old.entries) }
    ensures nodes { nodes_of nodes.new.entries ≡
        with_new_name (Some room.id) (child_at room.parent room.name (nodes_of nodes.old.entries))
        dir name.now room.parent room.name now (nodes_of nodes.old.entries) }
{
    let Room {
        parent,
        id,
        name: to_name,
        ..
    } = room;
    let there = child(nodes, parent, to_name.bytes()).unwrap_or(id);
    remove(nodes, parent, to_name.bytes(), now);
    unlist(nodes, dir, name, now);
    relist(nodes, parent, id, to_name, now);
    move_to(nodes, id, parent, now);

    // What is left of the old name, and of what was replaced.
    drop_room(nodes, dir, id, name);
    drop_room(nodes, parent, there, name);
}

/// The root.
pub fn root(alloc: Global) -> Node
    ensures { node_of result ≡ root_node }
{
    let path = Name::of(Vec::new(alloc));
    let now = Time::of_moment(0);
    Node {
        attr: new_attr(3, 2, 493, 0, 0, &path, None, None, now),
        parent: 3,
        path,
        verifier: None,
        names: Directory::new(alloc),
    }
}
