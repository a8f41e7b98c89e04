// What a path names: the export path, or a directory behind it.
ghost use Rattle.std.specs.Prelude.{◌≡◌};
ghost use Rattle.std.specs.Option.{option_copied};
ghost use Rattle.name_tree.specs.Tree.{is_dir, root};
ghost use Rattle.mount_proc.specs.ExportPaths.{behind_front, front_of_names, is_export_path, names_between, without_last_slash};
ghost use Rattle.mount_proc.specs.ExportPaths.{directory_by_names, directory_of_path, named_directory};

use gw_model::FileId;
use gw_model::status::{NFS3ERR_ACCES, NFS3ERR_NAMETOOLONG, NFS3ERR_NOENT, NFS3ERR_NOTDIR};
use name_tree::Tree;
use nfs_types::FileType;

const ROOT: FileId = FileId(3);

const LONGEST_NAME: usize = 255;

fn without_last_slash(path: &[u8]) -> &[u8]
    ensures { result.now ≡ without_last_slash path.now }
{
    match path.strip_suffix(b"/".as_slice()) {
        Some(front) => front,
        None => path,
    }
}

fn behind_front<'a>(front: &[u8], text: &'a [u8]) -> Option<&'a [u8]>
    ensures { option_copied result ≡ behind_front front.now text.now }
{
    text.strip_prefix(front)
}

// The text of the names behind the export path; `None` where the path doesn't lie there.
fn names_behind<'a>(export: &[u8], path: &'a [u8]) -> Option<&'a [u8]>
    ensures { option_copied result ≡ behind_front (front_of_names export.now) path.now }
{
    let Some(rest) = behind_front(export, path) else {
        return None;
    };
    if export == b"/".as_slice() {
        return Some(rest);
    }
    behind_front(b"/", rest)
}

fn is_export_path(export: &[u8], path: &[u8]) -> bool
    ensures { result ≡ is_export_path export.now path.now }
{
    path == export || without_last_slash(path) == export
}

fn is_dir(tree: &Tree, file: FileId) -> bool
    ensures { result ≡ is_dir tree.now.tree file.0 }
{
    match tree.attr(file) {
        Some(attr) => matches!(attr.kind, FileType::Directory),
        None => false,
    }
}

fn named_directory(tree: &Tree, dir: FileId, name: &[u8]) -> Result<FileId, u32>
    ensures { result ≡ named_directory tree.now.tree dir name.now }
{
    if name.len() > LONGEST_NAME {
        return Err(NFS3ERR_NAMETOOLONG);
    }
    match tree.child(dir, name) {
        None => Err(NFS3ERR_NOENT),
        Some(file) => {
            if is_dir(tree, file) {
                Ok(file)
            } else {
                Err(NFS3ERR_NOTDIR)
            }
        }
    }
}

fn directory_by_names(tree: &Tree, names: &[u8]) -> Result<FileId, u32>
    ensures { result ≡ directory_by_names tree.now.tree (record { 0 = root }) (names_between names.now) }
{
    let mut dir = ROOT;
    for name in names.split(|byte| *byte == b'/') {
        match named_directory(tree, dir, name) {
            Ok(next) => dir = next,
            Err(status) => return Err(status),
        }
    }
    Ok(dir)
}

/// The directory that a path names, where the export path names the root: the path is the export path, or names stand
/// behind that. A slash at its end is passed over. Costs the length of the path, and a look-up for each name.
#[tactic(auto, unfolding(crate::specs::ExportPaths::directory_of_path))]
pub fn directory_of_path(tree: &Tree, export: &[u8], path: &[u8]) -> Result<FileId, u32>
    ensures { result ≡ directory_of_path tree.now.tree export.now path.now }
{
    if is_export_path(export, path) {
        return Ok(ROOT);
    }
    match names_behind(export, without_last_slash(path)) {
        Some(names) => directory_by_names(tree, names),
        None => Err(NFS3ERR_ACCES),
    }
}
