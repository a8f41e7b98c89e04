// The text of an edit.
ghost use Rattle.std.specs.Prelude.{◌≡◌, OnOk, IfOk};
ghost use Rattle.xdr.specs.Rows.{joined_text, text};
ghost use Rattle.edit_log.specs.Edits.{HasNumbers, edit_row, edit_text};

use gw_model::NoMemory;
use name_tree::Edit;
use std::alloc::Global;
use xdr::Writer;

// Writes the items of an edit.
fn put_items(writer: &mut Writer, edit: &Edit) -> Result<(), xdr::NoMemory>
    ensures row { OnOk result (writer.new ≡ joined_text writer.old (edit_row edit.now)) }
    ensures numbers { OnOk result (HasNumbers edit.now) }
{
    match edit {
        Edit::Make {
            parent,
            id,
            kind,
            mode,
            uid,
            gid,
            name,
            path,
            ..
        } => {
            writer.put_u32(1)?;
            writer.put_u64(*parent)?;
            writer.put_u64(*id)?;
            writer.put_u32(*kind)?;
            writer.put_u32(*mode)?;
            writer.put_u32(*uid)?;
            writer.put_u32(*gid)?;
            writer.put_opaque(name.bytes())?;
            writer.put_opaque(path.bytes())?;
        }
        Edit::Remove { parent, name } => {
            writer.put_u32(2)?;
            writer.put_u64(*parent)?;
            writer.put_opaque(name.bytes())?;
        }
        Edit::Rename {
            parent,
            name,
            to_parent,
            to_name,
        } => {
            writer.put_u32(3)?;
            writer.put_u64(*parent)?;
            writer.put_opaque(name.bytes())?;
            writer.put_u64(*to_parent)?;
            writer.put_opaque(to_name.bytes())?;
        }
        Edit::Set {
            id,
            mode,
            uid,
            gid,
            ..
        } => {
            writer.put_u32(4)?;
            writer.put_u64(*id)?;
            writer.put_u32(*mode)?;
            writer.put_u32(*uid)?;
            writer.put_u32(*gid)?;
        }
    }
    Ok(())
}

// The items of an edit.
fn items_of(alloc: Global, edit: &Edit) -> Result<Vec<u8>, xdr::NoMemory>
    ensures items { IfOk result (λ items. items.items ≡ text (edit_row edit.now)) }
    ensures numbers { OnOk result (HasNumbers edit.now) }
{
    let mut writer = Writer::new(alloc);
    put_items(&mut writer, edit)?;
    Ok(writer.into_vec())
}

/// The text of an edit, without its times and its verifier, which version 1 doesn't have: its length and its items. An edit
/// whose items have 2^32 bytes or more has none, and is answered as want of memory. Takes memory.
#[tactic(auto, unfolding(crate::specs::Edits::edit_text))]
pub fn edit_text(alloc: Global, edit: &Edit) -> Result<Vec<u8>, NoMemory>
    ensures text { IfOk result (λ all. all.items ≡ edit_text edit.now) }
    ensures numbers { OnOk result (HasNumbers edit.now) }
{
    let Ok(items) = items_of(alloc, edit) else {
        return Err(NoMemory);
    };
    let Ok(size) = u32::try_from(items.len()) else {
        return Err(NoMemory);
    };
    let mut writer = Writer::new(alloc);
    if writer.put_u32(size).is_err() {
        return Err(NoMemory);
    }
    let mut all = writer.into_vec();
    if all.extend_from_slice(&items).is_err() {
        return Err(NoMemory);
    }
    Ok(all)
}
