// The list of the objects of a replicated store.
ghost use Rattle.std.specs.Prelude.{◌≡◌, ◌≢◌, [], length, true, None, Some, IfOk, IfSome, IfNone, IsSome, OnOk, OnErr};
ghost use Rattle.std.specs.BTreeMap.{get};
ghost use Rattle.std.specs.List.{AllByRecursion};
ghost use Rattle.gw_model.specs.declared.object.ObjectId.{ObjectId};
ghost use Rattle.append_store.specs.Calls.{object_cmp};

use crate::parts::Part;
use crate::seats::Known;
use append_store::AppendFile;
use gw_model::ObjectId;
use std::alloc::{AllocError, Global};
use std::collections::BTreeMap;
use std::mem::replace;

// Something that stands in the list while what is kept of an object is worked on.
pub(crate) fn hollow<F: AppendFile>(alloc: Global) -> Known<F>
    ensures { result ≡ record { chief = 0; synced = 0; parts = [] } }
{
    Known {
        chief: 0,
        synced: 0,
        parts: Vec::new(alloc),
    }
}

// A place for each member, each of which takes part.
pub(crate) fn places<F: AppendFile>(alloc: Global, count: usize) -> Result<Vec<Part<F>>, AllocError>
    ensures count { IfOk result (λ parts. length parts.items ≡ count) }
    ensures live { IfOk result (λ parts. AllByRecursion (λ p. p.live ≡ true) parts.items) }
{
    let mut parts = Vec::new(alloc);
    for place in 0..count {
        let _ = place;
        parts.push(Part::waiting())?;
    }
    Ok(parts)
}

// Gives an object that isn't in the list a place there.
pub(crate) fn enter<F: AppendFile>(
    known: &mut BTreeMap<ObjectId, Known<F>>,
    object: ObjectId,
    kept: Known<F>,
) -> Result<(), AllocError>
    requires { get object_cmp known.old object ≡ None }
    ensures here { OnOk result (get object_cmp known.new object ≡ Some kept) }
    ensures refused { OnErr result (get object_cmp known.new object ≡ None) }
    ensures others { (q : ObjectId) → q ≢ object → get object_cmp known.new q ≡ get object_cmp known.old q }
{
    known.insert(object, kept)?;
    Ok(())
}

// Lifts out what is kept of an object that has a part for each of so many members, and keeps its
// place in the list.
pub(crate) fn lift<F: AppendFile>(
    alloc: Global,
    known: &mut BTreeMap<ObjectId, Known<F>>,
    object: ObjectId,
    count: usize,
) -> Option<Known<F>>
    ensures lifted { IfSome result (λ k. get object_cmp known.old object ≡ Some k) }
    ensures places { IfSome result (λ k. length k.parts ≡ count) }
    ensures here { IfSome result (λ k. IsSome (get object_cmp known.new object)) }
    ensures others { (q : ObjectId) → q ≢ object → get object_cmp known.new q ≡ get object_cmp known.old q }
    ensures same { IfNone result (get object_cmp known.new object ≡ get object_cmp known.old object) }
    ensures none { IfNone result (IfSome (get object_cmp known.old object) (λ k. length k.parts ≢ count)) }
{
    let kept = known.get_mut(&object)?;
    if places_of(kept) != count {
        return None;
    }
    Some(replace(kept, hollow(alloc)))
}

// How many parts there are.
pub(crate) fn places_of<F: AppendFile>(kept: &Known<F>) -> usize
    ensures { result ≡ length kept.now.parts }
{
    kept.parts.len()
}

// Puts back what is kept of an object.
pub(crate) fn put_back<F: AppendFile>(
    known: &mut BTreeMap<ObjectId, Known<F>>,
    object: ObjectId,
    kept: Known<F>,
)
    requires { IsSome (get object_cmp known.old object) }
    ensures here { get object_cmp known.new object ≡ Some kept }
    ensures others { (q : ObjectId) → q ≢ object → get object_cmp known.new q ≡ get object_cmp known.old q }
{
    if let Some(place) = known.get_mut(&object) {
        *place = kept;
    }
}

// Takes an object from the list.
pub(crate) fn strike<F: AppendFile>(known: &mut BTreeMap<ObjectId, Known<F>>, object: ObjectId)
    ensures gone { get object_cmp known.new object ≡ None }
    ensures others { (q : ObjectId) → q ≢ object → get object_cmp known.new q ≡ get object_cmp known.old q }
{
    let _ = known.remove(&object);
}
