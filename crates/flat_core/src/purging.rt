// Purges of a key and by xkeys.
ghost use Rattle.std.specs.Prelude.{◌≡◌, filter, length, map, IfOk, if◌then◌else◌};
ghost use Rattle.std.specs.List.{list_any};
ghost use Rattle.std.specs.Str.{bytes_eq};
ghost use Rattle.cache_law.specs.Purges.{softened as softened_by};
ghost use Rattle.flat_core.specs.Purging.{has_key as is_of_key, has_xkey as has_one, is_purged, is_spared, softening as softening_by};

use crate::stored_object::StoredObject;
use cache_law::{Object, ObjectView, is_in_time};
use softening::softened;
use std::alloc::{AllocError, Global};
use std::collections::VecDeque;
use units::{Shared, Text};

fn has_key(key: &[Text], object: &Object) -> bool
    ensures { result ≡ is_of_key key.now object.now }
{
    object.key() == key
}

fn is_among(keys: &[Text], own: &Text) -> bool
    ensures { result ≡ list_any (bytes_eq own.now) keys.now }
{
    keys.iter().any(|key| own.bytes() == key.bytes())
}

/// Whether the object has at least one of the xkeys. A marker has none.
fn has_xkey(keys: &[Text], object: &Object) -> bool
    ensures { result ≡ has_one keys.now object.now }
{
    match object {
        Object::Ordinary(response) => {
            response
                .content
                .xkeys
                .as_slice()
                .iter()
                .any(|own| is_among(keys, own))
        }
        Object::HitForMiss(_) => false,
        Object::HitForPass(_) => false,
    }
}

fn is_purged_by_key(moment: u64, key: &[Text], kept: &StoredObject) -> bool
    ensures { result ≡ is_purged moment (is_of_key key.now) kept.now }
{
    is_in_time(moment, &kept.view.object) && has_key(key, &kept.view.object)
}

fn is_purged_by_xkeys(moment: u64, keys: &[Text], kept: &StoredObject) -> bool
    ensures { result ≡ is_purged moment (has_one keys.now) kept.now }
{
    is_in_time(moment, &kept.view.object) && has_xkey(keys, &kept.view.object)
}

/// How many objects in time have the key.
pub(crate) fn count_of_key(objects: &VecDeque<StoredObject>, moment: u64, key: &[Text]) -> usize
    ensures { result ≡ length (filter (is_purged moment (is_of_key key.now)) objects.now.items) }
{
    objects
        .iter()
        .filter(|kept| is_purged_by_key(moment, key, kept))
        .count()
}

/// How many objects in time have one of the xkeys.
pub(crate) fn count_of_xkeys(objects: &VecDeque<StoredObject>, moment: u64, keys: &[Text]) -> usize
    ensures { result ≡ length (filter (is_purged moment (has_one keys.now)) objects.now.items) }
{
    objects
        .iter()
        .filter(|kept| is_purged_by_xkeys(moment, keys, kept))
        .count()
}

/// Removes the objects in time that have the key.
pub(crate) fn drop_key(objects: &mut VecDeque<StoredObject>, moment: u64, key: &[Text])
    ensures { objects.new.items ≡ filter (is_spared moment (is_of_key key.now)) objects.old.items }
{
    objects.retain(|kept| !is_purged_by_key(moment, key, kept));
}

/// Removes the objects in time that have one of the xkeys.
pub(crate) fn drop_xkeys(objects: &mut VecDeque<StoredObject>, moment: u64, keys: &[Text])
    ensures { objects.new.items ≡ filter (is_spared moment (has_one keys.now)) objects.old.items }
{
    objects.retain(|kept| !is_purged_by_xkeys(moment, keys, kept));
}

fn softened_if(
    alloc: Global,
    soft: bool,
    moment: u64,
    object: &Shared<Object>,
) -> Result<Shared<Object>, AllocError>
    ensures { IfOk result (λ left. left ≡ (if soft then softened_by moment object.now else object.now)) }
{
    if soft {
        softened(alloc, moment, object)
    } else {
        object.copy()
    }
}

fn softening(
    alloc: Global,
    moment: u64,
    keys: &[Text],
    kept: &StoredObject,
) -> Result<StoredObject, AllocError>
    ensures { IfOk result (λ left. left ≡ softening_by moment keys.now kept.now) }
{
    let soft = is_purged_by_xkeys(moment, keys, kept);
    Ok(StoredObject {
        view: ObjectView {
            number: kept.view.number,
            hits: kept.view.hits,
            object: softened_if(alloc, soft, moment, &kept.view.object)?,
        },
        used: kept.used,
        tested: kept.tested,
    })
}

/// The objects, of which those in time that have one of the xkeys are softened.
pub(crate) fn softened_all(
    alloc: Global,
    moment: u64,
    keys: &[Text],
    objects: &VecDeque<StoredObject>,
) -> Result<VecDeque<StoredObject>, AllocError>
    ensures { IfOk result (λ left. left.items ≡ map (softening_by moment keys.now) objects.now.items) }
{
    let mut left = VecDeque::new(alloc);
    for place in 0..objects.len() {
        left.push_back(softening(alloc, moment, keys, &objects[place])?)?;
    }
    Ok(left)
}
