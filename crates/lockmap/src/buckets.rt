// What the methods are made of: the bucket of a lock, how it is made, and a search and a change in one bucket.
ghost use Rattle.std.specs.Prelude.{◌≡◌, ℕ, ◌+◌, ◌<◌, true, List, is_ok, is_some, IfOk, OnOk, if◌then◌else◌, slice_index, vec_len};
ghost use Rattle.lockmap.specs.Buckets.{bucket_of, all_in_order, held, all_len};
ghost use Rattle.lockmap.specs.Maps.{with_at};

use crate::map::Buckets;
use std::alloc::{AllocError, AllocFailed, Global};
use std::collections::BTreeMap;

// The number of no bucket: more than 4096 are never made.
const NONE: u16 = 0xffff;

// The first 12 bits of a lock.
pub(crate) fn bucket_of(lock: &[u8; 32]) -> usize
    ensures value { result ≡ bucket_of lock.now }
    ensures bound { result < 4096 }
{
    lock[0] as usize * 16 + lock[1] as usize / 16
}

// The places of the buckets, none of which is made.
pub(crate) fn nowhere(heap: Global) -> Result<Vec<u16>, AllocError>
    ensures { IfOk result (λ v. vec_len v ≡ 4096) }
{
    Vec::from_slice(heap, &[NONE; 4096])
}

pub(crate) fn find<V: Copy>(
    places: &Vec<u16>,
    buckets: &Buckets<V>,
    place: usize,
    lock: &[u8; 32],
) -> Option<V>
    requires lawful { all_in_order buckets.now.items ≡ true }
    requires within { place < vec_len places.now }
    requires place { place ≡ bucket_of lock.now }
    ensures { result ≡ held places.now.items buckets.now.items lock.now }
{
    buckets.get(usize::from(places[place]))?.get(lock).copied()
}

// Makes the bucket at a place, if it isn't there yet.
fn open<V: Copy>(
    places: &mut Vec<u16>,
    buckets: &mut Buckets<V>,
    place: usize,
) -> Result<(), AllocError>
    requires lawful { all_in_order buckets.old.items ≡ true }
    requires within { place < vec_len places.old }
    ensures len { vec_len places.new ≡ vec_len places.old }
    ensures lawful { all_in_order buckets.new.items ≡ true }
    ensures counted { all_len buckets.new.items ≡ all_len buckets.old.items }
    ensures holds { (l : List ℕ) → held places.new.items buckets.new.items l ≡ held places.old.items buckets.old.items l }
    ensures there { OnOk result (slice_index places.new.items place < vec_len buckets.new) }
{
    let many = buckets.len();
    if usize::from(places[place]) < many {
        return Ok(());
    }
    if many >= usize::from(NONE) {
        return Err(AllocError);
    }
    let heap = *buckets.allocator();
    buckets.push(BTreeMap::new(heap))?;
    places[place] = many as u16;
    Ok(())
}

fn put_in<V: Copy>(
    places: &Vec<u16>,
    buckets: &mut Buckets<V>,
    place: usize,
    lock: [u8; 32],
    value: V,
) -> Result<Option<V>, AllocFailed<([u8; 32], V)>>
    requires lawful { all_in_order buckets.old.items ≡ true }
    requires within { place < vec_len places.now }
    requires place { place ≡ bucket_of lock }
    requires there { slice_index places.now.items place < vec_len buckets.old }
    ensures lawful { all_in_order buckets.new.items ≡ true }
    ensures old { IfOk result (λ old. old ≡ held places.now.items buckets.old.items lock) }
    ensures counted { all_len buckets.new.items ≡ (if is_ok result then all_len buckets.old.items + (if is_some (held places.now.items buckets.old.items lock) then 0 else 1) else all_len buckets.old.items) }
    ensures places { (l : List ℕ) → held places.now.items buckets.new.items l ≡ (if is_ok result then with_at (held places.now.items buckets.old.items) lock value l else held places.now.items buckets.old.items l) }
{
    buckets[usize::from(places[place])].insert(lock, value)
}

pub(crate) fn put<V: Copy>(
    places: &mut Vec<u16>,
    buckets: &mut Buckets<V>,
    place: usize,
    lock: [u8; 32],
    value: V,
) -> Result<Option<V>, AllocError>
    requires lawful { all_in_order buckets.old.items ≡ true }
    requires within { place < vec_len places.old }
    requires place { place ≡ bucket_of lock }
    ensures len { vec_len places.new ≡ vec_len places.old }
    ensures lawful { all_in_order buckets.new.items ≡ true }
    ensures old { IfOk result (λ old. old ≡ held places.old.items buckets.old.items lock) }
    ensures after { held places.new.items buckets.new.items ≡ (if is_ok result then with_at (held places.old.items buckets.old.items) lock value else held places.old.items buckets.old.items) }
    ensures counted { all_len buckets.new.items ≡ (if is_ok result then all_len buckets.old.items + (if is_some (held places.old.items buckets.old.items lock) then 0 else 1) else all_len buckets.old.items) }
    ensures places { (l : List ℕ) → held places.new.items buckets.new.items l ≡ (if is_ok result then with_at (held places.old.items buckets.old.items) lock value l else held places.old.items buckets.old.items l) }
{
    open(places, buckets, place)?;
    let old = put_in(places, buckets, place, lock, value)?;
    Ok(old)
}
