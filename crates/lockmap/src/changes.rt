// How a map is made and grows.
ghost use Rattle.std.specs.Prelude.{◌≡◌, ℕ, ◌+◌, List, is_some, is_ok, IfOk, if◌then◌else◌, None};
ghost use Rattle.lockmap.specs.Maps.{lookup, count, with_at};

use crate::buckets::{bucket_of, nowhere, put};
use crate::map::LockMap;
use std::alloc::{AllocError, Global};

impl<V: Copy> LockMap<V> {
    pub fn new(heap: Global) -> Result<LockMap<V>, AllocError>
        ensures empty { IfOk result (λ m. (l : List ℕ) → lookup m l ≡ None) }
        ensures none { IfOk result (λ m. count m ≡ 0) }
    {
        let places = nowhere(heap)?;
        Ok(LockMap {
            places,
            buckets: Vec::new(heap),
            count: 0,
        })
    }

    // The value that the lock had, if any, is replaced. Where memory fails, or the count would, the map is as it was.
    pub fn insert(&mut self, lock: [u8; 32], value: V) -> Result<(), AllocError>
        ensures after { lookup self.new ≡ (if is_ok result then with_at (lookup self.old) lock value else lookup self.old) }
        ensures places { (l : List ℕ) → lookup self.new l ≡ (if is_ok result then with_at (lookup self.old) lock value l else lookup self.old l) }
        ensures len { count self.new ≡ (if is_ok result then count self.old + (if is_some (lookup self.old lock) then 0 else 1) else count self.old) }
    {
        if self.count == usize::MAX {
            return Err(AllocError);
        }
        let old = put(
            &mut self.places,
            &mut self.buckets,
            bucket_of(&lock),
            lock,
            value,
        )?;
        if old.is_none() {
            self.count += 1;
        }
        Ok(())
    }
}
