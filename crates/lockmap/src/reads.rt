// What a map answers.
ghost use Rattle.std.specs.Prelude.{◌≡◌, is_some};
ghost use Rattle.lockmap.specs.Maps.{lookup, count};

use crate::buckets::{bucket_of, find};
use crate::map::LockMap;

impl<V: Copy> LockMap<V> {
    // How many locks there are.
    pub fn len(&self) -> usize
        ensures { result ≡ count self.now }
    {
        self.count
    }

    pub fn get(&self, lock: &[u8; 32]) -> Option<V>
        ensures { result ≡ lookup self.now lock.now }
    {
        find(&self.places, &self.buckets, bucket_of(lock), lock)
    }

    pub fn contains(&self, lock: &[u8; 32]) -> bool
        ensures { result ≡ is_some (lookup self.now lock.now) }
    {
        self.get(lock).is_some()
    }
}
