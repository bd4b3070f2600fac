// The map: 4096 buckets, by the first 12 bits of a lock, each a sorted map of its own, which is made when its first lock comes.
// One sorted map for all locks takes longer to search: the more locks are in a tree, the more of them are compared. And 4096
// that are made at once take longer than all else of a start with few locks.
ghost use Rattle.std.specs.Prelude.{◌≡◌, true, vec_len};
ghost use Rattle.lockmap.specs.Buckets.{all_in_order, all_len};

use std::collections::BTreeMap;

pub(crate) type Buckets<V> = Vec<BTreeMap<[u8; 32], V>>;

// `places` has for each of the 4096 its number among those that are made; where it is none of theirs, it isn't made yet.
#[derive(Drop)]
pub struct LockMap<V> {
    pub(crate) places: Vec<u16>,
    pub(crate) buckets: Buckets<V>,
    pub(crate) count: usize,
    ghost full: { vec_len places ≡ 4096 },
    ghost lawful: { all_in_order buckets.items ≡ true },
    ghost counted: { count ≡ all_len buckets.items },
}
