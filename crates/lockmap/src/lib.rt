// A map from locks, digests of 32 bytes, to values. What it has for a lock is `lookup` of specs/Maps.antt: `get` returns it,
// `insert` changes it at one lock. Built for logarithmic searches, though no contract speaks of time. Leans on std only.
#![tactic(auto)]

mod buckets;
mod changes;
mod map;
mod reads;

pub use map::LockMap;
