// Keys as small numbers, for scripts and tests.
// Promises: key N is the 32 bytes that end with N, and its lock their SHA-256 (specs/Keys.antt). Leans on digest.
#![tactic(auto)]

ghost use Rattle.std.specs.Prelude.{◌≡◌};
ghost use Rattle.small_keys.specs.Keys.{key_bytes, lock_bytes};

use digest::lock;

// The key with a number.
pub fn key_of(number: u32) -> [u8; 32]
    ensures { result ≡ key_bytes number }
{
    let mut key = [0; 32];
    key[28..32].copy_from_slice(&number.to_be_bytes());
    key
}

pub fn lock_of(number: u32) -> [u8; 32]
    ensures { result ≡ lock_bytes number }
{
    lock(&key_of(number))
}
