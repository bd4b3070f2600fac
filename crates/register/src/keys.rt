// The keys that were shown for an account: is one among them, and one more.
ghost use Rattle.std.specs.Prelude.{◌≡◌, [], ◌∷◌, ◌++◌, is_ok, if◌then◌else◌};
ghost use Rattle.register.specs.Pages.{key_at_of, keys_of, Known};

use crate::types::KeyAt;
use std::alloc::AllocError;

// Was the key shown before.
pub(crate) fn is_known(keys: &[KeyAt], key: &[u8; 32]) -> bool
    ensures { Known result key.now (keys_of keys.now) }
{
    keys.iter().any(|k| k.key == *key)
}

// One key more, which is the last. Nothing changes where memory runs out.
pub(crate) fn add(keys: &mut Vec<KeyAt>, key: KeyAt) -> Result<(), AllocError>
    ensures { keys_of keys.new.items ≡ (if is_ok result then keys_of keys.old.items ++ key_at_of key ∷ [] else keys_of keys.old.items) }
{
    keys.push(key)?;
    Ok(())
}
