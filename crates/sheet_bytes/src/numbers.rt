// Bytes and numbers of four bytes, high byte first.
ghost use Rattle.std.specs.Prelude.{◌≡◌, ◌+◌, ◌-◌, ◌≤◌, length, drop, nat_le};
ghost use Rattle.sheet_bytes.specs.Appends.{Appended, Room, Put};
ghost use Rattle.sheet_bytes.specs.Bytes.{number_bytes, number_of, number_read};

use std::alloc::AllocError;

// Appends bytes for which there is room.
pub(crate) fn put_bytes(out: &mut Vec<u8>, bytes: &[u8])
    requires { Room out.old (length bytes.now) }
    ensures { Put out.old out.new bytes.now (length bytes.now) }
{
    // with that room it can't fail
    let _ = out.extend_from_slice(bytes);
}

// Appends the bytes of a number, for which there is room.
pub(crate) fn put_number(out: &mut Vec<u8>, n: u32)
    requires { Room out.old 4 }
    ensures { Put out.old out.new (number_bytes n) 4 }
{
    put_bytes(out, &n.to_be_bytes());
}

// Appends the bytes of a number.
pub fn push_number(out: &mut Vec<u8>, n: u32) -> Result<(), AllocError>
    ensures { Appended result out.old.items (number_bytes n) out.new.items }
{
    out.reserve(4)?;
    put_number(out, n);
    Ok(())
}

// The bytes from a place on: none where the place is past the end.
pub(crate) fn rest_from(bytes: &[u8], at: usize) -> &[u8]
    ensures value { result.now ≡ drop at bytes.now }
    ensures len { length result.now ≡ length bytes.now - at }
{
    bytes.get(at..).unwrap_or_default()
}

// Are there so many bytes from a place on.
pub(crate) fn holds(bytes: &[u8], at: usize, size: usize) -> bool
    ensures { result ≡ nat_le (at + size) (length bytes.now) }
{
    bytes.len() >= size && bytes.len() - size >= at
}

// The number at a place where its four bytes are known to be.
pub(crate) fn number_at(bytes: &[u8], at: usize) -> u32
    requires { at + 4 ≤ length bytes.now }
    ensures { result ≡ number_of (drop at bytes.now) }
{
    u32::from_be_bytes([bytes[at], bytes[at + 1], bytes[at + 2], bytes[at + 3]])
}

// The number at a place; None where its four bytes aren't there.
pub fn read_number(bytes: &[u8], at: usize) -> Option<u32>
    ensures { result ≡ number_read bytes.now at }
{
    if !holds(bytes, at, 4) {
        return None;
    }
    Some(number_at(bytes, at))
}
