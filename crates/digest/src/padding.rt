// What is appended to a message, and the last block or two that it makes.
ghost use Rattle.std.specs.Prelude.{◌≡◌, ◌+◌, ◌/◌, ◌%◌, ◌<◌, ◌≤◌, ◌++◌, length, take, replicate};
ghost use Rattle.digest.specs.Sha256.{zero_bytes, padding, padded, hashed, absorbed, compressed, start};

use crate::compress::absorb;
use crate::state::State;

// How long the last blocks are, after `rest` bytes that fill no block.
fn end_after(rest: usize) -> usize
    requires { rest < 64 }
    ensures { result ≡ rest + 9 + zero_bytes rest }
{
    if rest < 56 { 64 } else { 128 }
}

// Writes the last blocks of a message of `size` bytes, of which `rest` fill no block, and says how long they are.
fn write_end(last: &mut [u8; 128], rest: &[u8], size: usize) -> usize
    requires zeros { last.old ≡ replicate 128 0 }
    requires left { length rest.now ≡ size % 64 }
    ensures within { result ≤ 128 }
    ensures value { take result last.new ≡ rest.now ++ padding size }
{
    let end = end_after(rest.len());
    let bits = (size as u64).wrapping_mul(8);
    last[0..rest.len()].copy_from_slice(rest);
    last[rest.len()] = 0x80;
    last[end - 8..end].copy_from_slice(&bits.to_be_bytes());
    end
}

// The last hash value of a message, from the hash value s after its whole blocks.
pub(crate) fn finish(s: State, message: &[u8]) -> State
    requires { s ≡ absorbed (length message.now / 64) start message.now }
    ensures { result ≡ hashed message.now }
{
    let whole = message.len() / 64;
    let mut last = [0u8; 128];
    let end = write_end(&mut last, &message[64 * whole..], message.len());
    absorb(s, &last[0..end])
}

// A key as the only block of its padded message: 32 bytes, the bit 1, and 256 as the length in bits.
pub(crate) fn key_block(key: &[u8; 32]) -> [u8; 64]
    ensures value { result ≡ padded key.now }
    ensures alone { compressed start result ≡ hashed key.now }
{
    let mut block = [0u8; 64];
    block[0..32].copy_from_slice(key);
    block[32] = 0x80;
    block[62] = 1;
    block
}
