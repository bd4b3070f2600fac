// SHA-256. `digest` and `lock` return what specs/Sha256.antt defines, FIPS 180-4 line by line, for every message;
// neither allocates. Leans on the standard library only.
#![tactic(auto)]

ghost use Rattle.std.specs.Prelude.{◌≡◌};
ghost use Rattle.digest.specs.Sha256.{sha256};
ghost use Rattle.digest.specs.Vectors.{DigestOfAbc, DigestOfEmpty, DigestOfTwoBlocks, PaddingLeast};

mod compress;
mod constants;
mod padding;
mod schedule;
mod state;
mod words;

use compress::{absorb, compress};
use padding::{finish, key_block};
use state::State;

// The digest of a message of any length.
pub fn digest(message: &[u8]) -> [u8; 32]
    ensures { result ≡ sha256 message.now }
{
    let whole = absorb(State::INITIAL, message);
    finish(whole, message).to_bytes()
}

// The digest of a key of 32 bytes, which makes one block.
pub fn lock(key: &[u8; 32]) -> [u8; 32]
    ensures { result ≡ sha256 key.now }
{
    let block = key_block(key);
    compress(State::INITIAL, &block).to_bytes()
}

// Of the definition alone: it gives the published digests.
pub fn vectors_stand()
    ensures abc { DigestOfAbc }
    ensures empty { DigestOfEmpty }
    ensures two_blocks { DigestOfTwoBlocks }
{}

// Of the definition alone: it appends the least number of zero bits that the standard's equation allows.
pub fn padding_stands()
    ensures { PaddingLeast }
{}
