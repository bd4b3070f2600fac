// The compression of one block into the hash value: 64 rounds, each over one more word of the schedule.
ghost use Rattle.std.specs.Prelude.{◌≡◌, ℕ, ◌/◌, ◌<◌, ◌≤◌, List, length};
ghost use Rattle.digest.specs.Sha256.{round as round_of, added as added_of, compressed, absorbed};
ghost use Rattle.digest.specs.Progress.{Advances};

use crate::constants::constant;
use crate::schedule::{next_word, word};
use crate::state::State;
use crate::words::{big_sigma0, big_sigma1, ch, maj};

// One round, with its constant k and its word w.
fn round(s: State, k: u32, w: u32) -> State
    ensures { result ≡ round_of s k w }
{
    let t1 = s
        .h
        .wrapping_add(big_sigma1(s.e))
        .wrapping_add(ch(s.e, s.f, s.g))
        .wrapping_add(k)
        .wrapping_add(w);
    let t2 = big_sigma0(s.a).wrapping_add(maj(s.a, s.b, s.c));
    State {
        a: t1.wrapping_add(t2),
        b: s.a,
        c: s.b,
        d: s.c,
        e: s.d.wrapping_add(t1),
        f: s.e,
        g: s.f,
        h: s.g,
    }
}

fn added(v: State, s: State) -> State
    ensures { result ≡ added_of v s }
{
    State {
        a: v.a.wrapping_add(s.a),
        b: v.b.wrapping_add(s.b),
        c: v.c.wrapping_add(s.c),
        d: v.d.wrapping_add(s.d),
        e: v.e.wrapping_add(s.e),
        f: v.f.wrapping_add(s.f),
        g: v.g.wrapping_add(s.g),
        h: v.h.wrapping_add(s.h),
    }
}

// Round t over a word of the block.
fn first_round(s: State, w: &mut [u32; 64], block: &[u8; 64], t: usize) -> State
    requires { t < 16 }
    ensures { Advances block.now 1 t s w.old result w.new }
{
    let x = word(block, t);
    w[t] = x;
    round(s, constant(t), x)
}

// Round t over a word made of earlier ones.
fn later_round(s: State, w: &mut [u32; 64], t: usize) -> State
    requires { (16 ≤ t) × (t < 64) }
    ensures { (block : List ℕ) → Advances block 1 t s w.old result w.new }
{
    let x = next_word(w, t);
    w[t] = x;
    round(s, constant(t), x)
}

// Eight rounds from t on, over words of the block. After eight the working variables stand where they stood, so that the
// compiled code moves none of them. One function for these and the later ones, of a const T, took 393 ms for 60 MiB, not 307.
fn first_rounds(s: State, w: &mut [u32; 64], block: &[u8; 64], t: usize) -> State
    requires { t ≤ 8 }
    ensures { Advances block.now 8 t s w.old result w.new }
{
    let s = first_round(s, w, block, t);
    let s = first_round(s, w, block, t + 1);
    let s = first_round(s, w, block, t + 2);
    let s = first_round(s, w, block, t + 3);
    let s = first_round(s, w, block, t + 4);
    let s = first_round(s, w, block, t + 5);
    let s = first_round(s, w, block, t + 6);
    first_round(s, w, block, t + 7)
}

// Eight rounds from t on over words made of earlier ones.
fn later_rounds(s: State, w: &mut [u32; 64], t: usize) -> State
    requires { (16 ≤ t) × (t ≤ 56) }
    ensures { (block : List ℕ) → Advances block 8 t s w.old result w.new }
{
    let s = later_round(s, w, t);
    let s = later_round(s, w, t + 1);
    let s = later_round(s, w, t + 2);
    let s = later_round(s, w, t + 3);
    let s = later_round(s, w, t + 4);
    let s = later_round(s, w, t + 5);
    let s = later_round(s, w, t + 6);
    later_round(s, w, t + 7)
}

// The hash value after one more block.
pub(crate) fn compress(s: State, block: &[u8; 64]) -> State
    ensures { result ≡ compressed s block.now }
{
    let mut w = [0u32; 64];
    let mut v = first_rounds(s, &mut w, block, 0);
    v = first_rounds(v, &mut w, block, 8);
    // by the number of eight rounds, since these go over places of one table
    for i in 2..8 {
        v = later_rounds(v, &mut w, 8 * i);
    }
    added(v, s)
}

// The hash value after all whole blocks of `bytes`.
pub(crate) fn absorb(mut s: State, bytes: &[u8]) -> State
    ensures { result ≡ absorbed (length bytes.now / 64) s bytes.now }
{
    let (blocks, _) = bytes.as_chunks();
    for block in blocks {
        s = compress(s, block);
    }
    s
}
