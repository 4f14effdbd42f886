// SHA-256 of one block: FIPS 180-4, section 6.2.2, on sixteen message words and eight chaining words by value.
//
// Contracts cite specs/, in the standard's names and order. The sums of the rounds and of the schedule wrap on purpose: each means
// the remainder modulo 2^32. Words and rounds go in groups of eight, loops short enough for the compiler to lay them out straight:
// after eight rounds each working variable stands at its own place again and none has to be moved, and the words stay in registers.
// A single loop over the words and one over the rounds take some 1,050 instructions a block more, and miss the bar.

#![tactic(auto)]

mod constants;
mod functions;

ghost use Rattle.std.specs.Prelude.{◌≡◌, ◌<◌, ◌≤◌, ◌++◌, drop, slice_index};
ghost use Rattle.sha256.specs.Constants.{K, H⁰};
ghost use Rattle.sha256.specs.Block.{with_next, extended, round, rounds, sums, block};

use constants::H0;
use functions::{big_sigma0, big_sigma1, ch, maj, small_sigma0, small_sigma1};
use std::array;

// The initial hash value.
pub fn initial() -> [u32; 8]
    ensures { result ≡ H⁰ }
{
    H0
}

// Step 1, the words of the block, at the front of the schedule. Not by `copy_from_slice`, with which the compiler keeps the working
// variables in memory: 116 instructions a block more.
fn first_words(m: [u32; 16], w: &mut [u32; 64])
    ensures { w.new ≡ m ++ drop 16 w.old }
{
    for t in 0..16 {
        w[t] = m[t];
    }
}

// Step 1, word t of the schedule, of the words before it.
#[tactic(auto, unfolding(crate::specs::Block::with_next))]
fn next_word(w: &mut [u32; 64], t: usize)
    requires { (16 ≤ t) × (t < 64) }
    ensures { w.new ≡ with_next w.old t }
{
    w[t] = small_sigma1(w[t - 2])
        .wrapping_add(w[t - 7])
        .wrapping_add(small_sigma0(w[t - 15]))
        .wrapping_add(w[t - 16]);
}

// Step 1, the eight words from word t on.
#[tactic(auto, unfolding(crate::specs::Block::extended))]
fn eight_words(w: &mut [u32; 64], t: usize)
    requires { (16 ≤ t) × (t ≤ 56) }
    ensures { w.new ≡ extended w.old t 8 }
{
    for i in 0..8 {
        next_word(w, t + i);
    }
}

// Step 3, round t on the working variables v = a, b, .., h.
#[tactic(auto, unfolding(crate::specs::Constants::K, crate::specs::Block::round))]
fn round(v: &mut [u32; 8], w: &[u32; 64], t: usize)
    requires { t < 64 }
    ensures { v.new ≡ round (slice_index K t) (slice_index w.now t) v.old }
{
    let [a, b, c, d, e, f, g, h] = *v;
    let t1 = h
        .wrapping_add(big_sigma1(e))
        .wrapping_add(ch(e, f, g))
        .wrapping_add(constants::K[t])
        .wrapping_add(w[t]);
    let t2 = big_sigma0(a).wrapping_add(maj(a, b, c));
    *v = [t1.wrapping_add(t2), a, b, c, d.wrapping_add(t1), e, f, g];
}

// Step 3, the eight rounds from round t on.
#[tactic(auto, unfolding(crate::specs::Block::rounds))]
fn eight_rounds(v: &mut [u32; 8], w: &[u32; 64], t: usize)
    requires { t ≤ 56 }
    ensures { v.new ≡ rounds w.now t 8 v.old }
{
    for i in 0..8 {
        round(v, w, t + i);
    }
}

// Step 3, the 64 rounds.
#[tactic(auto, unfolding(crate::specs::Block::rounds), using(crate::proofs::Groups::rounds_on))]
fn all_rounds(h: [u32; 8], w: &[u32; 64]) -> [u32; 8]
    ensures { result ≡ rounds w.now 0 64 h }
{
    let mut v = h;
    for t in (0..64).step_by(8) {
        eight_rounds(&mut v, w, t);
    }
    v
}

// Step 4, the working variables added to the hash value before the block.
#[tactic(auto, unfolding(crate::specs::Block::sums))]
fn sums(v: [u32; 8], h: [u32; 8]) -> [u32; 8]
    ensures { result ≡ sums v h }
{
    array::from_fn(|i| v[i].wrapping_add(h[i]))
}

// The chaining words after the block m, from the chaining words h before it. The schedule is an array of the block's own.
#[tactic(auto, unfolding(crate::specs::Block::extended, crate::specs::Block::schedule, crate::specs::Block::block))]
pub fn block(h: [u32; 8], m: [u32; 16]) -> [u32; 8]
    ensures { result ≡ block h m }
{
    let mut w = [0u32; 64];
    first_words(m, &mut w);
    for t in (16..64).step_by(8) {
        eight_words(&mut w, t);
    }
    sums(all_rounds(h, &w), h)
}
