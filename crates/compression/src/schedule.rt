// A block's words and the message schedule (FIPS 180-4, 5.2.1 and 6.2.2 step 1), sixteen words at a time.
ghost use Rattle.std.specs.Prelude.{◌≡◌, ◌+◌, ◌≤◌, length, take, drop};
ghost use Rattle.compression.specs.Words.{◌⊞◌, σ0, σ1};
ghost use Rattle.compression.specs.Schedule.{word, first_words};
ghost use Rattle.compression.specs.Groups.{slides, due};

use crate::functions::{small_sigma0, small_sigma1};

// The word at a place, big-endian.
#[tactic(auto, using(crate::proofs::Laws::word_here))]
fn word(m: &[u8], at: usize) -> u32
    requires { at + 4 ≤ length m.now }
    ensures { result ≡ word (drop at m.now) 0 }
{
    u32::from_be_bytes([m[at], m[at + 1], m[at + 2], m[at + 3]])
}

// The sixteen words of the block at a place, read where it stands. [02:W5.1]
pub fn load(m: &[u8], at: usize) -> [u32; 16]
    requires { at + 64 ≤ length m.now }
    ensures { result ≡ first_words 16 (take 64 (drop at m.now)) }
{
    std::array::from_fn(|i| word(m, at + 4 * i))
}

// The word that follows sixteen, of those at 0, 1, 9 and 14. [01:KF4 FM5]
fn next(a: u32, b: u32, c: u32, d: u32) -> u32
    ensures { result ≡ σ1 d ⊞ c ⊞ σ0 b ⊞ a }
{
    small_sigma1(d)
        .wrapping_add(c)
        .wrapping_add(small_sigma0(b))
        .wrapping_add(a)
}

// Sixteen words without the first four of them, and the four that follow.
#[tactic(auto, using(crate::proofs::Laws::four_more))]
fn four_on(w: [u32; 16]) -> [u32; 16]
    ensures { result ≡ slides 4 w }
{
    let a = next(w[0], w[1], w[9], w[14]);
    let b = next(w[1], w[2], w[10], w[15]);
    let c = next(w[2], w[3], w[11], a);
    let d = next(w[3], w[4], w[12], b);
    [
        w[4], w[5], w[6], w[7], w[8], w[9], w[10], w[11], w[12], w[13], w[14], w[15], a, b, c, d,
    ]
}

// The sixteen words that follow sixteen.
fn onward(w: [u32; 16]) -> [u32; 16]
    ensures { result ≡ slides 16 w }
{
    four_on(four_on(four_on(four_on(w))))
}

// The words of the group at turn t, of those of the group before it.
#[tactic(auto, using(crate::proofs::Laws::due_first, crate::proofs::Laws::due_later))]
pub fn due(w: [u32; 16], t: usize) -> [u32; 16]
    ensures { result ≡ due t w }
{
    if t == 0 { w } else { onward(w) }
}
