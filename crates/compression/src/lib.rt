// The compression of one block (FIPS 180-4, 6.2.2).
#![tactic(auto)]

ghost use Rattle.std.specs.Prelude.{◌≡◌, ◌+◌, ◌<◌, ◌≤◌, slice_index};
ghost use Rattle.compression.specs.Constants.{K as constants};
ghost use Rattle.compression.specs.Compression.{words, step, added, compress_at};
ghost use Rattle.compression.specs.Groups.{turns, groups};

mod functions;
mod schedule;

use functions::{big_sigma0, big_sigma1, ch, maj};
use schedule::{due, load};

// The round constants (4.2.2): one table, of which a compression reads a copy of its own. [01:KF5 FM4]
const K: [u32; 64] = [
    0x428a_2f98,
    0x7137_4491,
    0xb5c0_fbcf,
    0xe9b5_dba5,
    0x3956_c25b,
    0x59f1_11f1,
    0x923f_82a4,
    0xab1c_5ed5,
    0xd807_aa98,
    0x1283_5b01,
    0x2431_85be,
    0x550c_7dc3,
    0x72be_5d74,
    0x80de_b1fe,
    0x9bdc_06a7,
    0xc19b_f174,
    0xe49b_69c1,
    0xefbe_4786,
    0x0fc1_9dc6,
    0x240c_a1cc,
    0x2de9_2c6f,
    0x4a74_84aa,
    0x5cb0_a9dc,
    0x76f9_88da,
    0x983e_5152,
    0xa831_c66d,
    0xb003_27c8,
    0xbf59_7fc7,
    0xc6e0_0bf3,
    0xd5a7_9147,
    0x06ca_6351,
    0x1429_2967,
    0x27b7_0a85,
    0x2e1b_2138,
    0x4d2c_6dfc,
    0x5338_0d13,
    0x650a_7354,
    0x766a_0abb,
    0x81c2_c92e,
    0x9272_2c85,
    0xa2bf_e8a1,
    0xa81a_664b,
    0xc24b_8b70,
    0xc76c_51a3,
    0xd192_e819,
    0xd699_0624,
    0xf40e_3585,
    0x106a_a070,
    0x19a4_c116,
    0x1e37_6c08,
    0x2748_774c,
    0x34b0_bcb5,
    0x391c_0cb3,
    0x4ed8_aa4a,
    0x5b9c_ca4f,
    0x682e_6ff3,
    0x748f_82ee,
    0x78a5_636f,
    0x84c8_7814,
    0x8cc7_0208,
    0x90be_fffa,
    0xa450_6ceb,
    0xbef9_a3f7,
    0xc671_78f2,
];

// A hash value: its eight words, a to h in a compression, H0 to H7 between blocks.
#[derive(Clone, Copy)]
pub struct State {
    pub words: [u32; 8],
}

// One turn of step 3. [01:KF4 FM5]
#[tactic(auto, using(crate::proofs::Laws::sum), unfolding(crate::specs::Compression::step, crate::specs::Compression::T1, crate::specs::Compression::T2))]
fn step(s: State, k: u32, w: u32) -> State
    ensures { words result ≡ step k w (words s) }
{
    let [a, b, c, d, e, f, g, h] = s.words;
    let t1 = h
        .wrapping_add(big_sigma1(e))
        .wrapping_add(ch(e, f, g))
        .wrapping_add(k)
        .wrapping_add(w);
    let t2 = big_sigma0(a).wrapping_add(maj(a, b, c));
    State {
        words: [t1.wrapping_add(t2), a, b, c, d.wrapping_add(t1), e, f, g],
    }
}

// Sixteen turns from turn t on, written out and called at one place, so that the compiler inlines them and
// the places of the words are constants: loops over them were a third slower.
#[tactic(auto, using(crate::proofs::Laws::turns_written))]
fn turns(s: State, k: &[u32; 64], t: usize, w: [u32; 16]) -> State
    requires { t + 16 ≤ 64 }
    ensures { words result ≡ turns t k.now w (words s) }
{
    let s = step(s, k[t], w[0]);
    let s = step(s, k[t + 1], w[1]);
    let s = step(s, k[t + 2], w[2]);
    let s = step(s, k[t + 3], w[3]);
    let s = step(s, k[t + 4], w[4]);
    let s = step(s, k[t + 5], w[5]);
    let s = step(s, k[t + 6], w[6]);
    let s = step(s, k[t + 7], w[7]);
    let s = step(s, k[t + 8], w[8]);
    let s = step(s, k[t + 9], w[9]);
    let s = step(s, k[t + 10], w[10]);
    let s = step(s, k[t + 11], w[11]);
    let s = step(s, k[t + 12], w[12]);
    let s = step(s, k[t + 13], w[13]);
    let s = step(s, k[t + 14], w[14]);
    step(s, k[t + 15], w[15])
}

// The 64 turns of step 3, sixteen at a time, of a block's words.
#[tactic(auto, unfolding(crate::specs::Groups::due, crate::specs::Constants::K))]
fn rounds(s: State, first: [u32; 16]) -> State
    ensures { words result ≡ groups 4 0 constants first (words s) }
{
    let k = K;
    let mut w = first;
    let mut v = s;
    for i in 0..4 {
        let t = 16 * i;
        let here = due(w, t);
        v = turns(v, &k, t, here);
        w = here;
    }
    v
}

// Step 4: the words added one by one.
#[tactic(auto, unfolding(crate::specs::Compression::added))]
fn added(s: State, v: State) -> State
    ensures { words result ≡ added (words s) (words v) }
{
    State {
        words: std::array::from_fn(|i| s.words[i].wrapping_add(v.words[i])),
    }
}

// The hash value after the block of 64 bytes at a place of a slice, read where it stands. Where no 64 bytes
// stand there the hash value stays. [02:W5.1 W5.3]
#[tactic(auto, using(crate::proofs::Laws::block_groups, crate::proofs::Laws::no_block))]
pub fn compress(s: State, m: &[u8], at: usize) -> State
    ensures { words result ≡ compress_at (words s) m.now at }
{
    if m.len() < 64 || m.len() - 64 < at {
        return s;
    }
    added(s, rounds(s, load(m, at)))
}
