// SHA-256 (FIPS 180-4). Each full block is read where it stands in the caller's slice; only the
// padded tail is built aside.
#![tactic(auto)]

ghost use Rattle.std.specs.Prelude.{◌≡◌, ◌+◌, ◌-◌, ◌*◌, ◌/◌, ◌<◌, ◌≤◌, ◌%◌, ◌++◌, length, replicate};
ghost use Rattle.answer.specs.Answer.{completion};
ghost use Rattle.sha256.specs.Constants.{H0};
ghost use Rattle.compression.specs.Compression.{words, compress};
ghost use Rattle.sha256.specs.Padding.{zeros, padding};
ghost use Rattle.sha256.specs.Hash.{blocks, tail, final, digest, hash_answer, hash_digest};

use answer::Refusal;
use compression::{State, compress};

// The initial hash value (5.3.3).
#[tactic(auto, unfolding(crate::specs::Constants::H0))]
pub fn initial() -> State
    ensures { words result ≡ H0 }
{
    State {
        words: [
            0x6a09_e667,
            0xbb67_ae85,
            0x3c6e_f372,
            0xa54f_f53a,
            0x510e_527f,
            0x9b05_688c,
            0x1f83_d9ab,
            0x5be0_cd19,
        ],
    }
}

// The hash value after the full blocks of a slice, each read where it stands. [02:W5.1]
#[tactic(auto, using(crate::proofs::Laws::block_none))]
fn blocks(s: State, m: &[u8]) -> State
    ensures { words result ≡ blocks (length m.now / 64) (words s) m.now }
{
    let mut v = s;
    for block in m.chunks_exact(64) {
        v = compress(v, block, 0);
    }
    v
}

// Writes the rest of a message of n bytes in all, and its padding (5.1.1), over the zeros of whole blocks.
#[tactic(auto, using(crate::proofs::Laws::pad_is))]
fn pad(to: &mut [u8], rest: &[u8], n: usize)
    requires { (to.old ≡ replicate (length rest.now + (zeros n + 9)) 0) × (n ≤ 131072) }
    ensures { to.new ≡ rest.now ++ padding n }
{
    let r = rest.len();
    let e = to.len();
    let b = e - 8;
    to[..r].copy_from_slice(rest);
    to[r] = 128;
    octets::put(&mut to[b..e], 8 * (n as u64));
}

// The hash value after the rest of a message of n bytes in all, with its padding: one block where it fits,
// else two. [02:W5.2]
#[tactic(auto, using(crate::proofs::Laws::fills_one, crate::proofs::Laws::fills_two, crate::proofs::Laws::tail_one), unfolding(crate::specs::Hash::tail))]
fn tail(s: State, rest: &[u8], n: usize) -> State
    requires { (length rest.now ≡ n % 64) × (n ≤ 131072) }
    ensures { words result ≡ tail (words s) rest.now n }
{
    if rest.len() < 56 {
        let mut last = [0u8; 64];
        pad(&mut last, rest, n);
        return compress(s, &last, 0);
    }
    let mut last = [0u8; 128];
    pad(&mut last, rest, n);
    blocks(s, &last)
}

// The hash value after the last bytes of a message of which n bytes, whole blocks, led to s.
#[tactic(auto, using(crate::proofs::Laws::final_is, crate::proofs::Rules::finish_rules))]
pub fn finish(s: State, n: usize, m: &[u8]) -> State
    requires { (n % 64 ≡ 0) × ((n ≤ 65536) × (length m.now ≤ 65536)) }
    ensures { words result ≡ final (words s) n m.now }
{
    let v = blocks(s, m);
    let at = m.len() / 64 * 64;
    tail(v, &m[at..], n + m.len())
}

// The hash value after a message's first block.
#[tactic(auto, using(compression::proofs::Laws::block_alone))]
pub fn first(block: &[u8]) -> State
    requires { length block.now ≡ 64 }
    ensures { words result ≡ compress H0 block.now }
{
    compress(initial(), block, 0)
}

// Writes the words of a hash value, big-endian.
#[tactic(auto, using(crate::proofs::Laws::digest_length, crate::proofs::Laws::digest_more), unfolding(crate::specs::Hash::digest))]
pub fn digest(s: State, to: &mut [u8])
    requires { length to.old ≡ 32 }
    ensures { to.new ≡ digest (words s) }
{
    for i in 0..8 {
        to[4 * i..4 * i + 4].copy_from_slice(&s.words[i].to_be_bytes());
    }
}

// The hash value after a digest, the last 32 bytes of a message of 96 of which the first 64 led to s: its
// words are written into the padded block itself. [02:W5.2]
#[tactic(auto, using(crate::proofs::Laws::finish_is, crate::proofs::Rules::finish_digest_rules))]
pub fn finish_digest(s: State, d: State) -> State
    ensures { words result ≡ final (words s) 64 (digest (words d)) }
{
    let mut last = [0u8; 64];
    digest(d, &mut last[..32]);
    last[32] = 128;
    last[62] = 3; // 768 bits
    compress(s, &last, 0)
}

// The hash of a message of at most 65,536 bytes; refusal 9 above, with the digest left as lent. [01:KF7]
// [02:W5.4 W5.5]
#[tactic(auto, using(crate::proofs::Rules::hash_rules), unfolding(crate::specs::Hash::hash_answer, crate::specs::Hash::hash_digest, crate::specs::Hash::hash_tests, crate::specs::Hash::hash))]
pub fn hash(message: &[u8], out: &mut [u8; 32]) -> Result<(), Refusal>
    ensures result_value { completion result ≡ hash_answer message.now }
    ensures out_after { out.new ≡ hash_digest message.now out.old }
{
    if 65536 < message.len() {
        return Err(Refusal::TextLength);
    }
    let s = finish(initial(), 0, message);
    digest(s, out);
    Ok(())
}
