// HMAC over SHA-256 (RFC 2104): the keyed function F of document 01. A key that serves many
// messages is prepared once; each message then costs no compression for the key's two blocks.
#![tactic(auto)]

ghost use Rattle.std.specs.Prelude.{◌≡◌, map, ℕ, ◌≤◌, length, replicate};
ghost use Rattle.std.specs.Int.Bits.{bit_xor};
ghost use Rattle.answer.specs.Answer.{completion};
ghost use Rattle.sha256.specs.Constants.{H0};
ghost use Rattle.compression.specs.Compression.{words, compress};
ghost use Rattle.hmac.specs.Hmac.{block, inner_hash, outer_hash, tag, mac_answer, mac_tag};

use answer::Refusal;
use compression::State;

// A prepared key: the hash values after the two key blocks.
#[derive(Clone, Copy)]
pub struct Keyed {
    pub inner: State,
    pub outer: State,
}

// Writes the key's block over 64 zeros: the key, or its hash where it is longer than a block.
#[tactic(auto, using(crate::proofs::Laws::block_is, crate::proofs::Laws::used_short, crate::proofs::Laws::used_long, crate::proofs::Rules::block_rules), unfolding(sha256::specs::Hash::hash))]
fn block(key: &[u8], to: &mut [u8])
    requires { (length key.now ≤ 65536) × (to.old ≡ replicate 64 0) }
    ensures { to.new ≡ block key.now }
{
    let n = key.len();
    if n <= 64 {
        to[..n].copy_from_slice(key);
    } else {
        sha256::digest(sha256::finish(sha256::initial(), 0, key), &mut to[..32]);
    }
}

// The hash value after the key's block XORed with a pad byte. [02:W5.2]
fn padded(mut b: [u8; 64], x: u8) -> State
    ensures { words result ≡ compress H0 (map (λ (y : ℕ). bit_xor y x) b) }
{
    for y in b.iter_mut() {
        *y ^= x;
    }
    sha256::first(&b)
}

// The two hash values of a key.
#[tactic(auto, unfolding(crate::specs::Hmac::inner_hash, crate::specs::Hmac::outer_hash, crate::specs::Hmac::pad))]
pub fn prepare(key: &[u8]) -> Keyed
    requires { length key.now ≤ 65536 }
    ensures { (words result.inner ≡ inner_hash key.now) × (words result.outer ≡ outer_hash key.now) }
{
    let mut b = [0u8; 64];
    block(key, &mut b);
    let inner = padded(b, 0x36);
    let outer = padded(b, 0x5c);
    Keyed { inner, outer }
}

// The tag of a message under a prepared key.
#[tactic(auto, unfolding(crate::specs::Hmac::tag))]
pub fn tag(k: Keyed, m: &[u8], to: &mut [u8])
    requires { (length m.now ≤ 65536) × (length to.old ≡ 32) }
    ensures { to.new ≡ tag (words k.inner) (words k.outer) m.now }
{
    let inner = sha256::finish(k.inner, 64, m);
    let outer = sha256::finish_digest(k.outer, inner);
    sha256::digest(outer, to);
}

// The tag of a message under a prepared key, in an array of its own.
pub fn tagged(k: Keyed, m: &[u8]) -> [u8; 32]
    requires { length m.now ≤ 65536 }
    ensures { result ≡ tag (words k.inner) (words k.outer) m.now }
{
    let mut to = [0u8; 32];
    tag(k, m, &mut to);
    to
}

// F(key, message), for a key and a message of at most 65,536 bytes each; refusal 9 above, with the
// tag left as lent. [01:KF7]
#[tactic(auto, using(crate::proofs::Laws::from_prepared, crate::proofs::Rules::mac_rules), unfolding(crate::specs::Hmac::mac_answer, crate::specs::Hmac::mac_tag, crate::specs::Hmac::mac_tests))]
pub fn mac(key: &[u8], message: &[u8], out: &mut [u8; 32]) -> Result<(), Refusal>
    ensures result_value { completion result ≡ mac_answer key.now message.now }
    ensures out_after { out.new ≡ mac_tag key.now message.now out.old }
{
    if 65536 < key.len() {
        return Err(Refusal::TextLength);
    }
    if 65536 < message.len() {
        return Err(Refusal::TextLength);
    }
    let k = prepare(key);
    tag(k, message, out);
    Ok(())
}
