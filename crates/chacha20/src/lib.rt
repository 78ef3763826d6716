// ChaCha20 (RFC 8439, 2.4) with first block counter 1: a lent text is XORed with the stream in place.
// The blocks of the stream are chacha20_block's.
#![tactic(auto)]

ghost use Rattle.std.specs.Prelude.{◌≡◌, ◌≤◌, length};
ghost use Rattle.answer.specs.Answer.{completion};
ghost use Rattle.chacha20_block.specs.Rounds.{words};
ghost use Rattle.chacha20_block.specs.Block.{block as block_of};
ghost use Rattle.chacha20.specs.Cipher.{xored, E};
ghost use Rattle.chacha20.specs.Call.{cipher_answer, cipher_text};

use answer::Refusal;
use chacha20_block::{State, block, first_state, next_state};

// A text XORed with bytes of the stream.
#[tactic(auto, using(crate::proofs::Lists::xored_more, crate::proofs::Lists::all_done, crate::proofs::Rules::xor_bytes_rules))]
fn xor_bytes(text: &mut [u8], ks: &[u8])
    requires { length text.old ≤ length ks.now }
    ensures { text.new ≡ xored text.old ks.now }
{
    for (i, byte) in text.iter_mut().enumerate() {
        *byte ^= ks[i];
    }
}

// At most a block of text, XORed with the stream of a state. An id's 16 bytes, the most frequent
// length, have a call of their own, so that the compiler knows it.
fn xor_block(s: State, text: &mut [u8])
    requires { length text.old ≤ 64 }
    ensures { text.new ≡ xored text.old (block_of (words s)) }
{
    let ks = block(s);
    if text.len() == 16 {
        xor_bytes(&mut text[..16], &ks);
    } else {
        xor_bytes(text, &ks);
    }
}

// E of at most 64 bytes under a key and a nonce of checked length: one block.
pub fn apply_short(key: &[u8], nonce: &[u8], text: &mut [u8])
    requires { (length key.now ≡ 32) × (length nonce.now ≡ 12) × (length text.old ≤ 64) }
    ensures { text.new ≡ E key.now nonce.now text.old }
{
    xor_block(first_state(key, nonce), text);
}

// E under a key and a nonce of checked length. [01:KF2 KF3]
#[tactic(auto, using(crate::proofs::Lists::part_length, crate::proofs::Lists::all_done, crate::proofs::Stream::text_turn, crate::proofs::Stream::next_initial, crate::proofs::Stream::next_counter, crate::proofs::Rules::apply_checked_rules), unfolding(chacha20_block::specs::Block::initial_state, crate::specs::Cipher::E))]
pub fn apply_checked(key: &[u8], nonce: &[u8], text: &mut [u8])
    requires { (length key.now ≡ 32) × (length nonce.now ≡ 12) }
    ensures { text.new ≡ E key.now nonce.now text.old }
{
    let mut s = first_state(key, nonce);
    // An index loop: of `chunks_mut` a proof learns no more than how long the text is afterwards.
    let mut at = 0;
    while at < text.len() {
        let e = at + (text.len() - at).min(64);
        xor_block(s, &mut text[at..e]);
        s = next_state(s);
        at = e;
    }
}

// E: refused by 1, 4 and 9, and the text is then as it was lent. [01:KF3 KF7]
#[tactic(auto, using(crate::proofs::Rules::apply_rules), unfolding(crate::specs::Call::cipher_tests, crate::specs::Call::cipher_answer, crate::specs::Call::cipher_text))]
pub fn apply(key: &[u8], nonce: &[u8], text: &mut [u8]) -> Result<(), Refusal>
    ensures result_value { completion result ≡ cipher_answer key.now nonce.now text.old }
    ensures text_after { text.new ≡ cipher_text key.now nonce.now text.old }
{
    if key.len() != 32 {
        return Err(Refusal::KeyLength);
    }
    if nonce.len() != 12 {
        return Err(Refusal::NonceLength);
    }
    if text.len() > 65536 {
        return Err(Refusal::TextLength);
    }
    apply_checked(key, nonce, text);
    Ok(())
}
