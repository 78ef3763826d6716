// The ChaCha20 block function (RFC 8439, 2.1 to 2.3): the state of a key, a counter and a nonce, and the
// 64 bytes of stream that a state gives. The definitions of specs/ follow the RFC's sections; a state
// there is the list of the struct's words.
#![tactic(auto)]

ghost use Rattle.std.specs.Prelude.{◌≡◌, ◌+◌, ◌<◌, ◌≤◌, length, slice_index, slice_set};
ghost use Rattle.chacha20_block.specs.Words.{◌⊞◌};
ghost use Rattle.chacha20_block.specs.Quarter.{quarter_round};
ghost use Rattle.chacha20_block.specs.Rounds.{words, columns, diagonals, double_rounds};
ghost use Rattle.chacha20_block.specs.Block.{word_at, initial_state, sums, serialized, block as block_of};

// The state: its 16 words, of which word 12 is the counter.
#[derive(Clone, Copy)]
pub struct State {
    pub words: [u32; 16],
}

// 2.1. The sums drop the carry. [01:KF4 FM5]
fn quarter(a: u32, b: u32, c: u32, d: u32) -> [u32; 4]
    ensures { result ≡ quarter_round a b c d }
{
    let a1 = a.wrapping_add(b);
    let d1 = (d ^ a1).rotate_left(16);
    let c1 = c.wrapping_add(d1);
    let b1 = (b ^ c1).rotate_left(12);
    let a2 = a1.wrapping_add(b1);
    let d2 = (d1 ^ a2).rotate_left(8);
    let c2 = c1.wrapping_add(d2);
    let b2 = (b1 ^ c2).rotate_left(7);
    [a2, b2, c2, d2]
}

// 2.3: a column round of each column, then a diagonal round of each diagonal.
#[tactic(auto, using(crate::proofs::Lists::double_round_is))]
fn double_round(s: State) -> State
    ensures { words result ≡ diagonals (columns (words s)) }
{
    let w = s.words;
    let c0 = quarter(w[0], w[4], w[8], w[12]);
    let c1 = quarter(w[1], w[5], w[9], w[13]);
    let c2 = quarter(w[2], w[6], w[10], w[14]);
    let c3 = quarter(w[3], w[7], w[11], w[15]);
    let d0 = quarter(c0[0], c1[1], c2[2], c3[3]);
    let d1 = quarter(c1[0], c2[1], c3[2], c0[3]);
    let d2 = quarter(c2[0], c3[1], c0[2], c1[3]);
    let d3 = quarter(c3[0], c0[1], c1[2], c2[3]);
    State {
        words: [
            d0[0], d1[0], d2[0], d3[0], //
            d3[1], d0[1], d1[1], d2[1], //
            d2[2], d3[2], d0[2], d1[2], //
            d1[3], d2[3], d3[3], d0[3], //
        ],
    }
}

#[tactic(auto, using(crate::proofs::Lists::round_more, crate::proofs::Lists::rounds_done))]
fn rounds(start: State) -> State
    ensures { words result ≡ double_rounds 10 (words start) }
{
    let mut s = start;
    for _ in 0..10u32 {
        s = double_round(s);
    }
    s
}

fn added(s: State, t: State) -> State
    ensures { words result ≡ sums (words s) (words t) }
{
    State {
        words: std::array::from_fn(|i| s.words[i].wrapping_add(t.words[i])),
    }
}

fn serialize(s: State) -> [u8; 64]
    ensures { result ≡ serialized (words s) }
{
    let mut out = [0; 64];
    for i in 0..16 {
        out[4 * i..4 * i + 4].copy_from_slice(&s.words[i].to_le_bytes());
    }
    out
}

// 2.3: the 64 bytes of stream of a state.
pub fn block(s: State) -> [u8; 64]
    ensures { result ≡ block_of (words s) }
{
    serialize(added(rounds(s), s))
}

// The word at a place, little-endian.
#[tactic(auto, unfolding(crate::specs::Block::word_at))]
fn word(s: &[u8], at: usize) -> u32
    requires { at + 4 ≤ length s.now }
    ensures { result ≡ word_at s.now at }
{
    u32::from_le_bytes([s[at], s[at + 1], s[at + 2], s[at + 3]])
}

// The state of the first block, whose counter is 1. [01:KF2]
#[tactic(auto, unfolding(crate::specs::Block::initial_state))]
pub fn first_state(key: &[u8], nonce: &[u8]) -> State
    requires { (length key.now ≡ 32) × (length nonce.now ≡ 12) }
    ensures { words result ≡ initial_state key.now 1 nonce.now }
{
    State {
        words: [
            0x6170_7865,
            0x3320_646e,
            0x7962_2d32,
            0x6b20_6574,
            word(key, 0),
            word(key, 4),
            word(key, 8),
            word(key, 12),
            word(key, 16),
            word(key, 20),
            word(key, 24),
            word(key, 28),
            1, // the counter
            word(nonce, 0),
            word(nonce, 4),
            word(nonce, 8),
        ],
    }
}

// The state of the next block: the counter is one more, without the carry.
pub fn next_state(s: State) -> State
    ensures { words result ≡ slice_set (words s) 12 (slice_index (words s) 12 ⊞ 1) }
{
    let mut t = s;
    t.words[12] = s.words[12].wrapping_add(1);
    t
}
