// The bytes of tokens, tags and rows (document 01, "Keys and tokens" and "Store"): their lengths, F of a
// number, the tags under a prepared key, and the keys of a CL. The rows themselves are in row.
#![tactic(auto)]

ghost use Rattle.std.specs.Prelude.{◌≡◌, ◌∷◌, length};
ghost use Rattle.scheme.specs.Suite.{number8};
ghost use Rattle.format.specs.Tags.{numbered_by, entry_tag_by, counter_tag_by, anchor_tag_by, r_mark_by, KeysOf};

pub mod row;

use hmac::Keyed;

// The length of the master key. [01:KT1]
pub const KEY: usize = 32;

// The length of a nonce. [01:KF2]
pub const NONCE: usize = 12;

// The length of an id. [01:ST7]
pub const ID: usize = 16;

// The length of an insert token. [01:KT7] [02:W4.9]
pub const INSERT_TOKEN: usize = 173;

// Where RL stands in an insert token. [02:W4.9]
pub const INSERT_RL: usize = 141;

// The length of a find token. [01:KT8]
pub const FIND_TOKEN: usize = 96;

// The length of a count token. [01:KT9]
pub const COUNT_TOKEN: usize = 32;

// The length of a compaction token. [01:KT10]
pub const COMPACTION_TOKEN: usize = 32;

// The length of a label's RL, which is what a test takes. [02:W4.16]
pub const MARK_TOKEN: usize = 32;

// The length of a part of a joint find. [02:W4.18]
pub const PART_TOKEN: usize = 128;

// Entry address: the number in the tag of an M row. [01:ST17 FM10]
#[derive(Clone, Copy)]
pub struct Address(pub u64);

// Counter position: the number in the tag of a counter row, and Start in an anchor. [01:ST17 FM10]
#[derive(Clone, Copy)]
pub struct Position(pub u64);

// Anchor number: the number in the tag of an anchor row, up to B. [01:ST17 FM10]
#[derive(Clone, Copy)]
pub struct AnchorNumber(pub u64);

// F of a number, with a prepared key: keys of keys, shares and tags. [01:KF6 KT2 KT5 KT6]
#[tactic(auto, unfolding(crate::specs::Tags::numbered_by, scheme::specs::Suite::number8))]
pub fn numbered(k: Keyed, n: u64) -> [u8; 32]
    ensures { result ≡ numbered_by k n }
{
    let mut m = [0u8; 8];
    octets::put(&mut m, n);
    hmac::tagged(k, &m)
}

// A byte, then a number of 8 bytes.
#[tactic(auto, using(crate::proofs::Rules::message_rules), unfolding(scheme::specs::Suite::number8))]
fn message(byte: u8, n: u64) -> [u8; 9]
    ensures { result ≡ byte ∷ number8 n }
{
    let mut m = [byte; 9];
    octets::put(&mut m[1..9], n);
    m
}

// The tag of the M row at an address, with the prepared MT. [01:ST6]
#[tactic(auto, unfolding(crate::specs::Tags::entry_tag_by))]
pub fn entry_tag(mt: Keyed, a: Address) -> [u8; 32]
    ensures { result ≡ entry_tag_by mt a }
{
    numbered(mt, a.0)
}

// The tag of the counter row at a position, with the prepared CT. [01:ST10]
#[tactic(auto, unfolding(crate::specs::Tags::counter_tag_by))]
pub fn counter_tag(ct: Keyed, a: Position) -> [u8; 32]
    ensures { result ≡ counter_tag_by ct a }
{
    let m = message(1, a.0);
    hmac::tagged(ct, &m)
}

// The tag of the anchor row of a number, with the prepared CT. [01:ST11]
#[tactic(auto, unfolding(crate::specs::Tags::anchor_tag_by))]
pub fn anchor_tag(ct: Keyed, b: AnchorNumber) -> [u8; 32]
    ensures { result ≡ anchor_tag_by ct b }
{
    let m = message(2, b.0);
    hmac::tagged(ct, &m)
}

// The R mark of an id under a nonce, with the prepared RL: F(RL, n then id). [02:W4.3]
pub fn r_mark(rl: Keyed, nonce: &[u8], id: &[u8]) -> [u8; 32]
    requires { (length nonce.now ≡ 12) × (length id.now ≡ 16) }
    ensures { result ≡ r_mark_by rl nonce.now id.now }
{
    let mut m = [0u8; 28];
    octets::copy_at(&mut m, 0, nonce);
    octets::copy_at(&mut m, 12, id);
    hmac::tagged(rl, &m)
}

// The keys of one CL: CT prepared, and CE. [01:KT6]
#[derive(Clone, Copy)]
pub struct Keys {
    pub ct: Keyed,
    pub ce: [u8; 32],
}

// CT = F(CL, 1), prepared, and CE = F(CL, 2); CL itself is prepared once.
#[tactic(auto, using(crate::proofs::Rules::keys_of_rules), unfolding(scheme::specs::Keys::CT, scheme::specs::Keys::CE, suite::specs::Program::program))]
pub fn keys_of(cl: &[u8; 32]) -> Keys
    ensures { KeysOf result cl.now }
{
    let k = hmac::prepare(cl);
    let t = numbered(k, 1);
    let ct = hmac::prepare(&t);
    let ce = numbered(k, 2);
    Keys { ct, ce }
}
