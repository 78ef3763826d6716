// The bytes of tokens (document 01, "Keys and tokens"), for a key, a field, a share and a nonce of valid
// lengths: what the client's makings write where nothing refuses them.
#![tactic(auto)]

ghost use Rattle.std.specs.Prelude.{◌≡◌, List, ◌++◌, ℕ, ◌≤◌, ◌+◌, length};
ghost use Rattle.hmac.specs.Hmac.{F};
ghost use Rattle.scheme.specs.Suite.{number8};
ghost use Rattle.scheme.specs.Labels.{label};
ghost use Rattle.scheme.specs.Keys.{RL, find_token, part_token};
ghost use Rattle.suite.specs.Program.{program};
ghost use Rattle.format.specs.Tags.{Prepared};
ghost use Rattle.labels.specs.Field.{field_of};
ghost use Rattle.tokens.specs.Parts.{Parts, token};

use format::{FIND_TOKEN, INSERT_RL, INSERT_TOKEN, MARK_TOKEN, PART_TOKEN};
use hmac::Keyed;
use keys::FieldKeys;

// Writes three pieces one after the other.
fn three(to: &mut [u8], a: &[u8], b: &[u8], c: &[u8])
    requires { length to.old ≡ length a.now + (length b.now + length c.now) }
    ensures { to.new ≡ a.now ++ (b.now ++ c.now) }
{
    let n = a.len();
    let m = n + b.len();
    octets::copy_at(to, 0, a);
    octets::copy_at(to, n, b);
    octets::copy_at(to, m, c);
}

// A find token's parts for a valid field, with the prepared master key. [01:KT2 KT8]
#[tactic(auto, using(crate::proofs::Rules::parts_rules), unfolding(scheme::specs::Keys::field_mt, scheme::specs::Keys::field_me, scheme::specs::Keys::field_cl, suite::specs::Program::program))]
pub fn parts(k: Keyed, name: &[u8], value: &[u8]) -> FieldKeys
    requires { (length name.now ≤ 255) × (length value.now ≤ 1024) }
    ensures { (key : List ℕ) → Prepared k key → Parts key (field_of name.now value.now) result }
{
    let mut x = [0u8; 1281];
    let n = labels::label(name, value, &mut x);
    keys::field_keys(k, &x[..n])
}

// Writes a find token for a valid key and field.
#[tactic(auto, using(format::proofs::Tags::prepared, crate::proofs::Laws::length_parts), unfolding(scheme::specs::Keys::find_token))]
pub fn write_find(key: &[u8], name: &[u8], value: &[u8], to: &mut [u8])
    requires { ((length key.now ≡ 32) × ((length name.now ≤ 255) × (length value.now ≤ 1024))) × (length to.old ≡ 96) }
    ensures { to.new ≡ find_token program key.now (field_of name.now value.now) }
{
    let k = parts(hmac::prepare(key), name, value);
    let mt = k.mt;
    let me = k.me;
    let cl = k.cl;
    three(to, &mt, &me, &cl);
}

// F(F(K, n), x) for the label x of a valid field, with the prepared master key: the count token at 2.
// [01:KT9]
pub fn field_key(k: Keyed, n: u64, name: &[u8], value: &[u8]) -> [u8; 32]
    requires { (length name.now ≤ 255) × (length value.now ≤ 1024) }
    ensures { (key : List ℕ) → Prepared k key → result ≡ F (F key (number8 n)) (label (field_of name.now value.now)) }
{
    let mut x = [0u8; 1281];
    let l = labels::label(name, value, &mut x);
    keys::label_key(k, n, &x[..l])
}

// RL of a valid field, with the prepared master key: what a test takes. [02:W4.4 W4.16]
#[tactic(auto, unfolding(scheme::specs::Keys::RL, suite::specs::Program::program))]
pub fn mark_key(k: Keyed, name: &[u8], value: &[u8]) -> [u8; MARK_TOKEN]
    requires { (length name.now ≤ 255) × (length value.now ≤ 1024) }
    ensures { (key : List ℕ) → Prepared k key → result ≡ RL program key (field_of name.now value.now) }
{
    field_key(k, 4, name, value)
}

// Writes a part of a joint find for a valid key and field: the find token, then RL. [02:W4.18]
pub fn write_part(key: &[u8], name: &[u8], value: &[u8], to: &mut [u8])
    requires { ((length key.now ≡ 32) × ((length name.now ≤ 255) × (length value.now ≤ 1024))) × (length to.old ≡ 128) }
    ensures { to.new ≡ part_token program key.now (field_of name.now value.now) }
{
    let rl = mark_key(hmac::prepare(key), name, value);
    write_find(key, name, value, &mut to[0..FIND_TOKEN]);
    octets::copy(&mut to[FIND_TOKEN..PART_TOKEN], &rl);
}

// Writes an insert token for a valid key, field, p, share and nonce: p and MT and ME, then CL, the
// nonce and CL under KS, then RL. [01:KT5 KT6 KT7] [02:W4.9]
pub fn write_insert(
    k: FieldKeys,
    ks: &[u8; 32],
    rl: &[u8; 32],
    p: u8,
    u: u64,
    nonce: &[u8],
    to: &mut [u8],
)
    requires { (length nonce.now ≡ 12) × (length to.old ≡ 173) }
    ensures { to.new ≡ token k ks.now rl.now p u nonce.now }
{
    let mt = k.mt;
    let me = k.me;
    let cl = k.cl;
    let head = [p];
    let mtu = keys::number_once(&mt, u);
    let meu = keys::number_once(&me, u);
    let clu = keys::number_once(&cl, u);
    let mut log = clu;
    chacha20::apply_short(ks, nonce, &mut log);
    three(&mut to[0..65], &head, &mtu, &meu);
    three(&mut to[65..INSERT_RL], &clu, nonce, &log);
    octets::copy(&mut to[INSERT_RL..INSERT_TOKEN], rl);
}
