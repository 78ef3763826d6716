// Keys and shares (document 01, "Keys and tokens"): the keys that tokens are made of, as F gives them,
// and the range of shares.
#![tactic(auto)]

ghost use Rattle.std.specs.Prelude.{◌≡◌, ◌||◌, List, ℕ, ◌≤◌, ltb, length};
ghost use Rattle.hmac.specs.Hmac.{F};
ghost use Rattle.scheme.specs.Suite.{number8};
ghost use Rattle.scheme.specs.Keys.{KC, KM, KS};
ghost use Rattle.suite.specs.Program.{program};
ghost use Rattle.format.specs.Tags.{Prepared};

use hmac::Keyed;

// F of a message, and of a number, under a key that serves once.
#[tactic(auto, using(hmac::proofs::Laws::from_prepared))]
fn once(key: &[u8; 32], m: &[u8]) -> [u8; 32]
    requires { length m.now ≤ 65536 }
    ensures { result ≡ F key.now m.now }
{
    hmac::tagged(hmac::prepare(key), m)
}

#[tactic(auto, using(format::proofs::Tags::prepared, format::proofs::Tags::numbered_is))]
pub fn number_once(key: &[u8; 32], n: u64) -> [u8; 32]
    ensures { result ≡ F key.now (number8 n) }
{
    format::numbered(hmac::prepare(key), n)
}

// F(F(KM, 1), x), F(F(KM, 2), x) and F(KC, x), for a label x: a find token's parts. [01:KT2 KT8]
#[derive(Clone, Copy)]
pub struct FieldKeys {
    pub mt: [u8; 32],
    pub me: [u8; 32],
    pub cl: [u8; 32],
}

// F(F(K, n), x), with the prepared master key: the count token of a label x at 2, its RL at 4.
// [01:KT9] [02:W4.4]
#[tactic(auto, using(format::proofs::Tags::numbered_is))]
pub fn label_key(k: Keyed, n: u64, x: &[u8]) -> [u8; 32]
    requires { length x.now ≤ 65536 }
    ensures { (key : List ℕ) → Prepared k key → result ≡ F (F key (number8 n)) x.now }
{
    let under = format::numbered(k, n);
    once(&under, x)
}

// The parts of a find token, with the prepared master key.
#[tactic(auto, using(crate::proofs::Rules::field_keys_rules), unfolding(scheme::specs::Keys::KM, scheme::specs::Keys::KC, suite::specs::Program::program))]
pub fn field_keys(k: Keyed, x: &[u8]) -> FieldKeys
    requires { length x.now ≤ 65536 }
    ensures { (key : List ℕ) → Prepared k key → (result.mt ≡ F (F (KM program key) (number8 1)) x.now) × ((result.me ≡ F (F (KM program key) (number8 2)) x.now) × (result.cl ≡ F (KC program key) x.now)) }
{
    let km = format::numbered(k, 1);
    let kc = format::numbered(k, 2);
    let m = hmac::prepare(&km);
    let m1 = format::numbered(m, 1);
    let m2 = format::numbered(m, 2);
    let mt = once(&m1, x);
    let me = once(&m2, x);
    let cl = once(&kc, x);
    FieldKeys { mt, me, cl }
}

// KS, with the prepared master key: the compaction token. [01:KT10]
#[tactic(auto, using(format::proofs::Tags::numbered_is), unfolding(scheme::specs::Keys::KS, suite::specs::Program::program))]
pub fn log_key(k: Keyed) -> [u8; 32]
    ensures { (key : List ℕ) → Prepared k key → result ≡ KS program key }
{
    format::numbered(k, 3)
}

// Whether p is above 15 or u above p. [01:KT3 RI4]
pub fn shares_outside(p: u64, u: u64) -> bool
    ensures { result ≡ (ltb 15 p || ltb p u) }
{
    if 15 < p {
        return true;
    }
    p < u
}
