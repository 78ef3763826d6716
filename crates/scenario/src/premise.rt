// The premise's tags for a list of calls all differ (document 01, "The ledger"): those of M at addresses 1
// to 64 times the calls, those of C at positions and anchor numbers 1 to the calls + 1, for every pair
// of field and share that is read. Compared are their first 8 bytes. [01:LG13]
ghost use Rattle.std.specs.Prelude.{◌≡◌, ◌++◌, ◌+◌, ◌*◌, ◌≤◌, length};
ghost use Rattle.scheme.specs.Keys.{share, CT, find_mt, find_cl};
ghost use Rattle.suite.specs.Program.{program};
ghost use Rattle.format.specs.Tags.{Prepared};
ghost use Rattle.scenario.specs.Premise.{tag_of, starts_of, occurs_in, repeating, PairTags, Twice};

use crate::write;
use format::{Address, AnchorNumber, FIND_TOKEN, Position};
use hmac::Keyed;

#[derive(Clone, Copy)]
pub enum Kind {
    Entry,
    Counter,
    Anchor,
}

fn tag(kind: Kind, key: Keyed, n: u64) -> [u8; 32]
    ensures { result ≡ tag_of kind key n }
{
    match kind {
        Kind::Entry => format::entry_tag(key, Address(n)),
        Kind::Counter => format::counter_tag(key, Position(n)),
        Kind::Anchor => format::anchor_tag(key, AnchorNumber(n)),
    }
}

// The starts of the tags of numbers 1 onward, as many as there is room for.
fn starts(kind: Kind, key: Keyed, to: &mut [u64])
    ensures { to.new ≡ starts_of kind key 0 (length to.old) }
{
    for i in 0..to.len() {
        let t = tag(kind, key, (i + 1) as u64);
        to[i] = octets::get(&t[0..8]);
    }
}

fn occurs(x: u64, list: &[u64]) -> bool
    ensures { result ≡ occurs_in x list.now }
{
    for i in 0..list.len() {
        if list[i] == x {
            return true;
        }
    }
    false
}

// Whether a number stands twice in a list.
fn repeats(list: &[u64]) -> bool
    ensures { result ≡ repeating list.now }
{
    let n = list.len();
    for i in 0..n {
        if occurs(list[i], &list[i + 1..n]) {
            return true;
        }
    }
    false
}

// The prepared keys of a pair of field and share: MT and CT.
#[derive(Clone, Copy)]
struct PairKeys {
    mt: Keyed,
    ct: Keyed,
}

// The keys of share u under a find token.
fn keys(token: &[u8; FIND_TOKEN], u: u64) -> PairKeys
    ensures prepared { Prepared result.mt (share program (find_mt token.now) u) }
    ensures prepared_2 { Prepared result.ct (CT program (share program (find_cl token.now) u)) }
{
    let all = &token[..];
    let mtx = hmac::prepare(&all[0..32]);
    let clx = hmac::prepare(&all[64..FIND_TOKEN]);
    let mt = format::numbered(mtx, u);
    let cl = format::numbered(clx, u);
    let of_cl = format::keys_of(&cl);
    let ct = of_cl.ct;
    let mt = hmac::prepare(&mt);
    PairKeys { mt, ct }
}

// The starts of the tags under one pair's keys: those of M, and those of C, counters in the first half.
fn pair(keys: PairKeys, half: usize, m: &mut [u64], c: &mut [u64])
    requires { (length c.old ≡ half + half) × (half ≤ 1024) }
    ensures m_after { m.new ≡ starts_of Kind.Entry keys.mt 0 (length m.old) }
    ensures c_after { c.new ≡ starts_of Kind.Counter keys.ct 0 half ++ starts_of Kind.Anchor keys.ct 0 half }
{
    let mt = keys.mt;
    let ct = keys.ct;
    let n = half + half;
    starts(Kind::Entry, mt, m);
    starts(Kind::Counter, ct, &mut c[0..half]);
    starts(Kind::Anchor, ct, &mut c[half..n]);
}

// Reads a field and a share, and makes the starts of that pair's tags.
fn read_pair(key: &[u8], half: usize, m: &mut [u64], c: &mut [u64])
    requires { (length c.old ≡ half + half) × (half ≤ 1024) }
    ensures { PairTags key.now (length m.old) half m.new c.new }
{
    let mut name = [0u8; 300];
    let a = records::read_bytes(&mut name);
    let mut value = [0u8; 1100];
    let b = records::read_bytes(&mut value);
    let u = records::read_number();
    let mut token = [0u8; FIND_TOKEN];
    // a refused field leaves the token of zeros, and its tags are told
    let _ = client::find_token(key, &name[..a], &value[..b], &mut token);
    pair(keys(&token, u), half, m, c);
}

// How many tags there are of a table, and whether they differ.
fn tell(table: &[u8], list: &[u64])
    ensures { result ≡ tt }
{
    write::count(list.len() as u64);
    write::text(b" tags of ");
    write::text(table);
    if repeats(list) {
        write::text(b" REPEAT");
    } else {
        write::text(b" differ");
    }
}

// The tags of two pairs, which are read: a field in two shares.
fn two(key: &[u8], w: usize, half: usize, m: &mut [u64], c: &mut [u64])
    requires { ((w ≤ 2048) × (half ≤ 128)) × ((length m.old ≡ 2 * w) × (length c.old ≡ 4 * half)) }
    ensures { Twice (PairTags key.now w half) m.new c.new }
{
    let v = 2 * half;
    read_pair(key, half, &mut m[0..w], &mut c[0..v]);
    read_pair(key, half, &mut m[w..2 * w], &mut c[v..2 * v]);
}

// The tags of four pairs: two fields in two shares.
fn four(key: &[u8], w: usize, half: usize, m: &mut [u64], c: &mut [u64])
    requires { ((w ≤ 2048) × (half ≤ 128)) × ((length m.old ≡ 4 * w) × (length c.old ≡ 8 * half)) }
    ensures { Twice (Twice (PairTags key.now w half)) m.new c.new }
{
    let x = 2 * w;
    let y = 4 * half;
    two(key, w, half, &mut m[0..x], &mut c[0..y]);
    two(key, w, half, &mut m[x..2 * x], &mut c[y..2 * y]);
}

// Makes the starts of the tags, and tells whether they differ.
fn check(key: &[u8], w: usize, half: usize, m: &mut [u64], c: &mut [u64])
    requires { ((w ≤ 2048) × (half ≤ 128)) × ((length m.old ≡ 4 * w) × (length c.old ≡ 8 * half)) }
    ensures { Twice (Twice (PairTags key.now w half)) m.new c.new }
{
    four(key, w, half, m, c);
    write::text(b":");
    tell(b"M", m);
    write::text(b",");
    tell(b"C", c);
    write::text(b"\n");
}

// The premise for a list of so many calls, at most 32, with two fields and two shares.
pub fn premise()
    ensures { result ≡ tt }
{
    let mut key = [0u8; 64];
    let k = records::read_bytes(&mut key);
    let calls = records::read_number() as usize;
    let mut m = [0u64; 8192];
    let mut c = [0u64; 264];
    if calls <= 32 {
        let half = calls + 1;
        check(
            &key[..k],
            64 * calls,
            half,
            &mut m[0..256 * calls],
            &mut c[0..8 * half],
        );
    }
}
