// The reading of a counter out of table C (document 01, "Reading a counter"), with the rows looked at for it (document 02,
// "Stop early, and say the rows read").
#![tactic(auto)]

ghost use Rattle.std.specs.Prelude.{◌≡◌, ◌*◌, ◌≤◌, length};
ghost use Rattle.scheme.specs.Store.{table_c, width_of};
ghost use Rattle.table.specs.Table.{rows};
ghost use Rattle.table.specs.Order.{Searchable};
ghost use Rattle.scheme.specs.Reading.{reading};
ghost use Rattle.suite.specs.Program.{program};
ghost use Rattle.format.specs.Tags.{KeysOf};
ghost use Rattle.counter.specs.Outcome.{reading_of, places_noted, share_read, rows_in, rows_told, share_told};

use format::{AnchorNumber, Keys, Position};
use hmac::Keyed;
use lookups::Lookup;
use numbers::Numbers;

// A counter: B, Start, k and the count; and the tally of the rows looked at. [01:RC1 RC2 RC3 RC4] [02:W3.8]
#[derive(Clone, Copy)]
pub struct Counter {
    pub b: AnchorNumber,
    pub start: Position,
    pub k: u64,
    pub count: u64,
    pub rows: u64,
}

// What a reading gives. [01:RC5 FM8]
#[derive(Clone, Copy)]
pub enum Reading {
    Counter(Counter),
    Damage,
}

// Reads the counter of CL, whose keys are given, out of the part that holds table C, and notes the
// places of the counters that it held. Anchor B is tested before the counters are walked, since Start
// + k could pass 2^64; only anchor B and counter Start + k are decrypted, each where it exists.
// [01:RC5 RC6 RC7]
#[tactic(auto, using(crate::proofs::Rules::read_by_rules))]
pub fn read_by(
    t: &[u8],
    c: usize,
    u: usize,
    by: Lookup,
    cl: &[u8; 32],
    keys: Keys,
    places: &mut [u16],
) -> Reading
    requires { ((length t.now ≡ width_of table_c * c) × (c ≤ length places.old)) × (((c ≤ 4096) × KeysOf keys cl.now) × Searchable (width_of table_c) u (rows (width_of table_c) c t.now)) }
    ensures result_value { reading_of result ≡ reading program c cl.now (rows (width_of table_c) c t.now) }
    ensures places_after { places.new ≡ places_noted c cl.now (rows (width_of table_c) c t.now) places.old }
    ensures result_value_2 { rows_in result ≡ rows_told by c cl.now (rows (width_of table_c) c t.now) }
{
    let ct = keys.ct;
    let ce = keys.ce;
    let anchors = lookups::anchors_held(t, c, u, by, ct);
    let anchor = numbers::numbers_or(t, c, anchors.at, &ce, Numbers { a: 0, n: 0 });
    if numbers::anchor_damaged(anchor) {
        return Reading::Damage;
    }
    let start = Position(anchor.a);
    let counters = lookups::counters_held(t, c, u, by, ct, start, places);
    let counter = numbers::numbers_or(t, c, counters.at, &ce, Numbers { a: 0, n: anchor.n });
    if numbers::counter_damaged(counter) {
        return Reading::Damage;
    }
    let b = anchors.b;
    Reading::Counter(Counter {
        b,
        start,
        k: counters.k,
        count: counter.n,
        rows: anchors.rows + counters.rows,
    })
}

// Reads the counter of CL, whose keys are given; the places that the reading notes aren't needed.
pub fn read_keyed(t: &[u8], c: usize, u: usize, by: Lookup, cl: &[u8; 32], keys: Keys) -> Reading
    requires { (length t.now ≡ width_of table_c * c) × (((c ≤ 4096) × KeysOf keys cl.now) × Searchable (width_of table_c) u (rows (width_of table_c) c t.now)) }
    ensures result_value { reading_of result ≡ reading program c cl.now (rows (width_of table_c) c t.now) }
    ensures result_value_2 { rows_in result ≡ rows_told by c cl.now (rows (width_of table_c) c t.now) }
{
    let mut places = [0u16; 4096];
    read_by(t, c, u, by, cl, keys, &mut places)
}

// Reads the counter of CL out of the part that holds table C.
pub fn read(t: &[u8], c: usize, u: usize, by: Lookup, cl: &[u8; 32]) -> Reading
    requires { (length t.now ≡ width_of table_c * c) × ((c ≤ 4096) × Searchable (width_of table_c) u (rows (width_of table_c) c t.now)) }
    ensures result_value { reading_of result ≡ reading program c cl.now (rows (width_of table_c) c t.now) }
    ensures result_value_2 { rows_in result ≡ rows_told by c cl.now (rows (width_of table_c) c t.now) }
{
    read_keyed(t, c, u, by, cl, format::keys_of(cl))
}

// Reads the counter of a share, whose CL comes from the prepared F(KC, x).
#[tactic(auto, unfolding(crate::specs::Outcome::share_read, crate::specs::Outcome::share_told))]
pub fn read_share(t: &[u8], c: usize, u: usize, by: Lookup, clx: Keyed, share: u64) -> Reading
    requires { (length t.now ≡ width_of table_c * c) × ((c ≤ 4096) × Searchable (width_of table_c) u (rows (width_of table_c) c t.now)) }
    ensures result_value { reading_of result ≡ share_read clx c (rows (width_of table_c) c t.now) share }
    ensures result_value_2 { rows_in result ≡ share_told by clx c (rows (width_of table_c) c t.now) share }
{
    let cl = format::numbered(clx, share);
    read(t, c, u, by, &cl)
}
