// The different ids met so far in a find (document 02, "Each document once in a find"), in a hash table
// with separate chaining: in the index a head for each bucket, then for each id one number: that of its
// row, and a link to the id before it in its bucket. The first 4,096 ids stand as bytes beside it; a later
// one, which comes only where tags collide, is read out of its row again.
#![tactic(auto)]

ghost use Rattle.std.specs.Prelude.{◌≡◌, ◌+◌, ◌*◌, ◌≤◌, ◌<◌, length, get_or};
ghost use Rattle.octets.specs.Part.{written};
ghost use Rattle.table.specs.Lists.{flat};
ghost use Rattle.table.specs.Table.{rows};
ghost use Rattle.scheme.specs.Store.{table_m, width_of};
ghost use Rattle.chains.specs.Chains.{id_by, kept, row_at, kept_ids, met, bucket_of, linked, first_ids, noted, Readable, Chained};

use format::{ID, row};
use hmac::Keyed;
use store::MOST_ROWS;

// The buckets' heads in an index.
pub const BUCKETS: usize = 4096;

// More than any link: the number of a row stands above it.
const LINKS: usize = 65536;

// How many ids stand as bytes.
const FIRST: usize = 4096;

// The bytes of these ids.
pub const FIRST_BYTES: usize = FIRST * ID;

// A number of an index as a place.
fn wide(x: u32) -> usize
    ensures { result ≡ x }
{
    x as usize
}

// The bucket of an id: all its bytes count, and numbers in a row go to buckets in a row. 4,093 is the
// greatest prime below the number of buckets.
fn bucket(x: &[u8]) -> usize
    requires { length x.now ≡ 16 }
    ensures { (result ≡ bucket_of x.now) × (result < 4096) }
{
    let a = octets::get(&x[0..8]) % 4093;
    let b = octets::get(&x[8..16]) % 4093;
    ((61 * a + b) % 4093) as usize
}

// The id of number i.
pub fn id_at(t: &[u8], m: usize, me: Keyed, index: &[u32], ids: &[u8], i: usize) -> [u8; ID]
    requires { (length t.now ≡ width_of table_m * m) × Readable me (rows (width_of table_m) m t.now) index.now ids.now i }
    ensures { result ≡ id_by me (rows (width_of table_m) m t.now) (row_at index.now i) }
{
    if i < FIRST {
        let start = ID * i;
        let end = start + ID;
        let mut id = [0u8; ID];
        id.copy_from_slice(&ids[start..end]);
        return id;
    }
    let at = BUCKETS + i;
    let r = wide(index[at]) / LINKS;
    let u = (r / MOST_ROWS) as u64;
    let key = format::numbered(me, u);
    row::text_at(t, m, r % MOST_ROWS, &key)
}

// Whether an id is among the n that are kept: its bucket's chain is walked, down from the last. Only the
// contract needs n.
fn seen(t: &[u8], m: usize, me: Keyed, index: &[u32], ids: &[u8], n: usize, x: &[u8; ID]) -> bool
    requires { (length t.now ≡ width_of table_m * m) × Chained me (rows (width_of table_m) m t.now) (kept index.now ids.now n) }
    ensures { result ≡ met me (rows (width_of table_m) m t.now) (kept index.now ids.now n) x.now }
{
    let b = bucket(x);
    let mut j = wide(index[b]);
    while 0 < j {
        let i = j - 1;
        let id = id_at(t, m, me, index, ids, i);
        if id == *x {
            return true;
        }
        let at = BUCKETS + i;
        j = wide(index[at]) % LINKS;
    }
    false
}

// Puts an id into the index as the one of number n, with the number of its row: it becomes its bucket's
// head, with a link to the head before it.
fn link(index: &mut [u32], n: usize, r: usize, b: usize)
    requires { (b < 4096) × ((r < 65536) × ((get_or index.old b 0 < 65536) × ((4096 + n + 1 ≤ length index.old) × (length index.old ≤ 69632)))) }
    ensures { index.new ≡ linked index.old n r b }
{
    let at = BUCKETS + n;
    let head = wide(index[b]);
    index[at] = (LINKS * r + head) as u32;
    index[b] = (n + 1) as u32;
}

// Puts the bytes of the id of number n beside the index, if it is one of the first.
fn put_first(ids: &mut [u8], n: usize, x: &[u8; ID])
    requires { (length x.now ≡ 16) × (length ids.old ≡ 65536) }
    ensures { ids.new ≡ first_ids ids.old n x.now }
{
    if n < FIRST {
        octets::copy_at(ids, ID * n, x);
    }
}

// Keeps the id of a row, unless it was met before; answers how many are kept. [02:W1.1 W1.2]
pub fn note(
    t: &[u8],
    m: usize,
    me: Keyed,
    r: usize,
    x: &[u8; ID],
    index: &mut [u32],
    ids: &mut [u8],
    n: usize,
) -> usize
    requires { (length t.now ≡ width_of table_m * m) × (Chained me (rows (width_of table_m) m t.now) (kept index.old ids.old n) × ((x.now ≡ id_by me (rows (width_of table_m) m t.now) r) × ((r < 65536) × (4096 + (noted me (rows (width_of table_m) m t.now) r (kept index.old ids.old n)).n ≤ length index.old)))) }
    ensures { kept index.new ids.new result ≡ noted me (rows (width_of table_m) m t.now) r (kept index.old ids.old n) }
{
    if seen(t, m, me, index, ids, n, x) {
        return n;
    }
    let b = bucket(x);
    link(index, n, r, b);
    put_first(ids, n, x);
    n + 1
}

// Writes the n ids that are kept to the start of the output. [01:OP6 OP7]
pub fn write(t: &[u8], m: usize, me: Keyed, index: &[u32], ids: &[u8], n: usize, output: &mut [u8])
    requires { (length t.now ≡ width_of table_m * m) × (Chained me (rows (width_of table_m) m t.now) (kept index.now ids.now n) × (16 * n ≤ length output.old)) }
    ensures { output.new ≡ written output.old 0 (flat (kept_ids me (rows (width_of table_m) m t.now) index.now n)) }
{
    for i in 0..n {
        let id = id_at(t, m, me, index, ids, i);
        octets::copy_at(output, ID * i, &id);
    }
}
