// The ids of a field's entries in table M (document 01, "Operations": find; document 02, "Each document
// once in a find"), share by share and address by address, each kept where it is first met.
#![tactic(auto)]

ghost use Rattle.std.specs.Prelude.{◌≡◌, ◌+◌, ◌*◌, ◌≤◌, ◌<◌, length};
ghost use Rattle.table.specs.Table.{rows, place_of};
ghost use Rattle.table.specs.Order.{Searchable};
ghost use Rattle.scheme.specs.Store.{table_m, width_of};
ghost use Rattle.chains.specs.Chains.{kept, Chained};
ghost use Rattle.ids.specs.Ids.{entry_tags, noted_at, noted_to, noted_in, ShareOf};

use format::{Address, row};
use hmac::Keyed;
use store::{M_WIDTH, MOST_ROWS};

// The keys of a find token for entries, prepared: F(F(KM, 1), x) and F(F(KM, 2), x). [01:KT8]
#[derive(Clone, Copy)]
pub struct EntryKeys {
    pub mt: Keyed,
    pub me: Keyed,
}

// A share's keys for entries: MT prepared, and ME. [01:KT5]
#[derive(Clone, Copy)]
struct Share {
    u: u64,
    mt: Keyed,
    me: [u8; 32],
}

// The keys of share u.
fn keys_of(keys: EntryKeys, u: u64) -> Share
    ensures { ShareOf keys u result }
{
    let key = format::numbered(keys.mt, u);
    let mt = hmac::prepare(&key);
    let me = format::numbered(keys.me, u);
    Share { u, mt, me }
}

// The place of the row of M at an address, with the prepared MT; m where there is none. [01:ST6 ST13]
fn place(t: &[u8], m: usize, used: usize, mt: Keyed, a: Address) -> usize
    requires { (length t.now ≡ width_of table_m * m) × Searchable (width_of table_m) used (rows (width_of table_m) m t.now) }
    ensures { result ≡ place_of (entry_tags mt a.0) (rows (width_of table_m) m t.now) }
{
    let tag = format::entry_tag(mt, a);
    search::place(t, M_WIDTH, m, used, &tag)
}

// Notes the id of the entry at an address of a share, where it is held; answers how many are kept.
// [01:OP6]
fn note_entry(
    t: &[u8],
    m: usize,
    used: usize,
    s: Share,
    keys: EntryKeys,
    a: Address,
    index: &mut [u32],
    ids: &mut [u8],
    n: usize,
) -> usize
    requires { ((length t.now ≡ width_of table_m * m) × Searchable (width_of table_m) used (rows (width_of table_m) m t.now)) × ((m ≤ 4096) × ((s.u ≤ 15) × (ShareOf keys s.u s × (Chained keys.me (rows (width_of table_m) m t.now) (kept index.old ids.old n) × (4096 + (noted_at keys (rows (width_of table_m) m t.now) s.u a.0 (kept index.old ids.old n)).n ≤ length index.old))))) }
    ensures { kept index.new ids.new result ≡ noted_at keys (rows (width_of table_m) m t.now) s.u a.0 (kept index.old ids.old n) }
{
    let i = place(t, m, used, s.mt, a);
    if i < m {
        let key = s.me;
        let id = row::text_at(t, m, i, &key);
        let r = MOST_ROWS * (s.u as usize) + i;
        return chains::note(t, m, keys.me, r, &id, index, ids, n);
    }
    n
}

// Notes the ids at addresses 1 to the count of a share; answers how many are kept. [01:OP6]
fn note_share(
    t: &[u8],
    m: usize,
    used: usize,
    s: Share,
    keys: EntryKeys,
    count: u64,
    index: &mut [u32],
    ids: &mut [u8],
    n: usize,
) -> usize
    requires { ((length t.now ≡ width_of table_m * m) × Searchable (width_of table_m) used (rows (width_of table_m) m t.now)) × ((m ≤ 4096) × ((s.u ≤ 15) × (ShareOf keys s.u s × (Chained keys.me (rows (width_of table_m) m t.now) (kept index.old ids.old n) × (4096 + (noted_to keys (rows (width_of table_m) m t.now) s.u count (kept index.old ids.old n)).n ≤ length index.old))))) }
    ensures { kept index.new ids.new result ≡ noted_to keys (rows (width_of table_m) m t.now) s.u count (kept index.old ids.old n) }
{
    let mut next = n;
    for a in 0..count {
        next = note_entry(t, m, used, s, keys, Address(a + 1), index, ids, next);
    }
    next
}

// Notes the ids of the shares 0 to p, by their counts, in an index that has none yet; answers how many
// are kept. [01:OP6] [02:W1.1 W1.2]
pub fn gather(
    t: &[u8],
    m: usize,
    used: usize,
    keys: EntryKeys,
    of: [u64; 16],
    p: u64,
    index: &mut [u32],
    ids: &mut [u8],
) -> usize
    requires { ((length t.now ≡ width_of table_m * m) × Searchable (width_of table_m) used (rows (width_of table_m) m t.now)) × ((m ≤ 4096) × ((p ≤ 15) × (Chained keys.me (rows (width_of table_m) m t.now) (kept index.old ids.old 0) × (4096 + (noted_in keys (rows (width_of table_m) m t.now) of (p + 1) (kept index.old ids.old 0)).n ≤ length index.old)))) }
    ensures { kept index.new ids.new result ≡ noted_in keys (rows (width_of table_m) m t.now) of (p + 1) (kept index.old ids.old 0) }
{
    let mut n: usize = 0;
    for u in 0..p + 1 {
        let s = keys_of(keys, u);
        n = note_share(t, m, used, s, keys, of[u as usize], index, ids, n);
    }
    n
}
