// Joint find (document 02, "Find by several fields"): of the ids that the find of the part with the least
// count gives, those for which every other part tests yes. The shares of the parts are read first; 18 is
// judged by the number of ids kept before any is written.
#![tactic(auto)]

ghost use Rattle.std.specs.Prelude.{◌≡◌, ◌+◌, ◌*◌, ◌-◌, ◌≤◌, ◌<◌, length, get_or, replicate, [], false};
ghost use Rattle.answer.specs.Answer.{counted};
ghost use Rattle.table.specs.Lists.{distinct, All};
ghost use Rattle.table.specs.Table.{rows};
ghost use Rattle.table.specs.Order.{Searchable};
ghost use Rattle.scheme.specs.Store.{table_m, table_r, width_of, cut};
ghost use Rattle.scheme.specs.Keys.{find_mt, find_me, find_cl, part_find};
ghost use Rattle.scheme.specs.Find.{share_reading, ids_found};
ghost use Rattle.scheme.specs.JointFind.{without, joint_find as joint_find_of};
ghost use Rattle.suite.specs.Program.{program};
ghost use Rattle.store.specs.Check.{checked_of};
ghost use Rattle.format.specs.Tags.{Prepared};
ghost use Rattle.chains.specs.Chains.{kept, kept_ids, Chained};
ghost use Rattle.ids.specs.Ids.{ids_in, noted_in};
ghost use Rattle.sifting.specs.Sifting.{sifted_by, staying};
ghost use Rattle.find.specs.Given.{given_answer, given_output, Empty};
ghost use Rattle.find.specs.Counts.{Sound};
ghost use Rattle.joint_find.specs.Kept.{test_of, parts_bad, kept_of};

use answer::Refusal;
use chains::{BUCKETS, FIRST_BYTES};
use choosing::Choice;
use format::{ID, PART_TOKEN};
use hmac::Keyed;
use ids::EntryKeys;
use store::{MOST_ROWS, Shape};

// The most ids in all shares.
const MOST_IDS: usize = 16 * MOST_ROWS;

// An index for as many ids as a table has rows, which serves where the counts sum to no more, and one for the
// most ids, which serves whatever they count.
const FEW: usize = BUCKETS + MOST_ROWS;

const MANY: usize = BUCKETS + MOST_IDS;

// Sets the flags of those of the ids kept in an index that a part but the one at a place says no to: the
// parts before it, then those after it. [02:W4.21]
fn sift_others(
    t: &[u8],
    m: usize,
    me: Keyed,
    index: &[u32],
    ids: &[u8],
    found: usize,
    labels: &[u8],
    r: usize,
    held: usize,
    parts: &[u8],
    n: usize,
    at: usize,
    flags: &mut [u8],
)
    requires t_len { (length t.now ≡ width_of table_m * m) × (Chained me (rows (width_of table_m) m t.now) (kept index.now ids.now found) × (found ≤ length flags.old)) }
    requires labels_len { ((length labels.now ≡ width_of table_r * r) × Searchable (width_of table_r) held (rows (width_of table_r) r labels.now)) × ((length parts.now ≡ 128 * n) × ((at < n) × (n ≤ 8))) }
    ensures { flags.new ≡ sifted_by (test_of (rows (width_of table_r) r labels.now)) (kept_ids me (rows (width_of table_m) m t.now) index.now found) (without at (rows 128 n parts.now)) flags.old }
{
    sifting::sift_parts(
        t, m, me, index, ids, found, labels, r, held, parts, 0, at, flags,
    );
    sifting::sift_parts(
        t,
        m,
        me,
        index,
        ids,
        found,
        labels,
        r,
        held,
        parts,
        at + 1,
        n,
        flags,
    );
}

// The ids kept in an index whose flags are not set, at the start of the output, and how many; or 18 with their
// number. [02:W4.23]
fn write_unset(
    t: &[u8],
    m: usize,
    me: Keyed,
    index: &[u32],
    ids: &[u8],
    found: usize,
    flags: &[u8],
    output: &mut [u8],
) -> Result<u64, Refusal>
    requires t_len { (length t.now ≡ width_of table_m * m) × (Chained me (rows (width_of table_m) m t.now) (kept index.now ids.now found) × (found ≤ length flags.now)) }
    requires all { All (λ id. length id ≡ 16) (staying (kept_ids me (rows (width_of table_m) m t.now) index.now found) flags.now) }
    ensures result_value { counted result ≡ given_answer (staying (kept_ids me (rows (width_of table_m) m t.now) index.now found) flags.now) output.old }
    ensures output_after { output.new ≡ given_output (staying (kept_ids me (rows (width_of table_m) m t.now) index.now found) flags.now) output.old }
{
    let k = sifting::kept(flags, found);
    let room = output.len() / ID;
    if room < k {
        return Err(Refusal::OutputLength(k as u64));
    }
    sifting::write(t, m, me, index, ids, found, flags, output);
    Ok(k as u64)
}

// Of the ids of the shares 0 to p, by their counts, each once, those for which every part but the one at a
// place tests yes, at the start of the output, and how many; or 18 with their number. The index has none
// yet, and room for all. [02:W4.21 W4.23]
fn give(
    t: &[u8],
    m: usize,
    used: usize,
    keys: EntryKeys,
    of: [u64; 16],
    p: u64,
    labels: &[u8],
    r: usize,
    held: usize,
    parts: &[u8],
    n: usize,
    at: usize,
    index: &mut [u32],
    output: &mut [u8],
) -> Result<u64, Refusal>
    requires t_len { ((length t.now ≡ width_of table_m * m) × Searchable (width_of table_m) used (rows (width_of table_m) m t.now)) × ((m ≤ 4096) × ((p ≤ 15) × Empty index.old (length (distinct (ids_in keys (rows (width_of table_m) m t.now) of (p + 1)))))) }
    requires labels_len { ((length labels.now ≡ width_of table_r * r) × Searchable (width_of table_r) held (rows (width_of table_r) r labels.now)) × ((length parts.now ≡ 128 * n) × ((at < n) × (n ≤ 8))) }
    ensures result_value { counted result ≡ given_answer (kept_of (rows (width_of table_r) r labels.now) at (rows 128 n parts.now) (distinct (ids_in keys (rows (width_of table_m) m t.now) of (p + 1)))) output.old }
    ensures output_after { output.new ≡ given_output (kept_of (rows (width_of table_r) r labels.now) at (rows 128 n parts.now) (distinct (ids_in keys (rows (width_of table_m) m t.now) of (p + 1)))) output.old }
    ensures index_after { index.new ≡ (noted_in keys (rows (width_of table_m) m t.now) of (p + 1) (kept index.old (replicate 65536 0) 0)).index }
{
    let mut ids = [0u8; FIRST_BYTES];
    let mut flags = [0u8; MOST_IDS];
    let found = ids::gather(t, m, used, keys, of, p, index, &mut ids);
    sift_others(
        t, m, keys.me, index, &ids, found, labels, r, held, parts, n, at, &mut flags,
    );
    write_unset(t, m, keys.me, index, &ids, found, &flags, output)
}

// The same, in an index of its own: N entries are room for all.
fn give_within<const N: usize>(
    t: &[u8],
    m: usize,
    used: usize,
    keys: EntryKeys,
    of: [u64; 16],
    p: u64,
    labels: &[u8],
    r: usize,
    held: usize,
    parts: &[u8],
    n: usize,
    at: usize,
    output: &mut [u8],
) -> Result<u64, Refusal>
    requires t_len { ((length t.now ≡ width_of table_m * m) × Searchable (width_of table_m) used (rows (width_of table_m) m t.now)) × ((m ≤ 4096) × ((p ≤ 15) × Empty (replicate N 0) (length (distinct (ids_in keys (rows (width_of table_m) m t.now) of (p + 1)))))) }
    requires labels_len { ((length labels.now ≡ width_of table_r * r) × Searchable (width_of table_r) held (rows (width_of table_r) r labels.now)) × ((length parts.now ≡ 128 * n) × ((at < n) × (n ≤ 8))) }
    ensures result_value { counted result ≡ given_answer (kept_of (rows (width_of table_r) r labels.now) at (rows 128 n parts.now) (distinct (ids_in keys (rows (width_of table_m) m t.now) of (p + 1)))) output.old }
    ensures output_after { output.new ≡ given_output (kept_of (rows (width_of table_r) r labels.now) at (rows 128 n parts.now) (distinct (ids_in keys (rows (width_of table_m) m t.now) of (p + 1)))) output.old }
{
    let mut index = [0u32; N];
    give(
        t, m, used, keys, of, p, labels, r, held, parts, n, at, &mut index, output,
    )
}

// The keys for entries of the part of number i, prepared. [01:KT8]
fn keys_of(parts: &[u8], n: usize, i: usize) -> EntryKeys
    requires { (length parts.now ≡ 128 * n) × ((i < n) × (n ≤ 8)) }
    ensures { Prepared result.mt (find_mt (part_find (get_or (rows 128 n parts.now) i []))) × Prepared result.me (find_me (part_find (get_or (rows 128 n parts.now) i []))) }
{
    let a = PART_TOKEN * i;
    let e = a + 32;
    let f = a + 64;
    let mt = hmac::prepare(&parts[a..e]);
    let me = hmac::prepare(&parts[e..f]);
    EntryKeys { mt, me }
}

// The find of the part of number at, by its counts, with the ids that every other part has. [02:W4.19 W4.21]
fn give_chosen(
    store: &[u8],
    z: Shape,
    parts: &[u8],
    n: usize,
    c: Choice,
    output: &mut [u8],
) -> Result<u64, Refusal>
    requires store_value { (checked_of store.now ≡ Ok z) × ((length parts.now ≡ 128 * n) × (n ≤ 8)) }
    requires at_lt_n { (c.at < n) × Sound (share_reading program store.now (find_cl (part_find (get_or (rows 128 n parts.now) c.at [])))) z.p c.counts }
    ensures result_value { counted result ≡ given_answer (kept_of ((cut store.now).table table_r) c.at (rows 128 n parts.now) (ids_found program store.now (part_find (get_or (rows 128 n parts.now) c.at [])))) output.old }
    ensures output_after { output.new ≡ given_output (kept_of ((cut store.now).table table_r) c.at (rows 128 n parts.now) (ids_found program store.now (part_find (get_or (rows 128 n parts.now) c.at [])))) output.old }
{
    let m = z.m;
    let r = z.r;
    let a = m.start;
    let e = m.end;
    let x = r.start;
    let y = r.end;
    let at = c.at;
    let keys = keys_of(parts, n, at);
    let counts = c.counts;
    let of = counts.of;
    if counts.sum <= MOST_ROWS as u64 {
        return give_within::<FEW>(
            &store[a..e],
            m.rows,
            m.rows - m.free,
            keys,
            of,
            z.p,
            &store[x..y],
            r.rows,
            r.rows - r.free,
            parts,
            n,
            at,
            output,
        );
    }
    give_within::<MANY>(
        &store[a..e],
        m.rows,
        m.rows - m.free,
        keys,
        of,
        z.p,
        &store[x..y],
        r.rows,
        r.rows - r.free,
        parts,
        n,
        at,
        output,
    )
}

// A joint find in a store that passed the checks, of 1 to 8 parts: refused by 13 and 18. [02:W4.22 W4.23]
fn joint_in(store: &[u8], z: Shape, parts: &[u8], output: &mut [u8]) -> Result<u64, Refusal>
    requires { (checked_of store.now ≡ Ok z) × (parts_bad parts.now ≡ false) }
    ensures result_value { counted result ≡ (joint_find_of program store.now parts.now output.old).answer }
    ensures output_after { output.new ≡ (joint_find_of program store.now parts.now output.old).output }
{
    let n = parts.len() / PART_TOKEN;
    let Ok(best) = choosing::choose(store, z, parts, n) else {
        return Err(Refusal::Damage);
    };
    give_chosen(store, z, parts, n, best, output)
}

// Whether a joint find's parts are other than 1 to 8 of 128 bytes. [02:W4.18]
fn bad_parts(parts: &[u8]) -> bool
    ensures { result ≡ parts_bad parts.now }
{
    let n = parts.len();
    if n % PART_TOKEN != 0 {
        return true;
    }
    if n / PART_TOKEN < 1 {
        return true;
    }
    8 < n / PART_TOKEN
}

// The ids that the parts have in common, in the order of the one that counts least, at the start of the
// output, and how many: refused by 6, 10, 11, 20, 13 and 18, with the output as lent.
// [02:W4.18 W4.19 W4.21 W4.22 W4.23]
#[tactic(auto, using(crate::proofs::Laws::unfit_store))]
pub fn joint_find(store: &[u8], parts: &[u8], output: &mut [u8]) -> Result<u64, Refusal>
    ensures result_value { counted result ≡ (joint_find_of program store.now parts.now output.old).answer }
    ensures output_after { output.new ≡ (joint_find_of program store.now parts.now output.old).output }
{
    if bad_parts(parts) {
        return Err(Refusal::TokenLength);
    }
    let z = store::sizes(store)?;
    joint_in(store, z, parts, output)
}
