// Which ids of a find other parts have too (document 02, "Find by several fields"): each of the ids that are
// kept in an index has a flag, and the test of a part sets the flags of those that it says no to.
#![tactic(auto)]

ghost use Rattle.std.specs.Prelude.{◌≡◌, ◌+◌, ◌*◌, ◌-◌, ◌≤◌, ◌<◌, length, take, drop};
ghost use Rattle.octets.specs.Part.{written};
ghost use Rattle.table.specs.Lists.{flat};
ghost use Rattle.table.specs.Table.{rows};
ghost use Rattle.table.specs.Order.{Searchable};
ghost use Rattle.scheme.specs.Store.{table_m, table_r, width_of};
ghost use Rattle.scheme.specs.Keys.{part_rl};
ghost use Rattle.scheme.specs.Test.{tests as tests_of};
ghost use Rattle.suite.specs.Program.{program};
ghost use Rattle.chains.specs.Chains.{id_by, kept as kept_in, row_at, kept_ids, Readable, Chained};
ghost use Rattle.test.specs.Marked.{tests_by};
ghost use Rattle.sifting.specs.Sifting.{flag_of, sifted, sifted_by, stays, staying, unset};

use format::{FIND_TOKEN, ID, PART_TOKEN};
use hmac::Keyed;

// The flag of the id of number i after a test with the prepared RL; one that is set stays so.
// [02:W4.21]
fn flag_of(
    t: &[u8],
    m: usize,
    me: Keyed,
    index: &[u32],
    ids: &[u8],
    i: usize,
    labels: &[u8],
    r: usize,
    used: usize,
    rl: Keyed,
    flag: u8,
) -> u8
    requires t_len { (length t.now ≡ width_of table_m * m) × Readable me (rows (width_of table_m) m t.now) index.now ids.now i }
    requires labels_len { (length labels.now ≡ width_of table_r * r) × Searchable (width_of table_r) used (rows (width_of table_r) r labels.now) }
    ensures { result ≡ flag_of (tests_by rl (rows (width_of table_r) r labels.now)) (id_by me (rows (width_of table_m) m t.now) (row_at index.now i)) flag }
{
    if flag != 0 {
        return flag;
    }
    let id = chains::id_at(t, m, me, index, ids, i);
    if test::tests(labels, r, used, rl, &id) {
        0
    } else {
        1
    }
}

// The flags of the n ids that are kept, after a test of each with the prepared RL. [02:W4.21]
fn sift(
    t: &[u8],
    m: usize,
    me: Keyed,
    index: &[u32],
    ids: &[u8],
    n: usize,
    labels: &[u8],
    r: usize,
    used: usize,
    rl: Keyed,
    flags: &mut [u8],
)
    requires t_len { (length t.now ≡ width_of table_m * m) × (Chained me (rows (width_of table_m) m t.now) (kept_in index.now ids.now n) × (n ≤ length flags.old)) }
    requires labels_len { (length labels.now ≡ width_of table_r * r) × Searchable (width_of table_r) used (rows (width_of table_r) r labels.now) }
    ensures { flags.new ≡ sifted (tests_by rl (rows (width_of table_r) r labels.now)) (kept_ids me (rows (width_of table_m) m t.now) index.now n) flags.old }
{
    for i in 0..n {
        let flag = flags[i];
        flags[i] = flag_of(t, m, me, index, ids, i, labels, r, used, rl, flag);
    }
}

// The flags after the tests of the parts from one number up to another; each RL is prepared once.
// [02:W4.21]
pub fn sift_parts(
    t: &[u8],
    m: usize,
    me: Keyed,
    index: &[u32],
    ids: &[u8],
    n: usize,
    labels: &[u8],
    r: usize,
    used: usize,
    parts: &[u8],
    from: usize,
    to: usize,
    flags: &mut [u8],
)
    requires t_len { (length t.now ≡ width_of table_m * m) × (Chained me (rows (width_of table_m) m t.now) (kept_in index.now ids.now n) × (n ≤ length flags.old)) }
    requires labels_len { ((length labels.now ≡ width_of table_r * r) × Searchable (width_of table_r) used (rows (width_of table_r) r labels.now)) × ((128 * to ≤ length parts.now) × (to ≤ 8)) }
    ensures { flags.new ≡ sifted_by (λ p. tests_of program (rows (width_of table_r) r labels.now) (part_rl p)) (kept_ids me (rows (width_of table_m) m t.now) index.now n) (drop from (rows 128 to parts.now)) flags.old }
{
    for i in from..to {
        let a = PART_TOKEN * i + FIND_TOKEN;
        let e = PART_TOKEN * i + PART_TOKEN;
        let rl = hmac::prepare(&parts[a..e]);
        sift(t, m, me, index, ids, n, labels, r, used, rl, flags);
    }
}

// How many of the first n flags are not set.
#[tactic(auto, using(crate::proofs::Laws::unset_is))]
pub fn kept(flags: &[u8], n: usize) -> usize
    requires { n ≤ length flags.now }
    ensures { result ≡ unset n flags.now }
{
    flags[..n].iter().filter(|f| **f == 0).count()
}

// Writes the id of number i as the one of place k, unless its flag is set; answers the next place.
fn put(
    t: &[u8],
    m: usize,
    me: Keyed,
    index: &[u32],
    ids: &[u8],
    i: usize,
    flag: u8,
    k: usize,
    output: &mut [u8],
) -> usize
    requires t_len { (length t.now ≡ width_of table_m * m) × Readable me (rows (width_of table_m) m t.now) index.now ids.now i }
    requires i_in_bounds { 16 * (k + length (stays flag (id_by me (rows (width_of table_m) m t.now) (row_at index.now i)))) ≤ length output.old }
    ensures value { result ≡ k + length (stays flag (id_by me (rows (width_of table_m) m t.now) (row_at index.now i))) }
    ensures output_after { output.new ≡ written output.old (16 * k) (flat (stays flag (id_by me (rows (width_of table_m) m t.now) (row_at index.now i)))) }
{
    if flag != 0 {
        return k;
    }
    let id = chains::id_at(t, m, me, index, ids, i);
    octets::copy_at(output, ID * k, &id);
    k + 1
}

// Writes those of the n ids that are kept whose flags are not set to the start of the output.
pub fn write(
    t: &[u8],
    m: usize,
    me: Keyed,
    index: &[u32],
    ids: &[u8],
    n: usize,
    flags: &[u8],
    output: &mut [u8],
)
    requires { (length t.now ≡ width_of table_m * m) × (Chained me (rows (width_of table_m) m t.now) (kept_in index.now ids.now n) × ((n ≤ length flags.now) × (16 * unset n flags.now ≤ length output.old))) }
    ensures { output.new ≡ written output.old 0 (flat (staying (kept_ids me (rows (width_of table_m) m t.now) index.now n) flags.now)) }
{
    let mut k: usize = 0;
    for i in 0..n {
        k = put(t, m, me, index, ids, i, flags[i], k, output);
    }
}
