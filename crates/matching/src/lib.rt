// Rows of two tables in form whose tag the other lacks (the request "Check"): a tag of one table is searched in the
// other, near a place that its first bits hint at, and the first row that has it is flagged.
#![tactic(auto)]

ghost use Rattle.std.specs.Prelude.{◌≡◌, ◌&&◌, ◌⊎◌, [], map, ◌+◌, ◌*◌, ◌-◌, ◌<◌, ◌≤◌, eqb, ltb, length, take, drop, get_or};
ghost use Rattle.table.specs.Lists.{lacking as lacking_in};
ghost use Rattle.table.specs.Table.{rows, used as used_in, place_of};
ghost use Rattle.table.specs.Order.{Searchable};
ghost use Rattle.matching.specs.Matching.{bucket_of, hinted, reached, unflagged as unflagged_in};

use repeats::alike;

// The most rows of a table whose rows are flagged.
const MOST_ROWS: usize = 4096;

// A hint for each of the first fourteen bits that a tag can have.
const BUCKETS: usize = 16384;

// The rows of two tables whose tag the other lacks.
#[derive(Clone, Copy)]
pub struct Unmatched {
    // Of the table that is searched.
    pub left: u64,
    // Of the other.
    pub lost: u64,
}

// The first fourteen bits of the text at a place.
fn bucket(t: &[u8], a: usize) -> usize
    requires { a + 2 ≤ length t.now }
    ensures { (result ≡ bucket_of (drop a t.now)) × (result < 16384) }
{
    (256 * usize::from(t[a]) + usize::from(t[a + 1])) / 4
}

// For each bucket the first used row whose tag is in it.
fn hint(t: &[u8], w: usize, n: usize, u: usize, hints: &mut [u16])
    requires { ((33 ≤ w) × (length t.now ≡ w * n)) × (((u ≤ n) × (n ≤ 4096)) × (length hints.old ≡ 16384)) }
    ensures { hints.new ≡ hinted u (rows w n t.now) hints.old }
{
    for i in (0..u).rev() {
        let b = bucket(t, w * i + 1);
        hints[b] = i as u16;
    }
}

// Whether row i is the first used one with a tag.
fn begins(t: &[u8], w: usize, n: usize, u: usize, i: usize, tag: &[u8]) -> bool
    requires { (((33 ≤ w) × (length tag.now ≡ 32)) × (length t.now ≡ w * n)) × Searchable w u (rows w n t.now) }
    ensures { result ≡ (ltb i u && eqb i (place_of tag.now (rows w n t.now))) }
{
    if u <= i {
        return false;
    }
    let a = w * i + 1;
    if !alike(t, a, tag, 0, 32) {
        return false;
    }
    if i < 1 {
        return true;
    }
    !alike(t, a - w, tag, 0, 32)
}

// The used row of lowest index with a tag, n where there is none: the row that is hinted at, or the next,
// or one search. [check:9]
fn near(t: &[u8], w: usize, n: usize, u: usize, tag: &[u8], i: usize) -> usize
    requires { ((((33 ≤ w) × (length tag.now ≡ 32)) × (length t.now ≡ w * n)) × Searchable w u (rows w n t.now)) × (i < 65536) }
    ensures { result ≡ place_of tag.now (rows w n t.now) }
{
    if begins(t, w, n, u, i, tag) {
        return i;
    }
    let next = i + 1;
    if begins(t, w, n, u, next, tag) {
        return next;
    }
    let from = search::lower(t, w, n, u, tag);
    search::settled(t, w, n, u, tag, from)
}

// The same, by the hint of the tag's bucket.
fn place(t: &[u8], w: usize, n: usize, u: usize, hints: &[u16], tag: &[u8]) -> usize
    requires { ((((33 ≤ w) × (length tag.now ≡ 32)) × (length t.now ≡ w * n)) × Searchable w u (rows w n t.now)) × (length hints.now ≡ 16384) }
    ensures { result ≡ place_of tag.now (rows w n t.now) }
{
    let b = bucket(tag, 0);
    near(t, w, n, u, tag, usize::from(hints[b]))
}

// Flags the first used row of a table with the tag of each used row of another, where a tag is the last 32
// bytes, and tells how many of these tags no row has. [check:4]
fn reach(
    t: &[u8],
    w: usize,
    n: usize,
    u: usize,
    hints: &[u16],
    v: &[u8],
    width: usize,
    m: usize,
    used: usize,
    flags: &mut [u8],
) -> u64
    requires le_w { (((33 ≤ w) × (length t.now ≡ w * n)) × Searchable w u (rows w n t.now)) × ((length hints.now ≡ 16384) × (n ≤ length flags.old)) }
    requires le_width { ((33 ≤ width) × (length v.now ≡ width * m)) × Searchable width used (rows width m v.now) }
    ensures value { result ≡ lacking_in (map (drop (width - 33)) (used_in (rows width m v.now))) (map (take 32) (used_in (rows w n t.now))) }
    ensures flags_after { flags.new ≡ reached (rows w n t.now) (map (drop (width - 33)) (used_in (rows width m v.now))) flags.old }
{
    let mut lost = 0;
    for j in 0..used {
        let e = width * j + width;
        let a = e - 32;
        let i = place(t, w, n, u, hints, &v[a..e]);
        if i < n {
            flags[i] = 1;
        } else {
            lost += 1;
        }
    }
    lost
}

// Where the rows with the tag of row i begin, given where those with the tag of the row before it do.
fn start(t: &[u8], w: usize, n: usize, u: usize, i: usize, first: usize) -> usize
    requires le_w { (((33 ≤ w) × (length t.now ≡ w * n)) × Searchable w u (rows w n t.now)) × (i < u) }
    requires i_value { i ≡ 0 ⊎ (first ≡ place_of (get_or (map (take 32) (used_in (rows w n t.now))) (i - 1) []) (rows w n t.now)) }
    ensures { result ≡ place_of (get_or (map (take 32) (used_in (rows w n t.now))) i []) (rows w n t.now) }
{
    if i < 1 {
        return i;
    }
    let a = w * i + 1;
    if alike(t, a - w, t, a, 32) { first } else { i }
}

// How many used rows have a tag whose first row has no flag. [check:5]
fn unflagged(t: &[u8], w: usize, n: usize, u: usize, flags: &[u8]) -> u64
    requires { (((33 ≤ w) × (length t.now ≡ w * n)) × Searchable w u (rows w n t.now)) × (n ≤ length flags.now) }
    ensures { result ≡ unflagged_in (rows w n t.now) flags.now }
{
    let mut left = 0;
    let mut first = 0;
    for j in 0..u {
        first = start(t, w, n, u, j, first);
        if flags[first] == 0 {
            left += 1;
        }
    }
    left
}

// The rows of each of two tables whose tag the other lacks: in the first a tag stands at the front, in the
// other it is the last 32 bytes. [check:4 check:5 check:9]
pub fn compare_tags(
    t: &[u8],
    w: usize,
    n: usize,
    u: usize,
    v: &[u8],
    width: usize,
    m: usize,
    used: usize,
) -> Unmatched
    requires le_w { (((33 ≤ w) × (n ≤ 4096)) × (length t.now ≡ w * n)) × Searchable w u (rows w n t.now) }
    requires le_width { ((33 ≤ width) × (length v.now ≡ width * m)) × Searchable width used (rows width m v.now) }
    ensures left_value { result.left ≡ lacking_in (map (take 32) (used_in (rows w n t.now))) (map (drop (width - 33)) (used_in (rows width m v.now))) }
    ensures lost_value { result.lost ≡ lacking_in (map (drop (width - 33)) (used_in (rows width m v.now))) (map (take 32) (used_in (rows w n t.now))) }
{
    let mut hints = [0u16; BUCKETS];
    let mut flags = [0u8; MOST_ROWS];
    hint(t, w, n, u, &mut hints);
    let lost = reach(t, w, n, u, &hints, v, width, m, used, &mut flags);
    let left = unflagged(t, w, n, u, &flags);
    Unmatched { left, lost }
}
