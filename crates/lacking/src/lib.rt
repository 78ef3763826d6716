// Rows of a table in form whose id another such table lacks (the request "Check"): both ascend by id, and are walked through
// together.
#![tactic(auto)]

ghost use Rattle.std.specs.Prelude.{◌≡◌, map, ◌+◌, ◌*◌, ◌≤◌, length, take, drop};
ghost use Rattle.table.specs.Lists.{lacking as lacking_in};
ghost use Rattle.table.specs.Table.{rows, used as used_in};
ghost use Rattle.table.specs.Order.{Searchable};
ghost use Rattle.lacking.specs.Meetings.{meeting_of, met_before};

use repeats::alike;
use std::cmp::Ordering;

// How the id of row j stands to the id at a place of a text; after it where there is no row.
fn compare_id(x: &[u8], a: usize, t: &[u8], w: usize, n: usize, u: usize, j: usize) -> Ordering
    requires { (((17 ≤ w) × (length t.now ≡ w * n)) × Searchable w u (rows w n t.now)) × (a + 16 ≤ length x.now) }
    ensures { result ≡ meeting_of (take 16 (drop a x.now)) (map (take 16) (used_in (rows w n t.now))) j }
{
    if u <= j {
        return Ordering::Greater;
    }
    let b = w * j + 1;
    let d = a + 16;
    let e = b + 16;
    t[b..e].cmp(&x[a..d])
}

// Whether the row before row j has the id at a place of a text.
fn was_met(x: &[u8], a: usize, t: &[u8], w: usize, n: usize, u: usize, j: usize) -> bool
    requires { (((17 ≤ w) × (length t.now ≡ w * n)) × Searchable w u (rows w n t.now)) × ((a + 16 ≤ length x.now) × (j ≤ u)) }
    ensures { result ≡ met_before (take 16 (drop a x.now)) (map (take 16) (used_in (rows w n t.now))) j }
{
    if j < 1 {
        return false;
    }
    alike(x, a, t, w * j + 1 - w, 16)
}

// How many used rows of a table have an id, their first 16 bytes, that no used row of another has: both
// ascend by id, and are walked through together. [check:6 check:7 check:9]
pub fn lacking_ids(
    t: &[u8],
    w: usize,
    n: usize,
    u: usize,
    v: &[u8],
    width: usize,
    m: usize,
    used: usize,
) -> u64
    requires le_w { ((17 ≤ w) × (length t.now ≡ w * n)) × Searchable w u (rows w n t.now) }
    requires le_width { ((17 ≤ width) × (length v.now ≡ width * m)) × Searchable width used (rows width m v.now) }
    ensures { result ≡ lacking_in (map (take 16) (used_in (rows w n t.now))) (map (take 16) (used_in (rows width m v.now))) }
{
    let mut r: u64 = 0;
    let mut k = 0;
    let mut j = 0;
    // No range: the walk goes on in one table or the other.
    while k < u {
        let a = w * k + 1;
        match compare_id(t, a, v, width, m, used, j) {
            Ordering::Equal => {
                k += 1;
                j += 1;
            }
            Ordering::Less => j += 1,
            Ordering::Greater => {
                if !was_met(t, a, v, width, m, used, j) {
                    r += 1;
                }
                k += 1;
            }
        }
    }
    r
}
