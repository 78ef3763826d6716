// Check: what can be seen of a store without a key (the request "Check"). It counts rows that do not go
// together: 0 of each in every store that the calls of this library have left.
#![tactic(auto)]

ghost use Rattle.std.specs.Prelude.{◌≡◌, ◌-◌, ◌≤◌, map, take};
ghost use Rattle.table.specs.Lists.{repeats, lacking};
ghost use Rattle.answer.specs.Answer.{faults_of, inspected};
ghost use Rattle.table.specs.Table.{used};
ghost use Rattle.scheme.specs.Store.{table_m, table_v, width_of, cut};
ghost use Rattle.scheme.specs.Check.{tags_in, reverse_tags, faults, check as check_of};
ghost use Rattle.store.specs.Check.{checked_of};
ghost use Rattle.store.specs.Tables.{table_of};
ghost use Rattle.consistency.specs.Ready.{Ready};

use answer::{Faults, Refusal};
use matching::Unmatched;
use store::{C_WIDTH, M_WIDTH, Part, R_WIDTH, Shape, V_WIDTH};

// The rows of a part whose tag a row before them has. [check:2 check:3]
fn repeated(store: &[u8], part: Part, w: usize) -> u64
    requires { Ready store.now part w × (33 ≤ w) }
    ensures { result ≡ repeats (tags_in (table_of store.now part w)) }
{
    let a = part.start;
    let e = part.end;
    repeats::repeats(&store[a..e], w, part.rows, part.rows - part.free)
}

// The rows of M and of V whose tag the other lacks. [check:4 check:5]
fn unmatched(store: &[u8], m: Part, v: Part) -> Unmatched
    requires { (Ready store.now m (width_of table_m) × (m.rows ≤ 4096)) × Ready store.now v (width_of table_v) }
    ensures left_value { result.left ≡ lacking (tags_in (table_of store.now m (width_of table_m))) (reverse_tags (table_of store.now v (width_of table_v))) }
    ensures lost_value { result.lost ≡ lacking (reverse_tags (table_of store.now v (width_of table_v))) (tags_in (table_of store.now m (width_of table_m))) }
{
    let a = m.start;
    let e = m.end;
    let b = v.start;
    let f = v.end;
    matching::compare_tags(
        &store[a..e],
        M_WIDTH,
        m.rows,
        m.rows - m.free,
        &store[b..f],
        V_WIDTH,
        v.rows,
        v.rows - v.free,
    )
}

// The rows of a part whose id no row of another has. [check:6 check:7]
fn without(store: &[u8], x: Part, w: usize, y: Part, width: usize) -> u64
    requires { (Ready store.now x w × (17 ≤ w)) × (Ready store.now y width × (17 ≤ width)) }
    ensures { result ≡ lacking (map (take 16) (used (table_of store.now x w))) (map (take 16) (used (table_of store.now y width))) }
{
    let a = x.start;
    let e = x.end;
    let b = y.start;
    let f = y.end;
    lacking::lacking_ids(
        &store[a..e],
        w,
        x.rows,
        x.rows - x.free,
        &store[b..f],
        width,
        y.rows,
        y.rows - y.free,
    )
}

// The seven numbers of a store that passed the checks.
fn count_faults(store: &[u8], z: Shape) -> Faults
    requires { checked_of store.now ≡ Ok z }
    ensures { faults_of result ≡ faults (cut store.now) }
{
    let m = z.m;
    let v = z.v;
    let c = z.c;
    let r = z.r;
    let mm = repeated(store, m, M_WIDTH);
    let cc = repeated(store, c, C_WIDTH);
    let tags = unmatched(store, m, v);
    let vr = without(store, v, V_WIDTH, r, R_WIDTH);
    let rv = without(store, r, R_WIDTH, v, V_WIDTH);
    let excess = octets::above(r.rows - r.free, v.rows - v.free) as u64;
    Faults {
        mm,
        cc,
        vm: tags.lost,
        mv: tags.left,
        vr,
        rv,
        excess,
    }
}

// Counts the rows of a store that do not go together; refused by 10, 11 and 20. It changes nothing, and
// takes no key. [check:1 check:2 check:3 check:4 check:5 check:6 check:7 check:8 check:9]
#[tactic(auto, using(crate::proofs::Laws::check_refused))]
pub fn check(store: &[u8]) -> Result<Faults, Refusal>
    ensures { inspected result ≡ (check_of store.now).answer }
{
    let z = store::sizes(store)?;
    Ok(count_faults(store, z))
}
