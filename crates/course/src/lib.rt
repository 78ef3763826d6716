// The course of a compaction over table C (document 01, "Operations"): the distinct CL of the log, one after
// the other, in the order of their first rows, up to one that damage stops. One CL is treated in treatment.
#![tactic(auto)]

ghost use Rattle.std.specs.Prelude.{◌≡◌, cond, [], ◌++◌, ◌+◌, ◌*◌, ◌≤◌, ◌<◌, eqb, length, get_or, drop};
ghost use Rattle.table.specs.Table.{rows};
ghost use Rattle.table.specs.Order.{used_rows, Searchable};
ghost use Rattle.scheme.specs.Store.{table_c, width_of};
ghost use Rattle.scheme.specs.Reading.{reading};
ghost use Rattle.suite.specs.Program.{program};
ghost use Rattle.firsts.specs.Firsts.{firsts};
ghost use Rattle.course.specs.Totals.{stops, counters_in, totals_after};
ghost use Rattle.course.specs.Course.{course_of, step_by, course_to, treated_to};

use answer::Tally;
use format::NONCE;
use treatment::Treated;

// The CL of a row in the log.
fn cl_at(log: &[u8], n: usize, i: usize) -> [u8; 32]
    requires { (i < n) × (32 * n ≤ length log.now) }
    ensures { result ≡ get_or (rows 32 n log.now) i [] }
{
    let at = 32 * i;
    let e = at + 32;
    let mut cl = [0u8; 32];
    cl.copy_from_slice(&log[at..e]);
    cl
}

// Whether damage stops the compaction. [01:RS13]
fn stopped(r: Treated) -> bool
    ensures { result ≡ stops r }
{
    match r {
        Treated::Damage => true,
        Treated::Skipped | Treated::Anchored(_) => false,
    }
}

// The totals after one CL more. [01:OP13]
fn added(t: Tally, r: Treated) -> Tally
    requires { (t.anchors ≤ 4096) × ((t.counters ≤ 4096 * 4096) × (counters_in r ≤ 4096)) }
    ensures { result ≡ totals_after t r }
{
    match r {
        Treated::Damage | Treated::Skipped => t,
        Treated::Anchored(k) => Tally {
            anchors: t.anchors + 1,
            counters: t.counters + k,
        },
    }
}

// Where the treatment stands: the totals, how many rows of C are used, and whether damage stopped it.
#[derive(Clone, Copy)]
struct Standing {
    totals: Tally,
    used: usize,
    stopped: bool,
}

// Treats one CL in table C, under the nonce of the next anchor. [01:OP11 OP13 RS13]
fn treat_one(t: &mut [u8], c: usize, z: Standing, nonces: &[u8], cl: &[u8; 32]) -> Standing
    requires { ((length t.old ≡ width_of table_c * c) × (c ≤ 4096)) × (Searchable (width_of table_c) z.used (rows (width_of table_c) c t.old) × ((12 * z.totals.anchors + 12 ≤ length nonces.now) × ((z.totals.anchors ≤ 4096) × (z.totals.counters ≤ 4096 * 4096)))) }
    ensures stopped_after { course_of (rows (width_of table_c) c t.new) result.totals result.stopped ≡ step_by nonces.now cl.now (course_of (rows (width_of table_c) c t.old) z.totals z.stopped) (reading program c cl.now (rows (width_of table_c) c t.old)) }
    ensures used_value { result.used ≡ length (used_rows (rows (width_of table_c) c t.new)) }
{
    let totals = z.totals;
    let from = NONCE * totals.anchors as usize;
    let to = from + NONCE;
    let r = treatment::treat(t, c, z.used, cl, &nonces[from..to]);
    let done = r.treated;
    Standing {
        totals: added(totals, done),
        used: r.used,
        stopped: stopped(done),
    }
}

// Treats the CL of row i of the log, if that row is the first with it.
fn treat_row(
    t: &mut [u8],
    c: usize,
    z: Standing,
    nonces: &[u8],
    log: &[u8],
    n: usize,
    i: usize,
    first: usize,
) -> Standing
    requires t_len { ((length t.old ≡ width_of table_c * c) × (c ≤ 4096)) × (Searchable (width_of table_c) z.used (rows (width_of table_c) c t.old) × ((12 * z.totals.anchors + 12 ≤ length nonces.now) × ((z.totals.anchors ≤ 4096) × (z.totals.counters ≤ 4096 * 4096)))) }
    requires i_lt_n { (i < n) × (32 * n ≤ length log.now) }
    ensures stopped_after { course_of (rows (width_of table_c) c t.new) result.totals result.stopped ≡ cond (eqb first i) (step_by nonces.now (get_or (rows 32 n log.now) i []) (course_of (rows (width_of table_c) c t.old) z.totals z.stopped) (reading program c (get_or (rows 32 n log.now) i []) (rows (width_of table_c) c t.old))) (course_of (rows (width_of table_c) c t.old) z.totals z.stopped) }
    ensures used_value { result.used ≡ length (used_rows (rows (width_of table_c) c t.new)) }
{
    if first != i {
        return z;
    }
    let cl = cl_at(log, n, i);
    treat_one(t, c, z, nonces, &cl)
}

// How far the CL of the log were treated: the totals, the row that it ended before, and whether damage
// stopped it there.
#[derive(Clone, Copy)]
pub struct Progress {
    pub totals: Tally,
    pub upto: usize,
    pub stopped: bool,
}

// Treats the distinct CL of the log, in the order of their first rows, in table C. [01:OP10 OP11 RS13]
pub fn treat_firsts(
    t: &mut [u8],
    c: usize,
    u: usize,
    nonces: &[u8],
    log: &[u8],
    n: usize,
    first: &[u16],
) -> Progress
    requires t_len { ((length t.old ≡ width_of table_c * c) × (c ≤ 4096)) × (Searchable (width_of table_c) u (rows (width_of table_c) c t.old) × ((12 * n ≤ length nonces.now) × ((32 * n ≤ length log.now) × (n ≤ 4096)))) }
    requires first_value { first.now ≡ firsts (rows 32 n log.now) ++ drop n first.now }
    ensures stopped_after { course_of (rows (width_of table_c) c t.new) result.totals result.stopped ≡ course_to c nonces.now (rows 32 n log.now) (rows (width_of table_c) c t.old) n }
    ensures upto_value { result.upto ≡ treated_to c nonces.now (rows 32 n log.now) (rows (width_of table_c) c t.old) n }
{
    let none = Tally {
        anchors: 0,
        counters: 0,
    };
    let mut z = Standing {
        totals: none,
        used: u,
        stopped: false,
    };
    for i in 0..n {
        z = treat_row(t, c, z, nonces, log, n, i, usize::from(first[i]));
        if z.stopped {
            let totals = z.totals;
            return Progress {
                totals,
                upto: i,
                stopped: true,
            };
        }
    }
    let totals = z.totals;
    Progress {
        totals,
        upto: n,
        stopped: false,
    }
}
