// The check that a table is in form (document 02, "Rows in byte order"). It runs in every call, so
// neighbours are compared by their first eight bytes, and free rows are tested with no early exit.
#![tactic(auto)]

ghost use Rattle.std.specs.Prelude.{◌≡◌, ◌+◌, ◌*◌, ◌-◌, ◌<◌, ◌≤◌, length, take, replicate};
ghost use Rattle.octets.specs.Compare.{same as same_bytes};
ghost use Rattle.octets.specs.Number.{number};
ghost use Rattle.table.specs.Table.{rows, free_rows};
ghost use Rattle.table.specs.Order.{precedes as precedes_bytes, ascending, in_form};

// The first eight bytes as one number, big-endian: the compiler makes one load of it.
fn eight(r: &[u8]) -> u64
    requires { 8 ≤ length r.now }
    ensures { result ≡ number (take 8 r.now) }
{
    octets::get(&r[..8])
}

// Whether the first of two rows comes before the second: by their first eight bytes as one number,
// and byte by byte only where these are equal.
#[tactic(auto, using(crate::proofs::Laws::eight_before, crate::proofs::Laws::eight_after))]
fn comes_before(a: &[u8], b: &[u8]) -> bool
    requires { (8 ≤ length a.now) × (length a.now ≡ length b.now) }
    ensures { result ≡ precedes_bytes a.now b.now }
{
    let x = eight(a);
    let y = eight(b);
    if y < x {
        return false;
    }
    if x < y {
        return true;
    }
    table::precedes(a, b)
}

// Whether the first u rows ascend, by neighbours. [02:W2.2]
#[tactic(auto, using(table::proofs::Walk::row_part, crate::proofs::Laws::rising, crate::proofs::Laws::rising_next, crate::proofs::Laws::rising_end, crate::proofs::Laws::one_back, crate::proofs::Laws::row_before, crate::proofs::Laws::part_before, crate::proofs::Rules::ascend_rules))]
fn ascend(t: &[u8], w: usize, n: usize, u: usize) -> bool
    requires { (8 ≤ w) × ((u ≤ n) × (length t.now ≡ w * n)) }
    ensures { result ≡ ascending (take u (rows w n t.now)) }
{
    for i in 1..u {
        let b = w * i;
        let a = b - w;
        let e = b + w;
        if comes_before(&t[b..e], &t[a..b]) {
            return false;
        }
    }
    true
}

// Whether all bytes are zero. There is no early exit: that is what makes it fast. [02:W2.3]
#[tactic(auto, using(crate::proofs::Laws::zeros_next, crate::proofs::Laws::zeros_end))]
fn blank(t: &[u8]) -> bool
    ensures { result ≡ same_bytes t.now (replicate (length t.now) 0) }
{
    let mut seen: u8 = 0;
    for x in t {
        seen |= *x;
    }
    seen == 0
}

// Whether a table is in form, given how many of its rows are free. [02:W2.1 W2.2 W2.3]
pub fn in_form(t: &[u8], w: usize, n: usize, free: usize) -> bool
    requires { (8 ≤ w) × ((length t.now ≡ w * n) × (free ≡ free_rows (rows w n t.now))) }
    ensures { result ≡ in_form w (rows w n t.now) }
{
    let u = n - free;
    let at = w * u;
    ascend(t, w, n, u) && blank(&t[at..])
}
