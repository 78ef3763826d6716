// One table of the store: rows of any width over a lent part that holds n rows of w bytes (document
// 01, "Store"). The definitions stand in specs/Table.antt, the laws in proofs/Rows.antt and Walk.antt.
#![tactic(auto)]

ghost use Rattle.std.specs.Prelude.{◌≡◌, cond, not, ◌&&◌, ◌+◌, ◌*◌, ◌<◌, ◌≤◌, length, take, set};
ghost use Rattle.table.specs.Lists.{same as same_bytes};
ghost use Rattle.table.specs.Table.{rows, is_free, body, free_rows, mark_bad};
ghost use Rattle.table.specs.Order.{precedes as precedes_bytes};

// How many rows are free: as an Err where a mark above the greatest stands. All in one pass over the marks. [01:ST5 RS3]
pub fn survey(t: &[u8], w: usize, n: usize, most: u8) -> Result<usize, usize>
    requires { (1 ≤ w) × (length t.now ≡ w * n) }
    ensures { result ≡ cond (mark_bad most (rows w n t.now)) (Err (free_rows (rows w n t.now))) (Ok (free_rows (rows w n t.now))) }
{
    let mut bad = false;
    let mut free = 0;
    for i in 0..n {
        let mark = t[w * i];
        bad |= most < mark;
        free += usize::from(mark == 0);
    }
    if bad { Err(free) } else { Ok(free) }
}

// How many rows are free.
pub fn count_free(t: &[u8], w: usize, n: usize) -> usize
    requires { (1 ≤ w) × (length t.now ≡ w * n) }
    ensures { result ≡ free_rows (rows w n t.now) }
{
    let mut free = 0;
    for i in 0..n {
        free += usize::from(t[w * i] == 0);
    }
    free
}

// Whether a row is used and its body starts with a key.
#[tactic(auto, using(crate::proofs::Walk::starts_said))]
pub fn starts(row: &[u8], key: &[u8]) -> bool
    requires { length key.now < length row.now }
    ensures { result ≡ (not (is_free row.now) && same_bytes (take (length key.now) (body row.now)) key.now) }
{
    row[0] != 0 && row[1..].starts_with(key)
}

// Whether the first of two texts of one length comes before the second, byte by byte. [02:W2.2]
pub fn precedes(a: &[u8], b: &[u8]) -> bool
    requires { length a.now ≡ length b.now }
    ensures { result ≡ precedes_bytes a.now b.now }
{
    // A loop that ends at the first byte that differs: std's `a < b` takes 5 ns more, of which a search has twelve.
    for i in 0..b.len() {
        if a[i] < b[i] {
            return true;
        }
        if b[i] < a[i] {
            return false;
        }
    }
    false
}

// Writes a row; every other row keeps its bytes. [01:ST15]
#[tactic(auto, using(crate::proofs::Walk::rows_back))]
pub fn put_row(t: &mut [u8], w: usize, n: usize, i: usize, row: &[u8])
    requires { (i < n) × ((length row.now ≡ w) × (length t.old ≡ w * n)) }
    ensures { rows w n t.new ≡ set (rows w n t.old) i row.now }
{
    let at = w * i;
    let e = at + w;
    t[at..e].copy_from_slice(row);
}
