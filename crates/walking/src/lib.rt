// The walk of a count's lookup through a table in form (document 02, "Stop early, and say the rows
// read"): from the first row on, and rows are counted as they are looked at.
#![tactic(auto)]

ghost use Rattle.std.specs.Prelude.{◌≡◌, ◌+◌, ◌*◌, ◌≤◌, length, take, drop};
ghost use Rattle.table.specs.Table.{rows, place_of};
ghost use Rattle.table.specs.Order.{precedes as precedes_bytes, Searchable};
ghost use Rattle.table.specs.Search.{first_not_before};
ghost use Rattle.table.specs.Looked.{looked_at};

use search::settled;

// Where a walk has come to, and how many rows were looked at on the way.
#[derive(Clone, Copy)]
pub struct Walked {
    pub at: usize,
    pub rows: u64,
}

// Whether the tag at a place comes before another: the first byte tells mostly.
fn smaller(t: &[u8], a: usize, tag: &[u8]) -> bool
    requires { (length tag.now ≡ 32) × (a + 32 ≤ length t.now) }
    ensures { result ≡ precedes_bytes (take 32 (drop a t.now)) tag.now }
{
    if t[a] < tag[0] {
        return true;
    }
    let e = a + 32;
    table::precedes(&t[a..e], tag)
}

// The first used row whose tag isn't smaller, which is looked at too and ends the walk; u, the number
// of used rows, where there is none. [02:W3.1 W3.2 W3.3 W3.9]
fn passed(t: &[u8], w: usize, n: usize, u: usize, tag: &[u8]) -> Walked
    requires { (((33 ≤ w) × (length tag.now ≡ 32)) × (length t.now ≡ w * n)) × Searchable w u (rows w n t.now) }
    ensures at_value { result.at ≡ first_not_before tag.now (rows w n t.now) }
    ensures rows_value { result.rows ≡ looked_at tag.now (rows w n t.now) }
{
    let mut rows = 0;
    for i in 0..u {
        rows += 1;
        if !smaller(t, w * i + 1, tag) {
            return Walked { at: i, rows };
        }
    }
    Walked { at: u, rows }
}

// The used row of lowest index with a tag, n where there is none, and the rows looked at.
// [01:ST13] [02:W3.1]
pub fn walk(t: &[u8], w: usize, n: usize, u: usize, tag: &[u8]) -> Walked
    requires { (((33 ≤ w) × (length tag.now ≡ 32)) × (length t.now ≡ w * n)) × Searchable w u (rows w n t.now) }
    ensures at_value { result.at ≡ place_of tag.now (rows w n t.now) }
    ensures rows_value { result.rows ≡ looked_at tag.now (rows w n t.now) }
{
    let end = passed(t, w, n, u, tag);
    Walked {
        at: settled(t, w, n, u, tag, end.at),
        rows: end.rows,
    }
}
