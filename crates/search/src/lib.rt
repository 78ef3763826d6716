// Search in a table in form (document 02, "Rows in byte order") whose used rows all have mark 1.
#![tactic(auto)]

ghost use Rattle.std.specs.Prelude.{◌≡◌, true, false, ◌*◌, ◌<◌, ◌≤◌, length};
ghost use Rattle.table.specs.Table.{rows, mark_bad, place_of};
ghost use Rattle.table.specs.Order.{used_rows, in_form, Searchable};
ghost use Rattle.table.specs.Search.{first_not_before};

// The first row that is free or whose body, as far as a key goes, does not come before it. u is the
// number of used rows. [02:W2.2]
pub fn lower(t: &[u8], w: usize, n: usize, u: usize, key: &[u8]) -> usize
    requires key_len_bound { (length key.now < w) × (length t.now ≡ w * n) }
    requires t_value { (in_form w (rows w n t.now) ≡ true) × ((mark_bad 1 (rows w n t.now) ≡ false) × (u ≡ length (used_rows (rows w n t.now)))) }
    ensures { result ≡ first_not_before key.now (rows w n t.now) }
{
    let mut lo = 0;
    let mut hi = u;
    while lo < hi {
        let mid = lo + (hi - lo) / 2;
        let a = w * mid + 1;
        let e = a + key.len();
        if table::precedes(&t[a..e], key) {
            lo = mid + 1;
        } else {
            hi = mid;
        }
    }
    lo
}

// The used row of lowest index with a tag, n where there is none, given the first row that does not
// come before it. [01:ST13]
pub fn settled(t: &[u8], w: usize, n: usize, u: usize, tag: &[u8], i: usize) -> usize
    requires { (((33 ≤ w) × (length tag.now ≡ 32)) × (length t.now ≡ w * n)) × (Searchable w u (rows w n t.now) × (i ≡ first_not_before tag.now (rows w n t.now))) }
    ensures { result ≡ place_of tag.now (rows w n t.now) }
{
    if i < u {
        let at = w * i;
        let e = at + w;
        if table::starts(&t[at..e], tag) {
            return i;
        }
    }
    n
}

// The used row of lowest index with a tag; n where there is none. [01:ST13]
pub fn place(t: &[u8], w: usize, n: usize, u: usize, tag: &[u8; 32]) -> usize
    requires le_w { (33 ≤ w) × (length t.now ≡ w * n) }
    requires t_value { (in_form w (rows w n t.now) ≡ true) × ((mark_bad 1 (rows w n t.now) ≡ false) × (u ≡ length (used_rows (rows w n t.now)))) }
    ensures { result ≡ place_of tag.now (rows w n t.now) }
{
    let i = lower(t, w, n, u, tag);
    settled(t, w, n, u, tag, i)
}
