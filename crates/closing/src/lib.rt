// Rows given up in a table in form (document 02, "Rows in byte order"): those that stand together
// under a key are flagged, and the rows that are not flagged close up in one pass.
#![tactic(auto)]

ghost use Rattle.std.specs.Prelude.{◌≡◌, true, false, cond, [], ◌++◌, ◌+◌, ◌*◌, ◌-◌, ◌<◌, ◌≤◌, length, take, drop, get_or, set, replicate};
ghost use Rattle.octets.specs.Compare.{bit, same as same_bytes};
ghost use Rattle.table.specs.Lists.{count};
ghost use Rattle.table.specs.Table.{rows, mark_bad, used, free_rows, zero_row};
ghost use Rattle.table.specs.Order.{used_rows, in_form, reordered};
ghost use Rattle.closing.specs.Flags.{flagged, free_flagged, next_flagged, next_staying};

// Sets to 1 the flags of the used rows whose body starts with a key, and tells how many these are. u
// is the number of used rows.
pub fn flag(t: &[u8], w: usize, n: usize, u: usize, key: &[u8], flags: &mut [u8]) -> usize
    requires key_len_bound { (length key.now < w) × ((length t.now ≡ w * n) × (n ≤ length flags.old)) }
    requires t_value { (in_form w (rows w n t.now) ≡ true) × ((mark_bad 1 (rows w n t.now) ≡ false) × (u ≡ length (used_rows (rows w n t.now)))) }
    ensures value { result ≡ count (λ b. same_bytes (take (length key.now) b) key.now) (used (rows w n t.now)) }
    ensures flags_after { flags.new ≡ flagged (λ b. same_bytes (take (length key.now) b) key.now) (rows w n t.now) flags.old }
{
    let from = search::lower(t, w, n, u, key);
    for i in from..u {
        let at = w * i;
        let e = at + w;
        if !table::starts(&t[at..e], key) {
            return i - from;
        }
        flags[i] = 1;
    }
    u - from
}

// Takes a row that stays to its place behind those that stay, and tells the next place.
fn keep(t: &mut [u8], w: usize, n: usize, to: usize, from: usize, stays: bool) -> usize
    requires { (to ≤ from) × ((from < n) × (length t.old ≡ w * n)) }
    ensures value { result ≡ to + bit stays }
    ensures t_after { rows w n t.new ≡ cond stays (set (rows w n t.old) to (get_or (rows w n t.old) from [])) (rows w n t.old) }
{
    if stays {
        // A row that stands at its place is not copied: an order of a store in form would take twice as long.
        if to < from {
            moving::move_rows(t, w, n, from, 1, to);
        }
        to + 1
    } else {
        to
    }
}

// Frees the rows from one to another.
fn wipe(t: &mut [u8], w: usize, n: usize, from: usize, to: usize)
    requires { (from ≤ to) × ((to ≤ n) × (length t.old ≡ w * n)) }
    ensures { rows w n t.new ≡ take from (rows w n t.old) ++ (replicate (to - from) (zero_row w) ++ drop to (rows w n t.old)) }
{
    let a = w * from;
    let e = w * to;
    t[a..e].fill(0);
}

// The first place from one on, before u, whose flag is not 0; u where there is none.
fn next_flagged(flags: &[u8], from: usize, u: usize) -> usize
    requires { (from ≤ u) × (u ≤ length flags.now) }
    ensures { (result ≡ next_flagged flags.now from u) × ((from ≤ result) × (result ≤ u)) }
{
    match flags[from..u].iter().position(|f| *f != 0) {
        Some(k) => from + k,
        None => u,
    }
}

// The first place from one on, before u, whose flag is 0; u where there is none.
fn next_staying(flags: &[u8], from: usize, u: usize) -> usize
    requires { (from ≤ u) × (u ≤ length flags.now) }
    ensures { (result ≡ next_staying flags.now from u) × ((from ≤ result) × (result ≤ u)) }
{
    match flags[from..u].iter().position(|f| *f == 0) {
        Some(k) => from + k,
        None => u,
    }
}

// Gives up the rows whose flag is not 0: the others close up in one pass, whole runs at once, in their
// order, and the rest is zeroed. Rows before the first gap are not copied. u is the number of used
// rows. [02:W2.4]
pub fn close(t: &mut [u8], w: usize, n: usize, u: usize, flags: &[u8])
    requires t_len { (length t.old ≡ w * n) × (n ≤ length flags.now) }
    requires t_value { (in_form w (rows w n t.old) ≡ true) × (u ≡ length (used_rows (rows w n t.old))) }
    ensures { rows w n t.new ≡ reordered w (free_flagged w flags.now (rows w n t.old)) }
{
    let mut i = next_flagged(flags, 0, u);
    let mut to = i;
    // No range: a turn goes over a whole run of rows.
    while i < u {
        let s = next_staying(flags, i + 1, u);
        let e = next_flagged(flags, s, u);
        let k = e - s;
        moving::move_rows(t, w, n, s, k, to);
        to += k;
        i = e;
    }
    wipe(t, w, n, to, u);
}

// Brings the used rows together at the front, in their order, zeroes the rest, and tells how many are
// used. The table need not be in form. [02:W2.7 W2.8]
pub fn keep_used(t: &mut [u8], w: usize, n: usize) -> usize
    requires { (1 ≤ w) × (length t.old ≡ w * n) }
    ensures value { result ≡ length (used_rows (rows w n t.old)) }
    ensures t_after { rows w n t.new ≡ used_rows (rows w n t.old) ++ replicate (free_rows (rows w n t.old)) (zero_row w) }
{
    let mut to = 0;
    for i in 0..n {
        let stays = t[w * i] != 0;
        to = keep(t, w, n, to, i, stays);
    }
    wipe(t, w, n, to, n);
    to
}
