// The header of a store: its bytes, what they say of the sizes, the length that these ask for, and the condition of 10 (document 01,
// "Store"; document 02, "Find by several fields").
#![tactic(auto)]

ghost use Rattle.std.specs.Prelude.{◌≡◌, false, not, ◌||◌, ◌+◌, ◌*◌, ◌<◌, ◌≤◌, length, get_or};
ghost use Rattle.scheme.specs.Store.{header_length, rows_bad, sizes_bad, length_for, header_of, header_bad};

// The length of the header. [01:ST2] [02:W4.7]
pub const HEADER: usize = 10;

// The version of a store. [01:ST2] [02:W4.5]
pub const VERSION: u8 = 2;

// The width of a row of M. [01:ST6]
pub const M_WIDTH: usize = 61;

// The width of a row of V. [01:ST8]
pub const V_WIDTH: usize = 49;

// The width of a row of C. [01:ST9]
pub const C_WIDTH: usize = 61;

// The width of a row of S. [01:ST12]
pub const S_WIDTH: usize = 45;

// The width of a row of R. [02:W4.3]
pub const R_WIDTH: usize = 61;

// The most rows that a table can have. [01:ST2]
pub const MOST_ROWS: usize = 4096;

// Whether one of five holds.
pub fn any(a: bool, b: bool, c: bool, d: bool, e: bool) -> bool
    ensures { result ≡ (a || (b || (c || (d || e)))) }
{
    if a {
        return true;
    }
    if b {
        return true;
    }
    if c {
        return true;
    }
    if d {
        return true;
    }
    e
}

// Whether a number of rows is outside 1 to 4,096.
fn bad_rows(n: u64) -> bool
    ensures { result ≡ rows_bad n }
{
    if n < 1 { true } else { (MOST_ROWS as u64) < n }
}

// Whether p, m, c, s or r is out of range. [01:KT3 ST2] [02:W4.2]
#[tactic(auto, unfolding(scheme::specs::Store::sizes_bad))]
pub fn bad_sizes(p: u64, m: u64, c: u64, s: u64, r: u64) -> bool
    ensures { result ≡ sizes_bad (record { p = p; m = m; c = c; s = s; r = r }) }
{
    any(15 < p, bad_rows(m), bad_rows(c), bad_rows(s), bad_rows(r))
}

// The length of a store with these sizes. [01:ST3] [02:W4.8]
#[tactic(auto, unfolding(scheme::specs::Store::length_for))]
pub fn length_for(m: usize, c: usize, s: usize, r: usize) -> usize
    requires { ((m ≤ 65535) × (c ≤ 65535)) × ((s ≤ 65535) × (r ≤ 65535)) }
    ensures { result ≡ length_for (record { p = 0; m = m; c = c; s = s; r = r }) }
{
    HEADER + M_WIDTH * m + V_WIDTH * m + C_WIDTH * c + S_WIDTH * s + R_WIDTH * r
}

// The header: the version, p, then m, c, s, r, two bytes each, big-endian. [01:ST2] [02:W4.5 W4.7]
#[tactic(auto, using(crate::proofs::Laws::in_range), unfolding(scheme::specs::Store::header_of))]
pub fn header(p: u64, m: u64, c: u64, s: u64, r: u64) -> [u8; HEADER]
    requires { sizes_bad (record { p = p; m = m; c = c; s = s; r = r }) ≡ false }
    ensures { result ≡ header_of (record { p = p; m = m; c = c; s = s; r = r }) }
{
    [
        VERSION,
        p as u8,
        (m / 256) as u8,
        (m % 256) as u8,
        (c / 256) as u8,
        (c % 256) as u8,
        (s / 256) as u8,
        (s % 256) as u8,
        (r / 256) as u8,
        (r % 256) as u8,
    ]
}

// The number of two bytes, big-endian, at a place of the header.
pub fn number(store: &[u8], at: usize) -> u64
    requires { (at < header_length) × (at + 1 < length store.now) }
    ensures { (result ≡ 256 * get_or store.now at 0 + get_or store.now (at + 1) 0) × (result ≤ 65535) }
{
    256 * octets::wide(store[at]) + octets::wide(store[at + 1])
}

// The condition of 10. [01:RS2] [02:W4.5 W4.6]
#[tactic(auto, using(crate::proofs::Rules::bad_header_rules), unfolding(scheme::specs::Store::header_bad))]
pub fn bad_header(store: &[u8]) -> bool
    ensures { result ≡ header_bad store.now }
{
    let n = store.len();
    if n < HEADER {
        return true;
    }
    let m = number(store, 2);
    let c = number(store, 4);
    let s = number(store, 6);
    let r = number(store, 8);
    any(
        false,
        false,
        store[0] != VERSION,
        bad_sizes(octets::wide(store[1]), m, c, s, r),
        n != length_for(m as usize, c as usize, s as usize, r as usize),
    )
}
