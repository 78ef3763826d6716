// The store, one lent slice: making it, the checks 10, 11 and 20 of every operation, and where its
// tables stand; its header is in header (document 01, "Store"; document 02, "Rows in byte order" and "Find by several fields"). What the checks find is handed on by value: an operation lends a table as
// `&mut store[start..end]` by the bounds of its `Part`, and works out none itself.
#![tactic(auto)]

ghost use Rattle.std.specs.Prelude.{◌≡◌, false, ◌+◌, ◌*◌, ◌-◌, ◌≤◌, length, drop};
ghost use Rattle.answer.specs.Answer.{completion};
ghost use Rattle.scheme.specs.Store.{sizes_bad, length_for, fresh, cut, form_bad, make as make_of};
ghost use Rattle.table.specs.Table.{rows, free_rows};
ghost use Rattle.table.specs.Order.{in_form};
ghost use Rattle.store.specs.Check.{survey_of, surveys_of, marked_of, checked_of};

use answer::Refusal;
use header::{HEADER, any, bad_header, bad_sizes, length_for, number};

// The width of a row of M. [01:ST6]
pub const M_WIDTH: usize = header::M_WIDTH;

// The width of a row of V. [01:ST8]
pub const V_WIDTH: usize = header::V_WIDTH;

// The width of a row of C. [01:ST9]
pub const C_WIDTH: usize = header::C_WIDTH;

// The width of a row of S. [01:ST12]
pub const S_WIDTH: usize = header::S_WIDTH;

// The width of a row of R. [02:W4.3]
pub const R_WIDTH: usize = header::R_WIDTH;

// The most rows that a table can have. [01:ST2]
pub const MOST_ROWS: usize = header::MOST_ROWS;

// Where a table stands in the slice, how many rows it has, and how many of them are free. [01:ST4 FM6]
#[derive(Clone, Copy)]
pub struct Part {
    pub start: usize,
    pub end: usize,
    pub rows: usize,
    pub free: usize,
}

// p of a store, and its tables in the order in which they stand.
#[derive(Clone, Copy)]
pub struct Shape {
    pub p: u64,
    pub m: Part,
    pub v: Part,
    pub c: Part,
    pub s: Part,
    pub r: Part,
}

// Writes the header of a store and zeroes the rest. [01:ST16]
#[tactic(auto, using(crate::proofs::Laws::made), unfolding(scheme::specs::Store::length_for))]
fn write(p: u64, m: u64, c: u64, s: u64, r: u64, slice: &mut [u8])
    requires { (sizes_bad (record { p = p; m = m; c = c; s = s; r = r }) ≡ false) × (length slice.old ≡ length_for (record { p = p; m = m; c = c; s = s; r = r })) }
    ensures { slice.new ≡ fresh (record { p = p; m = m; c = c; s = s; r = r }) }
{
    let n = slice.len();
    let h = header::header(p, m, c, s, r);
    octets::copy(&mut slice[0..HEADER], &h);
    octets::clear(&mut slice[HEADER..n]);
}

// Makes a store: writes the header and zeroes the rest; refusals 7 and 8 leave the slice. [01:ST16 RI8 RI9]
#[tactic(auto, using(crate::proofs::Rules::make_rules))]
pub fn make(p: u64, m: u64, c: u64, s: u64, r: u64, slice: &mut [u8]) -> Result<(), Refusal>
    ensures result_value { completion result ≡ (make_of (record { p = p; m = m; c = c; s = s; r = r }) slice.old).answer }
    ensures slice_after { slice.new ≡ (make_of (record { p = p; m = m; c = c; s = s; r = r }) slice.old).store }
{
    if bad_sizes(p, m, c, s, r) {
        return Err(Refusal::SizeRange);
    }
    if slice.len() != length_for(m as usize, c as usize, s as usize, r as usize) {
        return Err(Refusal::SliceLength);
    }
    write(p, m, c, s, r, slice);
    Ok(())
}

// One pass over the marks of the table of n rows of w bytes that starts at a place: its part, or 11.
#[tactic(auto, using(crate::proofs::Laws::surveyed_bad, crate::proofs::Laws::surveyed))]
fn survey(store: &[u8], start: usize, w: usize, n: usize, most: u8) -> Result<Part, Refusal>
    requires { (1 ≤ w) × (start + w * n ≤ length store.now) }
    ensures { result ≡ survey_of store.now start w n most }
{
    let end = start + w * n;
    let Ok(free) = table::survey(&store[start..end], w, n, most) else {
        return Err(Refusal::Mark);
    };
    Ok(Part {
        start,
        end,
        rows: n,
        free,
    })
}

// One pass over each table, one after the other, with the greatest mark that it allows. [01:ST3 ST5]
#[tactic(auto, using(crate::proofs::Rules::survey_all_rules), unfolding(scheme::specs::Store::length_for))]
fn survey_all(
    store: &[u8],
    p: u64,
    m: usize,
    c: usize,
    s: usize,
    r: usize,
) -> Result<Shape, Refusal>
    requires { length store.now ≡ length_for (record { p = p; m = m; c = c; s = s; r = r }) }
    ensures { result ≡ surveys_of store.now (record { p = p; m = m; c = c; s = s; r = r }) }
{
    let of_m = survey(store, HEADER, M_WIDTH, m, 1)?;
    let of_v = survey(store, of_m.end, V_WIDTH, m, 1)?;
    let of_c = survey(store, of_v.end, C_WIDTH, c, 1)?;
    let of_s = survey(store, of_c.end, S_WIDTH, s, 1)?;
    let of_r = survey(store, of_s.end, R_WIDTH, r, 1)?;
    Ok(Shape {
        p,
        m: of_m,
        v: of_v,
        c: of_c,
        s: of_s,
        r: of_r,
    })
}

// The checks 10 and 11, with what an operation needs to know of the store. [01:RS2 RS3] [02:W2.9]
#[tactic(auto, using(crate::proofs::Rules::marked_rules))]
pub fn marked(store: &[u8]) -> Result<Shape, Refusal>
    ensures { result ≡ marked_of store.now }
{
    if bad_header(store) {
        return Err(Refusal::Header);
    }
    let p = u64::from(store[1]);
    let m = number(store, 2) as usize;
    let c = number(store, 4) as usize;
    let s = number(store, 6) as usize;
    let r = number(store, 8) as usize;
    survey_all(store, p, m, c, s, r)
}

// Whether the table of a part is in form. [02:W2.1 W2.2 W2.3]
#[tactic(auto, using(table::proofs::Walk::rows_take, crate::proofs::Rules::formed_rules))]
fn formed(store: &[u8], part: Part, w: usize) -> bool
    requires { ((8 ≤ w) × ((part.start ≤ part.end) × (part.end ≤ length store.now))) × ((part.end - part.start ≡ w * part.rows) × (part.free ≡ free_rows (rows w part.rows (drop part.start store.now)))) }
    ensures { result ≡ in_form w (rows w part.rows (drop part.start store.now)) }
{
    let a = part.start;
    let e = part.end;
    form::in_form(&store[a..e], w, part.rows, part.free)
}

// Whether a table of a store is not in form: the condition of 20. [02:W2.11]
#[tactic(auto, using(crate::proofs::Rules::bad_form_rules))]
fn bad_form(store: &[u8], z: Shape) -> bool
    requires { marked_of store.now ≡ Ok z }
    ensures { result ≡ form_bad (cut store.now) }
{
    any(
        !formed(store, z.m, M_WIDTH),
        !formed(store, z.v, V_WIDTH),
        !formed(store, z.c, C_WIDTH),
        !formed(store, z.s, S_WIDTH),
        !formed(store, z.r, R_WIDTH),
    )
}

// The checks 10, 11 and 20 of every operation, with what it needs to know of the store.
// [01:RS2 RS3] [02:W2.11 W2.12]
#[tactic(auto, using(crate::proofs::Laws::checked_refused, crate::proofs::Laws::checked_form, crate::proofs::Laws::checked_formed))]
pub fn sizes(store: &[u8]) -> Result<Shape, Refusal>
    ensures { result ≡ checked_of store.now }
{
    let z = marked(store)?;
    if bad_form(store, z) {
        return Err(Refusal::Form);
    }
    Ok(z)
}
