// What the command `show` prints of a store, as bytes at the start of a lent slice: its shares and how
// full its tables are.
#![tactic(auto)]

ghost use Rattle.std.specs.Prelude.{◌≡◌, ◌+◌, ◌≤◌, length};
ghost use Rattle.buffer.specs.Put.{Put};
ghost use Rattle.show.specs.Show.{bar_text, table_line, shares_line, entry_lines, shape_lines};

use buffer::{put, put_counted};
use store::Shape;

fn put_bar(to: &mut [u8], at: usize, used: usize, total: usize) -> usize
    requires { (used ≤ 4096) × ((total ≤ 4096) × (at + 24 ≤ length to.old)) }
    ensures { (Put to.old at (bar_text used total) to.new result) × (result ≡ at + 24) }
{
    let mut marks = [0u8; 20];
    text::bar(used, total, &mut marks);
    let a = put(to, at, b" [");
    let e = put(to, a, &marks);
    put(to, e, b"] ")
}

fn put_table(to: &mut [u8], at: usize, name: &[u8], total: usize, free: usize) -> usize
    requires { (length name.now ≡ 12) × ((total ≤ 4096) × (at + 118 ≤ length to.old)) }
    ensures { (Put to.old at (table_line name.now total free) to.new result) × (result ≤ at + 118) }
{
    let used = total.saturating_sub(free);
    let a = put(to, at, name);
    let b = put_bar(to, a, used, total);
    let d = put_counted(to, b, used as u64, b" of ");
    let e = put_counted(to, d, total as u64, b" rows used, ");
    put_counted(to, e, free as u64, b" free\n")
}

fn put_shares(to: &mut [u8], p: u64) -> usize
    requires { 45 ≤ length to.old }
    ensures { (Put to.old 0 (shares_line p) to.new result) × (result ≤ 45) }
{
    let e = put(to, 0, b"a store for shares 0 to ");
    put_counted(to, e, p, b"\n")
}

// The shares, and the two tables that have a row for each entry.
fn put_entries(x: Shape, to: &mut [u8]) -> usize
    requires { ((x.m.rows ≤ 4096) × (x.v.rows ≤ 4096)) × (281 ≤ length to.old) }
    ensures { (Put to.old 0 (entry_lines x) to.new result) × (result ≤ 281) }
{
    let m = put_shares(to, x.p);
    let v = put_table(to, m, b"entries  (M)", x.m.rows, x.m.free);
    put_table(to, v, b"reverse  (V)", x.v.rows, x.v.free)
}

// What `show` prints of a store. [02:W4.1]
pub fn shape(x: Shape, to: &mut [u8]) -> usize
    requires { (((x.m.rows ≤ 4096) × (x.v.rows ≤ 4096)) × ((x.c.rows ≤ 4096) × ((x.s.rows ≤ 4096) × (x.r.rows ≤ 4096)))) × (1024 ≤ length to.old) }
    ensures { Put to.old 0 (shape_lines x) to.new result }
{
    let c = put_entries(x, to);
    let s = put_table(to, c, b"counters (C)", x.c.rows, x.c.free);
    let r = put_table(to, s, b"log      (S)", x.s.rows, x.s.free);
    put_table(to, r, b"labels   (R)", x.r.rows, x.r.free)
}
