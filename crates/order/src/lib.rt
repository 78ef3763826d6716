// Order: the call that puts a store in form (document 02, "Rows in byte order").
#![tactic(auto)]

ghost use Rattle.std.specs.Prelude.{◌≡◌, ◌*◌, ◌≤◌, length, replicate};
ghost use Rattle.answer.specs.Answer.{counted};
ghost use Rattle.table.specs.Table.{rows, used};
ghost use Rattle.table.specs.Order.{reordered};
ghost use Rattle.scheme.specs.Store.{table_m, width_of, cut, joined};
ghost use Rattle.scheme.specs.Order.{used_in_all, ordered_store, order as order_of};
ghost use Rattle.store.specs.Check.{marked_of};
ghost use Rattle.store.specs.Tables.{table_of, Within, Replaced};

use answer::Refusal;
use store::{C_WIDTH, M_WIDTH, MOST_ROWS, Part, R_WIDTH, S_WIDTH, Shape, V_WIDTH};

// Room for the rows of a table.
fn blank() -> [u8; M_WIDTH * MOST_ROWS]
    ensures { result ≡ replicate (width_of table_m * 4096) 0 }
{
    [0u8; M_WIDTH * MOST_ROWS]
}

// Puts a table in form, and tells how many of its rows are used. [02:W2.6 W2.7 W2.8]
fn order_table(t: &mut [u8], w: usize, n: usize) -> u64
    requires { ((1 ≤ w) × (w ≤ width_of table_m)) × ((n ≤ 4096) × (length t.old ≡ w * n)) }
    ensures value { result ≡ length (used (rows w n t.old)) }
    ensures t_after { rows w n t.new ≡ reordered w (rows w n t.old) }
{
    let mut room = blank();
    let u = closing::keep_used(t, w, n);
    let e = w * u;
    sorting::sort(&mut t[..e], w, u, &mut room[..e]);
    u as u64
}

// The same for the table of a part. [02:W2.6 W2.7 W2.8]
fn order_part(store: &mut [u8], part: Part, w: usize) -> u64
    requires { Within store.old part w × (((1 ≤ w) × (w ≤ width_of table_m)) × (part.rows ≤ 4096)) }
    ensures value { (result ≡ length (used (table_of store.old part w))) × (result ≤ 4096) }
    ensures replaced { Replaced store.old part w (reordered w (table_of store.old part w)) store.new }
{
    let a = part.start;
    let e = part.end;
    order_table(&mut store[a..e], w, part.rows)
}

// Puts the tables of a store in form, one after the other, and tells how many rows are used in all of
// them. [02:W2.6 W2.7 W2.8 W4.1]
fn order_all(store: &mut [u8], z: Shape) -> u64
    requires { marked_of store.old ≡ Ok z }
    ensures value { result ≡ used_in_all (cut store.old) }
    ensures store_after { store.new ≡ joined (ordered_store store.old) }
{
    let m = z.m;
    let v = z.v;
    let c = z.c;
    let s = z.s;
    let r = z.r;
    let in_m = order_part(store, m, M_WIDTH);
    let in_v = order_part(store, v, V_WIDTH);
    let in_c = order_part(store, c, C_WIDTH);
    let in_s = order_part(store, s, S_WIDTH);
    let in_r = order_part(store, r, R_WIDTH);
    in_m + in_v + in_c + in_s + in_r
}

// Puts a store in form, whatever the order of its rows: every used row is kept. Refused by 10 and 11
// alone. Answers how many used rows there are. [02:W2.6 W2.7 W2.8 W2.9]
#[tactic(auto, using(crate::proofs::Laws::order_refused))]
pub fn order(store: &mut [u8]) -> Result<u64, Refusal>
    ensures result_value { counted result ≡ (order_of store.old).answer }
    ensures store_after { store.new ≡ (order_of store.old).store }
{
    let z = store::marked(store)?;
    Ok(order_all(store, z))
}
