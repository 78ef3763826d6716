// Erase of an id (document 01, "Operations"; document 02, "Find by several fields"): frees all its V
// rows, each M row with a tag of theirs, and all its R rows.
#![tactic(auto)]

ghost use Rattle.std.specs.Prelude.{◌≡◌, ◌*◌, ◌≤◌, ◌<◌, length};
ghost use Rattle.table.specs.Lists.{count};
ghost use Rattle.table.specs.Table.{rows, used};
ghost use Rattle.table.specs.Order.{Searchable, closed};
ghost use Rattle.closing.specs.Flags.{flagged};
ghost use Rattle.answer.specs.Answer.{counted};
ghost use Rattle.scheme.specs.Store.{table_m, table_v, width_of, cut, joined};
ghost use Rattle.scheme.specs.Erase.{is_reverse, erased_store, erase as erase_of};
ghost use Rattle.store.specs.Check.{checked_of};
ghost use Rattle.store.specs.Tables.{table_of, Replaced};
ghost use Rattle.erase.specs.Tags.{Clean, has_id, erased_by};

use answer::Refusal;
use format::{ID, row};
use store::{M_WIDTH, MOST_ROWS, Part, R_WIDTH, Shape, V_WIDTH};

// Flags the rows of M with a tag of the id's rows of V, which stand together from the first that is not
// before the id. [01:OP4]
fn flag_entries(
    m: &[u8],
    n: usize,
    u: usize,
    v: &[u8],
    k: usize,
    used: usize,
    id: &[u8; ID],
    flags: &mut [u8],
)
    requires m_len { ((length m.now ≡ width_of table_m * n) × Searchable (width_of table_m) u (rows (width_of table_m) n m.now)) × ((length v.now ≡ width_of table_v * k) × Searchable (width_of table_v) used (rows (width_of table_v) k v.now)) }
    requires n_in_bounds { n ≤ length flags.old }
    ensures { flags.new ≡ flagged (erased_by id.now (rows (width_of table_v) k v.now)) (rows (width_of table_m) n m.now) flags.old }
{
    let from = search::lower(v, V_WIDTH, k, used, id);
    for i in from..used {
        if !row::is_reverse(v, k, i, id) {
            return;
        }
        let tag = row::tag_at(v, k, i);
        closing::flag(m, M_WIDTH, n, u, &tag, flags);
    }
}

// Gives up the rows of M with a tag of the id's rows of V; the rows left close up. [01:OP4] [02:W2.4]
fn free_entries(store: &mut [u8], m: Part, v: Part, id: &[u8; ID])
    requires { Clean store.old m (width_of table_m) × Clean store.old v (width_of table_v) }
    ensures { Replaced store.old m (width_of table_m) (closed (width_of table_m) (erased_by id.now (table_of store.old v (width_of table_v))) (table_of store.old m (width_of table_m))) store.new }
{
    let from = m.start;
    let to = m.end;
    let a = v.start;
    let e = v.end;
    let n = m.rows;
    let k = v.rows;
    let in_m = n - m.free;
    let in_v = k - v.free;
    let mut flags = [0u8; MOST_ROWS];
    flag_entries(
        &store[from..to],
        n,
        in_m,
        &store[a..e],
        k,
        in_v,
        id,
        &mut flags,
    );
    closing::close(&mut store[from..to], M_WIDTH, n, in_m, &flags);
}

// Gives up the rows of a table that begin with the id, and tells how many these are; the rows left close
// up. [01:OP4] [02:W2.4 W4.14]
fn free_rows(store: &mut [u8], part: Part, w: usize, id: &[u8; ID]) -> u64
    requires { Clean store.old part w × (16 < w) }
    ensures value { result ≡ count (has_id id.now) (used (table_of store.old part w)) }
    ensures replaced { Replaced store.old part w (closed w (has_id id.now) (table_of store.old part w)) store.new }
{
    let a = part.start;
    let e = part.end;
    let n = part.rows;
    let u = n - part.free;
    let mut flags = [0u8; MOST_ROWS];
    let freed = closing::flag(&store[a..e], w, n, u, id, &mut flags);
    closing::close(&mut store[a..e], w, n, u, &flags);
    freed as u64
}

// The erasure in a store that passed the checks: the rows of M with a tag of the id's rows of V, then
// these, then the id's rows of R. Tells how many V rows were freed. [01:OP4 OP5] [02:W4.14]
fn erase_rows(store: &mut [u8], z: Shape, id: &[u8; ID]) -> u64
    requires { checked_of store.old ≡ Ok z }
    ensures value { result ≡ count (is_reverse store.old id.now) (used ((cut store.old).table table_v)) }
    ensures store_after { store.new ≡ joined (erased_store store.old id.now) }
{
    let m = z.m;
    let v = z.v;
    let r = z.r;
    free_entries(store, m, v, id);
    let freed = free_rows(store, v, V_WIDTH, id);
    free_rows(store, r, R_WIDTH, id);
    freed
}

// Erases an id. [01:OP4 OP5 RI6] [02:W4.14]
#[tactic(auto, using(crate::proofs::Laws::erase_unfit))]
pub fn erase(store: &mut [u8], id: &[u8]) -> Result<u64, Refusal>
    ensures result_value { counted result ≡ (erase_of store.old id.now).answer }
    ensures store_after { store.new ≡ (erase_of store.old id.now).store }
{
    if id.len() != ID {
        return Err(Refusal::IdLength);
    }
    let mut name = [0u8; ID];
    name.copy_from_slice(id);
    let z = store::sizes(store)?;
    Ok(erase_rows(store, z, &name))
}
