// The rows of an insert (document 01, "Operations"; document 02, "Find by several fields"): those of M, V and R
// (entries) and S are made and, with the counter's, placed in their tables.
#![tactic(auto)]

ghost use Rattle.std.specs.Prelude.{◌≡◌, ◌*◌, ◌≤◌, length, true};
ghost use Rattle.table.specs.Table.{rows};
ghost use Rattle.table.specs.Order.{ascending, sorted, with_rows};
ghost use Rattle.scheme.specs.Store.{table_m, table_v, table_c, table_s, table_r, width_of, joined, log_row};
ghost use Rattle.scheme.specs.Layout.{Laid};
ghost use Rattle.scheme.specs.Reading.{limit};
ghost use Rattle.scheme.specs.Refusals.{id_count, ids_in};
ghost use Rattle.scheme.specs.Keys.{token_mt, token_me, token_log, token_rl};
ghost use Rattle.scheme.specs.Insert.{entry_rows, reverse_rows, label_rows, label_nonces, inserted_store};
ghost use Rattle.suite.specs.Program.{program};
ghost use Rattle.store.specs.Check.{checked_of, span_in};
ghost use Rattle.store.specs.Tables.{table_of, InOrder, Replaced};
ghost use Rattle.placing.specs.Placed.{Lengths, Room, placed_store};

use entries::label;
use format::{ID, INSERT_RL, INSERT_TOKEN, NONCE, row};
use store::{C_WIDTH, M_WIDTH, Part, R_WIDTH, S_WIDTH, Shape, V_WIDTH};

// The most rows that an insert adds to a table.
const MOST_NEW: usize = 64;

// Adds n ascending rows to the table of a part, which has room for them. [01:ST4 OP1] [02:W2.4]
fn add_rows(store: &mut [u8], part: Part, w: usize, new: &[u8], n: usize)
    requires in_order { InOrder store.old part w × (n ≤ part.free) }
    requires len { (length new.now ≡ w * n) × (ascending (rows w n new.now) ≡ true) }
    ensures { Replaced store.old part w (with_rows w (rows w n new.now) (table_of store.old part w)) store.new }
{
    let a = part.start;
    let e = part.end;
    let u = part.rows - part.free;
    merging::merge(&mut store[a..e], w, part.rows, u, new, n);
}

// Puts given rows, those of M and of V ascending, in the tables M, V, C and S of a store that has room
// for them. [01:ST4 OP1] [02:W2.4]
fn place(
    store: &mut [u8],
    z: Shape,
    n: usize,
    entries: &[u8],
    reverses: &[u8],
    counter: &[u8],
    log: &[u8],
)
    requires store_value { (checked_of store.old ≡ Ok z) × Room z n }
    requires entries_len { ((length entries.now ≡ width_of table_m * n) × (length reverses.now ≡ width_of table_v * n)) × ((length counter.now ≡ width_of table_c) × (length log.now ≡ width_of table_s)) }
    requires entries_value { (ascending (rows (width_of table_m) n entries.now) ≡ true) × (ascending (rows (width_of table_v) n reverses.now) ≡ true) }
    ensures { Laid (span_in z) store.new (placed_store store.old (rows (width_of table_m) n entries.now) (rows (width_of table_v) n reverses.now) counter.now log.now) }
{
    let m = z.m;
    let v = z.v;
    let c = z.c;
    let s = z.s;
    add_rows(store, m, M_WIDTH, entries, n);
    add_rows(store, v, V_WIDTH, reverses, n);
    add_rows(store, c, C_WIDTH, counter, 1);
    add_rows(store, s, S_WIDTH, log, 1);
}

// Puts at most 64 rows in byte order. [02:W2.2]
fn sort_rows(t: &mut [u8], w: usize, n: usize)
    requires { (length t.old ≡ w * n) × ((n ≤ 64) × (w ≤ width_of table_m)) }
    ensures { rows w n t.new ≡ sorted (rows w n t.old) }
{
    let mut room = [0u8; MOST_NEW * M_WIDTH];
    let e = w * n;
    sorting::sort(t, w, n, &mut room[..e]);
}

// Makes the rows of M and of V for n ids at addresses g + 1 onward, in byte order. [01:OP1 OP2] [02:W2.2]
fn make_rows(
    mt: &[u8],
    me: &[u8],
    g: u64,
    n: usize,
    nonces: &[u8],
    ids: &[u8],
    entries: &mut [u8],
    reverses: &mut [u8],
)
    requires mt_len { ((length mt.now ≡ 32) × (length me.now ≡ 32)) × ((g ≤ limit) × (n ≤ 64)) }
    requires n_in_bounds { ((12 * n ≤ length nonces.now) × (length ids.now ≡ 16 * n)) × ((length entries.old ≡ width_of table_m * n) × (length reverses.old ≡ width_of table_v * n)) }
    ensures entries_after { rows (width_of table_m) n entries.new ≡ sorted (entry_rows program mt.now me.now g (rows 16 n ids.now) nonces.now) }
    ensures reverses_after { rows (width_of table_v) n reverses.new ≡ sorted (reverse_rows program mt.now g (rows 16 n ids.now)) }
{
    entries::new_rows(mt, me, g, n, nonces, ids, entries, reverses);
    sort_rows(entries, M_WIDTH, n);
    sort_rows(reverses, V_WIDTH, n);
}

// Makes the rows of R for n ids and adds them to R, whose part is given. [02:W4.13]
#[tactic(auto, using(crate::proofs::Rules::write_labels_rules))]
fn write_labels(store: &mut [u8], part: Part, n: usize, rl: &[u8], nonces: &[u8], ids: &[u8])
    requires in_order { (InOrder store.old part (width_of table_r) × (n ≤ part.free)) × ((length rl.now ≡ 32) × (n ≤ 64)) }
    requires n_in_bounds { (12 * n ≤ length nonces.now) × (length ids.now ≡ 16 * n) }
    ensures { Replaced store.old part (width_of table_r) (with_rows (width_of table_r) (label_rows program rl.now (rows 16 n ids.now) nonces.now) (table_of store.old part (width_of table_r))) store.new }
{
    let i = R_WIDTH * n;
    let mut labels = [0u8; MOST_NEW * R_WIDTH];
    label::new_rows(rl, n, nonces, ids, &mut labels[..i]);
    sort_rows(&mut labels[..i], R_WIDTH, n);
    add_rows(store, part, R_WIDTH, &labels[..i], n);
}

// Makes the new rows of M, V, S and R, and places them with a counter row; g is the count read. R's
// nonces are those after the counter's. [01:OP1 OP2] [02:W4.10 W4.12 W4.13]
#[tactic(auto, using(crate::proofs::Rules::write_rules), unfolding(crate::specs::Placed::placed_store, scheme::specs::Keys::token_mt, scheme::specs::Keys::token_me, scheme::specs::Keys::token_log, scheme::specs::Keys::token_rl, scheme::specs::Insert::label_nonces))]
pub fn write(
    store: &mut [u8],
    z: Shape,
    g: u64,
    ids: &[u8],
    nonces: &[u8],
    token: &[u8],
    counter: &[u8],
)
    requires store_value { (checked_of store.old ≡ Ok z) × Room z (id_count ids.now) }
    requires lengths { Lengths ids.now nonces.now token.now × ((g ≤ limit) × (length counter.now ≡ width_of table_c)) }
    ensures { store.new ≡ joined (inserted_store store.old (entry_rows program (token_mt token.now) (token_me token.now) g (ids_in ids.now) nonces.now) (reverse_rows program (token_mt token.now) g (ids_in ids.now)) counter.now (log_row (token_log token.now)) (label_rows program (token_rl token.now) (ids_in ids.now) (label_nonces ids.now nonces.now))) }
{
    let n = ids.len() / ID;
    let i = M_WIDTH * n;
    let j = V_WIDTH * n;
    let mut entries = [0u8; MOST_NEW * M_WIDTH];
    let mut reverses = [0u8; MOST_NEW * V_WIDTH];
    make_rows(
        &token[1..33],
        &token[33..65],
        g,
        n,
        nonces,
        ids,
        &mut entries[..i],
        &mut reverses[..j],
    );
    let log = row::log_row(&token[97..INSERT_RL]);
    place(store, z, n, &entries[..i], &reverses[..j], counter, &log);
    let r = z.r;
    let b = NONCE * (n + 1);
    write_labels(
        store,
        r,
        n,
        &token[INSERT_RL..INSERT_TOKEN],
        &nonces[b..],
        ids,
    );
}
