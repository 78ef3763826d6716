// The rows of M and of V that an insert writes for its ids (document 01, "Operations": insert), made
// one after the other. Those of R are in label.
#![tactic(auto)]

ghost use Rattle.std.specs.Prelude.{◌≡◌, ◌*◌, ◌≤◌, length};
ghost use Rattle.table.specs.Table.{rows};
ghost use Rattle.scheme.specs.Store.{table_m, table_v, width_of};
ghost use Rattle.scheme.specs.Reading.{limit};
ghost use Rattle.scheme.specs.Insert.{entry_rows, reverse_rows};
ghost use Rattle.suite.specs.Program.{program};

pub mod label;

use format::{Address, ID, NONCE, row};
use store::{M_WIDTH, V_WIDTH};

// Makes the rows of M and of V for n ids at addresses g + 1 onward, one nonce per id; MT is prepared
// once. [01:OP1 OP2]
#[tactic(auto, using(crate::proofs::Rules::new_rows_rules))]
pub fn new_rows(
    mt: &[u8],
    me: &[u8],
    g: u64,
    n: usize,
    nonces: &[u8],
    ids: &[u8],
    entries: &mut [u8],
    reverses: &mut [u8],
)
    requires mt_len { ((length mt.now ≡ 32) × (length me.now ≡ 32)) × ((g ≤ limit) × (n ≤ 64)) }
    requires n_in_bounds { ((12 * n ≤ length nonces.now) × (length ids.now ≡ 16 * n)) × ((length entries.old ≡ width_of table_m * n) × (length reverses.old ≡ width_of table_v * n)) }
    ensures entries_after { rows (width_of table_m) n entries.new ≡ entry_rows program mt.now me.now g (rows 16 n ids.now) nonces.now }
    ensures reverses_after { rows (width_of table_v) n reverses.new ≡ reverse_rows program mt.now g (rows 16 n ids.now) }
{
    let k = hmac::prepare(mt);
    for i in 0..n {
        let a = NONCE * i;
        let e = a + NONCE;
        let b = ID * i;
        let f = b + ID;
        let r = row::rows_for(
            k,
            mt,
            me,
            Address(g + i as u64 + 1),
            &nonces[a..e],
            &ids[b..f],
        );
        let entry = r.entry;
        let reverse = r.reverse;
        table::put_row(entries, M_WIDTH, n, i, &entry);
        table::put_row(reverses, V_WIDTH, n, i, &reverse);
    }
}
