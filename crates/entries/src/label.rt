// The rows of R that an insert writes for its ids (document 02, "Find by several fields").
ghost use Rattle.std.specs.Prelude.{◌≡◌, ◌*◌, ◌≤◌, length};
ghost use Rattle.table.specs.Table.{rows};
ghost use Rattle.scheme.specs.Store.{table_r, width_of};
ghost use Rattle.scheme.specs.Insert.{label_rows};
ghost use Rattle.suite.specs.Program.{program};

use format::{ID, NONCE, row};
use store::R_WIDTH;

// Makes the rows of R for n ids, one nonce per id; RL is prepared once. [02:W4.3 W4.13]
#[tactic(auto, using(crate::proofs::Rules::label_new_rows_rules))]
pub fn new_rows(rl: &[u8], n: usize, nonces: &[u8], ids: &[u8], labels: &mut [u8])
    requires rl_len { (length rl.now ≡ 32) × (n ≤ 64) }
    requires n_in_bounds { ((12 * n ≤ length nonces.now) × (length ids.now ≡ 16 * n)) × (length labels.old ≡ width_of table_r * n) }
    ensures { rows (width_of table_r) n labels.new ≡ label_rows program rl.now (rows 16 n ids.now) nonces.now }
{
    let k = hmac::prepare(rl);
    for i in 0..n {
        let a = NONCE * i;
        let e = a + NONCE;
        let b = ID * i;
        let f = b + ID;
        let row = row::label_row(k, rl, &nonces[a..e], &ids[b..f]);
        table::put_row(labels, R_WIDTH, n, i, &row);
    }
}
