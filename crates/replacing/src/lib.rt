// Rows of table C given up for one row (document 01, "Operations": compaction): one row is exchanged; several are
// closed up, and the row is merged in. The table stays in form.
#![tactic(auto)]

ghost use Rattle.std.specs.Prelude.{◌≡◌, false, ◌∷◌, [], ◌*◌, ◌≤◌, ◌<◌, length, take};
ghost use Rattle.table.specs.Lists.{All};
ghost use Rattle.table.specs.Table.{rows, is_free, free_at};
ghost use Rattle.table.specs.Order.{used_rows, with_rows, Searchable};
ghost use Rattle.closing.specs.Flags.{flagged_at};
ghost use Rattle.scheme.specs.Store.{table_c, width_of};

use store::{C_WIDTH, MOST_ROWS};

// Flags the rows at the first k places.
fn flag_places(places: &[u16], k: usize, flags: &mut [u8])
    requires { (k ≤ length places.now) × All (λ i. i < length flags.old) (take k places.now) }
    ensures { flags.new ≡ flagged_at (take k places.now) flags.old }
{
    for place in &places[..k] {
        flags[usize::from(*place)] = 1;
    }
}

// Gives up the rows of C at the first k places and takes a row; tells how many rows are used then.
// [01:OP11] [02:W2.4]
pub fn replace(t: &mut [u8], c: usize, u: usize, places: &[u16], k: usize, row: &[u8]) -> usize
    requires t_len { (length t.old ≡ width_of table_c * c) × ((c ≤ 4096) × (1 ≤ k)) }
    requires k_in_bounds { ((k ≤ length places.now) × All (λ i. i < u) (take k places.now)) × ((length row.now ≡ width_of table_c) × ((is_free row.now ≡ false) × Searchable (width_of table_c) u (rows (width_of table_c) c t.old))) }
    ensures value { result ≡ length (used_rows (rows (width_of table_c) c t.new)) }
    ensures t_after { rows (width_of table_c) c t.new ≡ with_rows (width_of table_c) (row.now ∷ []) (free_at (width_of table_c) (take k places.now) (rows (width_of table_c) c t.old)) }
{
    if k == 1 {
        let at = usize::from(places[0]);
        merging::exchange(t, C_WIDTH, c, u, at, row);
        return u;
    }
    let mut flags = [0u8; MOST_ROWS];
    flag_places(places, k, &mut flags);
    closing::close(t, C_WIDTH, c, u, &flags);
    let left = c - table::count_free(t, C_WIDTH, c);
    merging::merge(t, C_WIDTH, c, left, row, 1);
    left + 1
}
