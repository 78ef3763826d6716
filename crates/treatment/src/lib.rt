// The treatment of one CL by a compaction (document 01, "Operations": compaction): the counters that
// its reading held are freed and the next anchor is written. Table C alone is changed.
#![tactic(auto)]

ghost use Rattle.std.specs.Prelude.{◌≡◌, ◌+◌, ◌*◌, ◌≤◌, length};
ghost use Rattle.table.specs.Table.{rows};
ghost use Rattle.table.specs.Order.{used_rows, Searchable};
ghost use Rattle.scheme.specs.Store.{table_c, width_of};
ghost use Rattle.scheme.specs.Reading.{limit, reading};
ghost use Rattle.scheme.specs.Compaction.{anchored_table};
ghost use Rattle.suite.specs.Program.{program};
ghost use Rattle.format.specs.Tags.{KeysOf};
ghost use Rattle.treatment.specs.Treatment.{Noted, done_by, table_by};

use counter::{Counter, Reading};
use format::{AnchorNumber, Keys, Position, row};
use lookups::Lookup;
use store::MOST_ROWS;

// What was done with one CL: the reading was damage; k was 0; or k counters were freed and an anchor
// written.
#[derive(Clone, Copy)]
pub enum Treated {
    Damage,
    Skipped,
    Anchored(u64),
}

// What was done with one CL, and how many rows of C are used after it.
#[derive(Clone, Copy)]
pub struct Outcome {
    pub treated: Treated,
    pub used: usize,
}

// What the next anchor says.
#[derive(Clone, Copy)]
struct NextAnchor {
    number: AnchorNumber,
    position: Position,
    count: u64,
}

// Anchor B + 1 has the position Start + k, and the count. [01:OP11]
fn next_anchor(z: Counter) -> NextAnchor
    requires { (z.b.0 ≤ 4096) × ((z.start.0 ≤ limit) × (z.k ≤ 4096)) }
    ensures { (result.number.0 ≡ z.b.0 + 1) × ((result.position.0 ≡ z.start.0 + z.k) × (result.count ≡ z.count)) }
{
    NextAnchor {
        number: AnchorNumber(z.b.0 + 1),
        position: Position(z.start.0 + z.k),
        count: z.count,
    }
}

// Frees the counters that the reading held, and writes anchor B + 1. [01:OP11]
fn anchor(
    t: &mut [u8],
    c: usize,
    u: usize,
    cl: &[u8; 32],
    keys: Keys,
    nonce: &[u8],
    z: Counter,
    places: &[u16],
) -> usize
    requires t_len { ((length t.old ≡ width_of table_c * c) × (c ≤ 4096)) × ((KeysOf keys cl.now × (length nonce.now ≡ 12)) × Noted c cl.now (rows (width_of table_c) c t.old) z places.now) }
    requires searchable { Searchable (width_of table_c) u (rows (width_of table_c) c t.old) }
    ensures value { result ≡ length (used_rows (rows (width_of table_c) c t.new)) }
    ensures t_after { rows (width_of table_c) c t.new ≡ anchored_table program cl.now nonce.now (rows (width_of table_c) c t.old) z.b.0 z.start.0 z.k z.count }
{
    let next = next_anchor(z);
    let row = row::anchor_row(keys, cl, next.number, nonce, next.position, next.count);
    replacing::replace(t, c, u, places, z.k as usize, &row)
}

// Treats one CL: with k > 0 its counters are freed and an anchor is written under the nonce, with k = 0
// nothing is written. The keys of the CL are made once, and each counter's tag once: the reading notes
// the places of the counters. [01:OP11]
pub fn treat(t: &mut [u8], c: usize, u: usize, cl: &[u8; 32], nonce: &[u8]) -> Outcome
    requires { ((length t.old ≡ width_of table_c * c) × (c ≤ 4096)) × ((length nonce.now ≡ 12) × Searchable (width_of table_c) u (rows (width_of table_c) c t.old)) }
    ensures treated_value { (result.treated ≡ done_by (reading program c cl.now (rows (width_of table_c) c t.old))) × (result.used ≡ length (used_rows (rows (width_of table_c) c t.new))) }
    ensures t_after { rows (width_of table_c) c t.new ≡ table_by cl.now nonce.now (rows (width_of table_c) c t.old) (reading program c cl.now (rows (width_of table_c) c t.old)) }
{
    let mut places = [0u16; MOST_ROWS];
    let keys = format::keys_of(cl);
    let Reading::Counter(z) = counter::read_by(t, c, u, Lookup::Search, cl, keys, &mut places)
    else {
        return Outcome {
            treated: Treated::Damage,
            used: u,
        };
    };
    if z.k == 0 {
        return Outcome {
            treated: Treated::Skipped,
            used: u,
        };
    }
    let used = anchor(t, c, u, cl, keys, nonce, z, &places);
    Outcome {
        treated: Treated::Anchored(z.k),
        used,
    }
}
