// The lookups of a reading (document 01, "Reading a counter"): which anchors and which counters table C holds, one after the other, with the
// rows looked at for it (document 02, "Stop early, and say the rows read").
#![tactic(auto)]

ghost use Rattle.std.specs.Prelude.{◌≡◌, suc, ◌*◌, ◌≤◌, min, length};
ghost use Rattle.scheme.specs.Store.{table_c, width_of};
ghost use Rattle.table.specs.Table.{rows, place_of};
ghost use Rattle.table.specs.Order.{Searchable};
ghost use Rattle.table.specs.Looked.{looked_at};
ghost use Rattle.scheme.specs.Reading.{limit, walk};
ghost use Rattle.scheme.specs.RowsRead.{looked_over};
ghost use Rattle.lookups.specs.Walks.{counter_tags, anchor_tags, held_in, last_place, noted, tallied_by};

use format::{AnchorNumber, Position};
use hmac::Keyed;
use store::C_WIDTH;
use walking::Walked;

// How a row is looked up: by a search in the order of rows, or by a walk from the first row on, which
// tallies the rows looked at.
#[derive(Clone, Copy)]
pub enum Lookup {
    Search,
    Walk,
}

// The used row of C of lowest index with a tag, c where there is none, and the rows that a walk looked
// at. u is the number of used rows. [01:ST13] [02:W3.1]
fn place(t: &[u8], c: usize, u: usize, by: Lookup, tag: &[u8; 32]) -> Walked
    requires { (length t.now ≡ width_of table_c * c) × Searchable (width_of table_c) u (rows (width_of table_c) c t.now) }
    ensures at_value { result.at ≡ place_of tag.now (rows (width_of table_c) c t.now) }
    ensures rows_value { result.rows ≡ tallied_by by (looked_at tag.now (rows (width_of table_c) c t.now)) }
{
    match by {
        Lookup::Search => Walked {
            at: search::place(t, C_WIDTH, c, u, tag),
            rows: 0,
        },
        Lookup::Walk => walking::walk(t, C_WIDTH, c, u, tag),
    }
}

// B, the place of anchor B's row, c where B is 0, and the tally of rows.
#[derive(Clone, Copy)]
pub struct Anchors {
    pub b: AnchorNumber,
    pub at: usize,
    pub rows: u64,
}

// The greatest B up to c such that anchors 1 to B are all held. [01:RC1] [02:W3.4 W3.6 W3.7]
pub fn anchors_held(t: &[u8], c: usize, u: usize, by: Lookup, ct: Keyed) -> Anchors
    requires { ((length t.now ≡ width_of table_c * c) × (c ≤ 4096)) × Searchable (width_of table_c) u (rows (width_of table_c) c t.now) }
    ensures b_value { (result.b.0 ≡ walk (held_in (anchor_tags ct) (rows (width_of table_c) c t.now)) c 0) × (result.at ≡ last_place (anchor_tags ct) (rows (width_of table_c) c t.now) 0 result.b.0) }
    ensures rows_value { result.rows ≡ tallied_by by (looked_over (anchor_tags ct) (rows (width_of table_c) c t.now) 0 (min (suc result.b.0) c)) }
{
    let mut at = c;
    let mut rows: u64 = 0;
    for b in 0..c as u64 {
        let tag = format::anchor_tag(ct, AnchorNumber(b + 1));
        let found = place(t, c, u, by, &tag);
        rows += found.rows;
        if c <= found.at {
            return Anchors {
                b: AnchorNumber(b),
                at,
                rows,
            };
        }
        at = found.at;
    }
    Anchors {
        b: AnchorNumber(c as u64),
        at,
        rows,
    }
}

// k, the place of counter Start + k's row, c where k is 0, and the tally of rows.
#[derive(Clone, Copy)]
pub struct Counters {
    pub k: u64,
    pub at: usize,
    pub rows: u64,
}

// The greatest k up to c such that counters Start + 1 to Start + k are all held. Their places are
// noted. [01:RC3] [02:W3.5 W3.6 W3.7]
pub fn counters_held(
    t: &[u8],
    c: usize,
    u: usize,
    by: Lookup,
    ct: Keyed,
    start: Position,
    places: &mut [u16],
) -> Counters
    requires { ((length t.now ≡ width_of table_c * c) × (c ≤ length places.old)) × (((c ≤ 4096) × (start.0 ≤ limit)) × Searchable (width_of table_c) u (rows (width_of table_c) c t.now)) }
    ensures k_value { (result.k ≡ walk (held_in (counter_tags ct) (rows (width_of table_c) c t.now)) c start.0) × (result.at ≡ last_place (counter_tags ct) (rows (width_of table_c) c t.now) start.0 result.k) }
    ensures places_after { places.new ≡ noted (counter_tags ct) (rows (width_of table_c) c t.now) start.0 result.k places.old }
    ensures rows_value { result.rows ≡ tallied_by by (looked_over (counter_tags ct) (rows (width_of table_c) c t.now) start.0 (min (suc result.k) c)) }
{
    let mut at = c;
    let mut rows: u64 = 0;
    for k in 0..c as u64 {
        let tag = format::counter_tag(ct, Position(start.0 + k + 1));
        let next = place(t, c, u, by, &tag);
        rows += next.rows;
        if c <= next.at {
            return Counters { k, at, rows };
        }
        places[k as usize] = next.at as u16;
        at = next.at;
    }
    Counters {
        k: c as u64,
        at,
        rows,
    }
}
