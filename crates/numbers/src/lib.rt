// The two numbers in a row of table C (document 01, "Store" and "Refusals from the state"): how they are read, and
// which of them are damage.
#![tactic(auto)]

ghost use Rattle.std.specs.Prelude.{◌≡◌, [], ◌*◌, ◌<◌, length, get_or};
ghost use Rattle.scheme.specs.Store.{table_c, width_of};
ghost use Rattle.table.specs.Table.{rows, body};
ghost use Rattle.numbers.specs.Numbers.{numbers_in, numbers_or, numbers_of, anchor_bad, counter_bad};

use format::row;

// The two numbers in a row of C. [01:ST10 ST11]
#[derive(Clone, Copy)]
pub struct Numbers {
    pub a: u64,
    pub n: u64,
}

// The numbers in the row of C at a place.
#[tactic(auto, using(crate::proofs::Laws::numbers_are))]
fn numbers_at(t: &[u8], c: usize, i: usize, ce: &[u8; 32]) -> Numbers
    requires { (i < c) × (length t.now ≡ width_of table_c * c) }
    ensures { numbers_of result ≡ numbers_in ce.now (body (get_or (rows (width_of table_c) c t.now) i [])) }
{
    let plain = row::text_at(t, c, i, ce);
    Numbers {
        a: octets::get(&plain[0..8]),
        n: octets::get(&plain[8..16]),
    }
}

// The numbers in the row of C at a place; others where the table has no such row.
#[tactic(auto, using(crate::proofs::Rules::numbers_or_rules), unfolding(crate::specs::Numbers::numbers_or))]
pub fn numbers_or(t: &[u8], c: usize, i: usize, ce: &[u8; 32], other: Numbers) -> Numbers
    requires { length t.now ≡ width_of table_c * c }
    ensures { numbers_of result ≡ numbers_or ce.now (rows (width_of table_c) c t.now) i (numbers_of other) }
{
    if i < c {
        numbers_at(t, c, i, ce)
    } else {
        other
    }
}

// The greatest number of an anchor, and the greatest count. [01:RS6]
pub const GREATEST: u64 = 4_294_967_295;

// A number of anchor B is above the greatest. [01:RS6]
pub fn anchor_damaged(x: Numbers) -> bool
    ensures { result ≡ anchor_bad (numbers_of x) }
{
    if GREATEST < x.a { true } else { GREATEST < x.n }
}

// The first number of counter Start + k isn't 0, or its count is above the greatest. [01:RS6]
pub fn counter_damaged(x: Numbers) -> bool
    ensures { result ≡ counter_bad (numbers_of x) }
{
    if x.a == 0 { GREATEST < x.n } else { true }
}
