// Count: the sum over the shares of what their counters count (document 01, "Operations"), with the rows looked at (document
// 02, "Stop early, and say the rows read").
#![tactic(auto)]

ghost use Rattle.std.specs.Prelude.{◌≡◌, ◌*◌, ◌≤◌, length};
ghost use Rattle.scheme.specs.Store.{table_c, width_of};
ghost use Rattle.answer.specs.Answer.{tallied, without_rows, rows_of};
ghost use Rattle.table.specs.Table.{rows};
ghost use Rattle.table.specs.Order.{Searchable};
ghost use Rattle.scheme.specs.Count.{count as count_of, full_count, most_rows};
ghost use Rattle.suite.specs.Program.{program};
ghost use Rattle.counter.specs.Outcome.{share_read, share_looked};
ghost use Rattle.count.specs.Sum.{sum_answer};

use answer::{Refusal, Tallied};
use counter::Reading;
use format::COUNT_TOKEN;
use hmac::Keyed;
use lookups::Lookup;

// Reads the counters of shares 0 to p out of the part that holds table C, from the prepared F(KC, x),
// and adds up their counts and the rows looked at; 13 where one is damaged. [01:OP9 RS6 FM7 FM8]
// [02:W3.8 W3.9]
fn sum_of_counts(t: &[u8], c: usize, used: usize, clx: Keyed, p: u64) -> Result<Tallied, Refusal>
    requires { ((length t.now ≡ width_of table_c * c) × Searchable (width_of table_c) used (rows (width_of table_c) c t.now)) × ((c ≤ 4096) × (p ≤ 15)) }
    ensures { tallied result ≡ sum_answer (share_read clx c (rows (width_of table_c) c t.now)) (share_looked clx c (rows (width_of table_c) c t.now)) p }
{
    let mut sum: u64 = 0;
    let mut rows: u64 = 0;
    for u in 0..p + 1 {
        let reading = counter::read_share(t, c, used, Lookup::Walk, clx, u);
        let Reading::Counter(z) = reading else {
            return Err(Refusal::Damage);
        };
        sum += z.count;
        rows += z.rows;
    }
    Ok(Tallied { n: sum, rows })
}

// The sum over the shares, erased entries included, and the rows looked at: refused by 6, 10, 11, 20
// and 13. The sum is that of the full reading, and the rows are at most 2 × c × (p + 1) × the used
// rows of C. [01:OP9] [02:W3.8 W3.10 W3.11 W3.12]
pub fn count(store: &[u8], token: &[u8]) -> Result<Tallied, Refusal>
    ensures result_value { tallied result ≡ (count_of program store.now token.now).answer }
    ensures result_bound { rows_of (tallied result) ≤ most_rows store.now }
    ensures result_value_2 { without_rows (tallied result) ≡ full_count program store.now token.now }
{
    if token.len() != COUNT_TOKEN {
        return Err(Refusal::TokenLength);
    }
    let z = store::sizes(store)?;
    let c = z.c;
    let a = c.start;
    let e = c.end;
    let clx = hmac::prepare(token);
    sum_of_counts(&store[a..e], c.rows, c.rows - c.free, clx, z.p)
}
