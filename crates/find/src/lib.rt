// Find: the ids of a field's entries, share by share and address by address (document 01, "Operations"),
// each once (document 02, "Each document once in a find"). All shares are read first; then one pass over
// the addresses gathers the different ids, and 18 is judged by their number before any is written.
#![tactic(auto)]

ghost use Rattle.std.specs.Prelude.{◌≡◌, ◌+◌, ◌*◌, ◌≤◌, length, replicate};
ghost use Rattle.answer.specs.Answer.{counted};
ghost use Rattle.table.specs.Lists.{distinct};
ghost use Rattle.table.specs.Table.{rows};
ghost use Rattle.table.specs.Order.{Searchable};
ghost use Rattle.scheme.specs.Store.{table_c, table_m, width_of};
ghost use Rattle.scheme.specs.Keys.{find_token_length, find_cl};
ghost use Rattle.scheme.specs.Find.{share_reading, find as find_of};
ghost use Rattle.suite.specs.Program.{program};
ghost use Rattle.store.specs.Check.{checked_of};
ghost use Rattle.counter.specs.Outcome.{share_read};
ghost use Rattle.chains.specs.Chains.{kept};
ghost use Rattle.ids.specs.Ids.{ids_in, noted_in};
ghost use Rattle.find.specs.Counts.{counts_of};
ghost use Rattle.find.specs.Given.{given_answer, given_output, Empty};

use answer::Refusal;
use chains::{BUCKETS, FIRST_BYTES};
use counter::Reading;
use format::{FIND_TOKEN, ID};
use hmac::Keyed;
use ids::EntryKeys;
use lookups::Lookup;
use store::{MOST_ROWS, Shape};

// An index for as many ids as a table has rows, which serves where the counts sum to no more, and one for as
// many in each share, which serves whatever they count.
const FEW: usize = BUCKETS + MOST_ROWS;

const MANY: usize = BUCKETS + 16 * MOST_ROWS;

// What the shares count, and the sum.
#[derive(Clone, Copy)]
pub struct Counts {
    pub of: [u64; 16],
    pub sum: u64,
}

// Reads the counters of shares 0 to p out of the part that holds table C, from the prepared F(KC, x): none
// where one is damaged. [01:RS6 FM8]
fn read_all(t: &[u8], c: usize, used: usize, clx: Keyed, p: u64) -> Option<Counts>
    requires { ((length t.now ≡ width_of table_c * c) × Searchable (width_of table_c) used (rows (width_of table_c) c t.now)) × ((c ≤ 4096) × (p ≤ 15)) }
    ensures { result ≡ counts_of (share_read clx c (rows (width_of table_c) c t.now)) p }
{
    let mut of = [0u64; 16];
    let mut sum: u64 = 0;
    for u in 0..p + 1 {
        let reading = counter::read_share(t, c, used, Lookup::Search, clx, u);
        let Reading::Counter(z) = reading else {
            return None;
        };
        of[u as usize] = z.count;
        sum += z.count;
    }
    Some(Counts { of, sum })
}

// Reads the counters of all shares of a store that passed the checks, under a find token: none where one is
// damaged. [01:RS6]
pub fn counts_in(store: &[u8], z: Shape, token: &[u8]) -> Option<Counts>
    requires { (checked_of store.now ≡ Ok z) × (length token.now ≡ find_token_length) }
    ensures { result ≡ counts_of (share_reading program store.now (find_cl token.now)) z.p }
{
    let c = z.c;
    let a = c.start;
    let e = c.end;
    let clx = hmac::prepare(&token[64..FIND_TOKEN]);
    read_all(&store[a..e], c.rows, c.rows - c.free, clx, z.p)
}

// The ids of the shares 0 to p, by their counts, each once, at the start of the output, and how many; or
// 18 with their number. The index has none yet, and room for all. [01:OP6 OP7 RS11] [02:W1.1 W1.3]
fn give(
    t: &[u8],
    m: usize,
    used: usize,
    keys: EntryKeys,
    of: [u64; 16],
    p: u64,
    index: &mut [u32],
    output: &mut [u8],
) -> Result<u64, Refusal>
    requires { ((length t.now ≡ width_of table_m * m) × Searchable (width_of table_m) used (rows (width_of table_m) m t.now)) × ((m ≤ 4096) × ((p ≤ 15) × Empty index.old (length (distinct (ids_in keys (rows (width_of table_m) m t.now) of (p + 1)))))) }
    ensures result_value { counted result ≡ given_answer (distinct (ids_in keys (rows (width_of table_m) m t.now) of (p + 1))) output.old }
    ensures output_after { output.new ≡ given_output (distinct (ids_in keys (rows (width_of table_m) m t.now) of (p + 1))) output.old }
    ensures index_after { index.new ≡ (noted_in keys (rows (width_of table_m) m t.now) of (p + 1) (kept index.old (replicate 65536 0) 0)).index }
{
    let mut ids = [0u8; FIRST_BYTES];
    let n = ids::gather(t, m, used, keys, of, p, index, &mut ids);
    let room = output.len() / ID;
    if room < n {
        return Err(Refusal::OutputLength(n as u64));
    }
    chains::write(t, m, keys.me, index, &ids, n, output);
    Ok(n as u64)
}

// The same, in an index of its own: N entries are room for all.
fn give_within<const N: usize>(
    t: &[u8],
    m: usize,
    used: usize,
    keys: EntryKeys,
    of: [u64; 16],
    p: u64,
    output: &mut [u8],
) -> Result<u64, Refusal>
    requires { ((length t.now ≡ width_of table_m * m) × Searchable (width_of table_m) used (rows (width_of table_m) m t.now)) × ((m ≤ 4096) × ((p ≤ 15) × Empty (replicate N 0) (length (distinct (ids_in keys (rows (width_of table_m) m t.now) of (p + 1)))))) }
    ensures result_value { counted result ≡ given_answer (distinct (ids_in keys (rows (width_of table_m) m t.now) of (p + 1))) output.old }
    ensures output_after { output.new ≡ given_output (distinct (ids_in keys (rows (width_of table_m) m t.now) of (p + 1))) output.old }
{
    let mut index = [0u32; N];
    give(t, m, used, keys, of, p, &mut index, output)
}

// Find in a store that passed the checks, with a token of its length: refused by 13 and 18.
// [01:RS6 RS11]
fn find_in(store: &[u8], z: Shape, token: &[u8], output: &mut [u8]) -> Result<u64, Refusal>
    requires { (checked_of store.now ≡ Ok z) × (length token.now ≡ find_token_length) }
    ensures result_value { counted result ≡ (find_of program store.now token.now output.old).answer }
    ensures output_after { output.new ≡ (find_of program store.now token.now output.old).output }
{
    let m = z.m;
    let a = m.start;
    let e = m.end;
    let Some(counts) = counts_in(store, z, token) else {
        return Err(Refusal::Damage);
    };
    let mt = hmac::prepare(&token[0..32]);
    let me = hmac::prepare(&token[32..64]);
    let keys = EntryKeys { mt, me };
    let of = counts.of;
    if counts.sum <= MOST_ROWS as u64 {
        return give_within::<FEW>(&store[a..e], m.rows, m.rows - m.free, keys, of, z.p, output);
    }
    give_within::<MANY>(&store[a..e], m.rows, m.rows - m.free, keys, of, z.p, output)
}

// The ids of all shares at the start of the output, and how many: refused by 6, 10, 11, 20, 13 and 18, with
// the output as lent. [01:OP6 OP7 OP8]
#[tactic(auto, using(crate::proofs::Laws::unfit_store))]
pub fn find(store: &[u8], token: &[u8], output: &mut [u8]) -> Result<u64, Refusal>
    ensures result_value { counted result ≡ (find_of program store.now token.now output.old).answer }
    ensures output_after { output.new ≡ (find_of program store.now token.now output.old).output }
{
    if token.len() != FIND_TOKEN {
        return Err(Refusal::TokenLength);
    }
    let z = store::sizes(store)?;
    find_in(store, z, token, output)
}
