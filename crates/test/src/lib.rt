// Test: whether the document of an id has a label (document 02, "Find by several fields"). The rows of R
// that are the id's stand together, so that no others are looked at.
#![tactic(auto)]

ghost use Rattle.std.specs.Prelude.{◌≡◌, cond, ◌*◌, length};
ghost use Rattle.answer.specs.Answer.{counted};
ghost use Rattle.table.specs.Table.{rows};
ghost use Rattle.table.specs.Order.{Searchable};
ghost use Rattle.scheme.specs.Store.{table_r, width_of};
ghost use Rattle.scheme.specs.Keys.{mark_token_length};
ghost use Rattle.scheme.specs.Test.{test as test_of};
ghost use Rattle.suite.specs.Program.{program};
ghost use Rattle.store.specs.Check.{checked_of};
ghost use Rattle.test.specs.Marked.{tests_by};

use answer::Refusal;
use format::{ID, MARK_TOKEN, row};
use hmac::Keyed;
use store::{R_WIDTH, Shape};

// Whether a row of R, of which so many are used, is the id's and carries the R mark of the prepared RL.
// [02:W4.17]
pub fn tests(t: &[u8], n: usize, used: usize, rl: Keyed, id: &[u8; ID]) -> bool
    requires { (length t.now ≡ width_of table_r * n) × Searchable (width_of table_r) used (rows (width_of table_r) n t.now) }
    ensures { result ≡ tests_by rl (rows (width_of table_r) n t.now) id.now }
{
    let from = search::lower(t, R_WIDTH, n, used, id);
    for i in from..used {
        let at = R_WIDTH * i;
        let e = at + R_WIDTH;
        if !table::starts(&t[at..e], id) {
            return false;
        }
        if row::is_marked(t, n, i, rl, id) {
            return true;
        }
    }
    false
}

// Yes is 1, no is 0.
fn answered(yes: bool) -> u64
    ensures { result ≡ cond yes 1 0 }
{
    if yes { 1 } else { 0 }
}

// A test in a store that passed the checks, with id and token of their lengths. [02:W4.17]
fn test_in(store: &[u8], z: Shape, id: &[u8], token: &[u8]) -> Result<u64, Refusal>
    requires { (checked_of store.now ≡ Ok z) × ((length id.now ≡ 16) × (length token.now ≡ mark_token_length)) }
    ensures { counted result ≡ (test_of program store.now id.now token.now).answer }
{
    let r = z.r;
    let a = r.start;
    let e = r.end;
    let mut name = [0u8; ID];
    name.copy_from_slice(id);
    let rl = hmac::prepare(token);
    let yes = tests(&store[a..e], r.rows, r.rows - r.free, rl, &name);
    Ok(answered(yes))
}

// Whether the document of the id has the label of RL: 1 or 0; refused by 5, 6, 10, 11 and 20.
// [02:W4.15 W4.16 W4.17]
#[tactic(auto, using(crate::proofs::Laws::unfit_store))]
pub fn test(store: &[u8], id: &[u8], token: &[u8]) -> Result<u64, Refusal>
    ensures { counted result ≡ (test_of program store.now id.now token.now).answer }
{
    if id.len() != ID {
        return Err(Refusal::IdLength);
    }
    if token.len() != MARK_TOKEN {
        return Err(Refusal::TokenLength);
    }
    let z = store::sizes(store)?;
    test_in(store, z, id, token)
}
