// Insert (document 01, "Operations"; document 02, "Find by several fields"): refusals from the input,
// then from the state, in the definition's order (admission); then the new rows are made and placed
// (placing).
#![tactic(auto)]

ghost use Rattle.std.specs.Prelude.{◌≡◌, ◌*◌};
ghost use Rattle.table.specs.Table.{rows};
ghost use Rattle.answer.specs.Answer.{counted};
ghost use Rattle.scheme.specs.Keys.{token_cl};
ghost use Rattle.scheme.specs.Insert.{insert_reading, insert as insert_of};
ghost use Rattle.suite.specs.Program.{program};
ghost use Rattle.store.specs.Check.{checked_of};
ghost use Rattle.format.specs.Tags.{KeysOf};
ghost use Rattle.counter.specs.Outcome.{reading_of};
ghost use Rattle.insert.specs.Tests.{Accepted, Matching};

use answer::Refusal;
use counter::{Counter, Reading};
use format::{ID, Keys, NONCE, Position, row};
use lookups::Lookup;
use store::Shape;

// An insert whose counter was read: 14 to 17 and 21, or the rows are written. [01:OP1 OP3] [02:W4.12]
#[tactic(auto, using(crate::proofs::Rules::insert_read_rules), unfolding(scheme::specs::Insert::counter_nonce))]
fn insert_read(
    store: &mut [u8],
    z: Shape,
    x: Counter,
    keys: Keys,
    cl: &[u8; 32],
    ids: &[u8],
    nonces: &[u8],
    token: &[u8],
) -> Result<u64, Refusal>
    requires accepted { Accepted ids.now nonces.now token.now × Matching store.old token.now z }
    requires x_value { (reading_of (Reading.Counter x) ≡ insert_reading program store.old token.now) × (KeysOf keys cl.now × (cl.now ≡ token_cl token.now)) }
    ensures result_value { counted result ≡ (insert_of program store.old ids.now nonces.now token.now).answer }
    ensures store_after { store.new ≡ (insert_of program store.old ids.now nonces.now token.now).store }
{
    let n = ids.len() / ID;
    let count = x.count + n as u64;
    admission::room(z, count, n)?;
    let a = NONCE * n;
    let e = a + NONCE;
    let start = x.start;
    let row = row::counter_row(keys, cl, Position(start.0 + x.k + 1), &nonces[a..e], count);
    placing::write(store, z, x.count, ids, nonces, token, &row);
    Ok(count)
}

// An insert into a store that passed the checks: 12, then the counter is read, or 13.
// [01:RS4 RS6 RC5 FM8]
#[tactic(auto, using(crate::proofs::Rules::insert_checked_rules), unfolding(scheme::specs::Keys::token_p, scheme::specs::Keys::token_cl))]
fn insert_checked(
    store: &mut [u8],
    z: Shape,
    ids: &[u8],
    nonces: &[u8],
    token: &[u8],
) -> Result<u64, Refusal>
    requires { Accepted ids.now nonces.now token.now × (checked_of store.old ≡ Ok z) }
    ensures result_value { counted result ≡ (insert_of program store.old ids.now nonces.now token.now).answer }
    ensures store_after { store.new ≡ (insert_of program store.old ids.now nonces.now token.now).store }
{
    let p = z.p;
    if u64::from(token[0]) != p {
        return Err(Refusal::TokenShares);
    }
    let c = z.c;
    let a = c.start;
    let e = c.end;
    let mut cl = [0u8; 32];
    cl.copy_from_slice(&token[65..97]);
    let keys = format::keys_of(&cl);
    let Reading::Counter(x) = counter::read_keyed(
        &store[a..e],
        c.rows,
        c.rows - c.free,
        Lookup::Search,
        &cl,
        keys,
    ) else {
        return Err(Refusal::Damage);
    };
    insert_read(store, z, x, keys, &cl, ids, nonces, token)
}

// Insert of 1 to 64 ids under an insert token; answers the new count. [01:OP1 OP2 OP3 OP14]
#[tactic(auto, using(crate::proofs::Answers::refused_input, crate::proofs::Answers::refused_store))]
pub fn insert(store: &mut [u8], ids: &[u8], nonces: &[u8], token: &[u8]) -> Result<u64, Refusal>
    ensures result_value { counted result ≡ (insert_of program store.old ids.now nonces.now token.now).answer }
    ensures store_after { store.new ≡ (insert_of program store.old ids.now nonces.now token.now).store }
{
    admission::input(ids, nonces, token)?;
    let z = store::sizes(store)?;
    insert_checked(store, z, ids, nonces, token)
}
