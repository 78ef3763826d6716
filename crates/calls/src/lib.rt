// The calls of a list that change a store, on their raw arguments: the making of the token, where one is taken, then the operation
// with it (document 01, "The ledger", last paragraph); those that only read it are in queries. Each contract is the step of
// the claim. [01:LG16 OP16 SC6]
#![tactic(auto)]

ghost use Rattle.std.specs.Prelude.{◌≡◌};
ghost use Rattle.answer.specs.Answer.{counted, compaction_answer};
ghost use Rattle.scheme.specs.Call.{Call};
ghost use Rattle.scheme.specs.Run.{perform};
ghost use Rattle.suite.specs.Program.{program};
ghost use Rattle.client.specs.Making.{field_of};

use answer::{CompactionError, Refusal, Tally};
use format::{COMPACTION_TOKEN, INSERT_TOKEN};

// Inserts ids under a field in share u. [01:OP1]
pub fn insert(
    store: &mut [u8],
    key: &[u8],
    name: &[u8],
    value: &[u8],
    p: u64,
    u: u64,
    nonce: &[u8],
    ids: &[u8],
    nonces: &[u8],
) -> Result<u64, Refusal>
    ensures result_value { counted result ≡ (perform program (Call.insert key.now (field_of name.now value.now) p u nonce.now ids.now nonces.now) store.old).answer }
    ensures store_after { store.new ≡ (perform program (Call.insert key.now (field_of name.now value.now) p u nonce.now ids.now nonces.now) store.old).store }
{
    let mut token = [0u8; INSERT_TOKEN];
    client::insert_token(key, name, value, p, u, nonce, &mut token)?;
    insert::insert(store, ids, nonces, &token)
}

// Erases an id from every field. [01:OP4]
pub fn erase(store: &mut [u8], id: &[u8]) -> Result<u64, Refusal>
    ensures result_value { counted result ≡ (perform program (Call.erase id.now) store.old).answer }
    ensures store_after { store.new ≡ (perform program (Call.erase id.now) store.old).store }
{
    erase::erase(store, id)
}

// Compacts the counters of every field inserted under since the last compaction. [01:OP10]
pub fn compact(store: &mut [u8], key: &[u8], nonces: &[u8]) -> Result<Tally, CompactionError>
    ensures result_value { compaction_answer result ≡ (perform program (Call.compact key.now nonces.now) store.old).answer }
    ensures store_after { store.new ≡ (perform program (Call.compact key.now nonces.now) store.old).store }
{
    let mut token = [0u8; COMPACTION_TOKEN];
    client::compaction_token(key, &mut token)?;
    compact::compact(store, nonces, &token)
}

// Puts a store in form. [02:W2.6]
pub fn order(store: &mut [u8]) -> Result<u64, Refusal>
    ensures result_value { counted result ≡ (perform program Call.order store.old).answer }
    ensures store_after { store.new ≡ (perform program Call.order store.old).store }
{
    order::order(store)
}
