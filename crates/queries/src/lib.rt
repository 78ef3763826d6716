// The calls of a list that only read a store, on their raw arguments: the making of the token, where one is taken, then the
// operation with it (document 01, "The ledger", last paragraph); those that change it are in calls. Each contract is the step
// of the claim. [01:LG16 OP16 SC6]
#![tactic(auto)]

ghost use Rattle.std.specs.Prelude.{◌≡◌};
ghost use Rattle.answer.specs.Answer.{counted, tallied, inspected};
ghost use Rattle.scheme.specs.Call.{Call};
ghost use Rattle.scheme.specs.Run.{perform};
ghost use Rattle.suite.specs.Program.{program};
ghost use Rattle.client.specs.Making.{field_of};
ghost use Rattle.part_tokens.specs.Parts.{parts_of};

use answer::{Faults, Refusal, Tallied};
use format::{COUNT_TOKEN, FIND_TOKEN, MARK_TOKEN, PART_TOKEN};

// Finds the ids under a field, to the start of the output. [01:OP6 OP7]
pub fn find(
    store: &[u8],
    key: &[u8],
    name: &[u8],
    value: &[u8],
    output: &mut [u8],
) -> Result<u64, Refusal>
    ensures result_value { counted result ≡ (perform program (Call.find key.now (field_of name.now value.now) output.old) store.now).answer }
    ensures output_after { output.new ≡ (perform program (Call.find key.now (field_of name.now value.now) output.old) store.now).output }
{
    let mut token = [0u8; FIND_TOKEN];
    client::find_token(key, name, value, &mut token)?;
    find::find(store, &token, output)
}

// Counts the ids ever inserted under a field, and the rows looked at for it. [01:OP9] [02:W3.8]
pub fn count(store: &[u8], key: &[u8], name: &[u8], value: &[u8]) -> Result<Tallied, Refusal>
    ensures { tallied result ≡ (perform program (Call.count key.now (field_of name.now value.now)) store.now).answer }
{
    let mut token = [0u8; COUNT_TOKEN];
    client::count_token(key, name, value, &mut token)?;
    count::count(store, &token)
}

// Counts the rows of a store that do not go together. [check:1]
pub fn check(store: &[u8]) -> Result<Faults, Refusal>
    ensures { inspected result ≡ (perform program Call.check store.now).answer }
{
    consistency::check(store)
}

// Tests whether the document of an id has a field with a value. [02:W4.17]
pub fn test(store: &[u8], key: &[u8], name: &[u8], value: &[u8], id: &[u8]) -> Result<u64, Refusal>
    ensures { counted result ≡ (perform program (Call.test key.now (field_of name.now value.now) id.now) store.now).answer }
{
    let mut token = [0u8; MARK_TOKEN];
    client::mark_token(key, name, value, &mut token)?;
    test::test(store, id, &token)
}

// Finds the ids that several fields have in common, to the start of the output. The parts come as a text and
// the ends of its pieces, three to a part: key, name and value. [02:W4.19 W4.24]
pub fn joint_find(
    store: &[u8],
    text: &[u8],
    ends: &[u64],
    output: &mut [u8],
) -> Result<u64, Refusal>
    ensures result_value { counted result ≡ (perform program (Call.joint_find (parts_of text.now ends.now) output.old) store.now).answer }
    ensures output_after { output.new ≡ (perform program (Call.joint_find (parts_of text.now ends.now) output.old) store.now).output }
{
    let mut parts = [0u8; 8 * PART_TOKEN];
    part_tokens::make_parts(text, ends, &mut parts)?;
    let n = ends.len() / 3;
    if 8 < n {
        return Err(Refusal::TokenLength);
    }
    let e = PART_TOKEN * n;
    joint_find::joint_find(store, &parts[..e], output)
}
