// The server's half of a call: what it runs with a token (document 01, "Operations"), on the bytes of a store and with
// no key, with what the tool tells of it.
#![tactic(auto)]

ghost use Rattle.std.specs.Prelude.{◌≡◌};
ghost use Rattle.scheme.specs.Insert.{insert as insert_of};
ghost use Rattle.scheme.specs.Find.{find as find_of};
ghost use Rattle.scheme.specs.Count.{count as count_of};
ghost use Rattle.scheme.specs.Compaction.{compact as compact_of};
ghost use Rattle.suite.specs.Program.{program};
ghost use Rattle.outcome.specs.Told.{told, Roomed};

use outcome::Outcome;

pub fn insert(store: &mut [u8], ids: &[u8], nonces: &[u8], token: &[u8]) -> Outcome
    ensures result_value { told result ≡ (insert_of program store.old ids.now nonces.now token.now).answer }
    ensures store_after { store.new ≡ (insert_of program store.old ids.now nonces.now token.now).store }
    ensures roomed { Roomed store.old result }
{
    let room = advice::room_in(store);
    outcome::of(insert::insert(store, ids, nonces, token), room)
}

pub fn find(store: &[u8], token: &[u8], output: &mut [u8]) -> Outcome
    ensures result_value { told result ≡ (find_of program store.now token.now output.old).answer }
    ensures output_after { output.new ≡ (find_of program store.now token.now output.old).output }
    ensures roomed { Roomed store.now result }
{
    let room = advice::room_in(store);
    outcome::of(find::find(store, token, output), room)
}

pub fn count(store: &[u8], token: &[u8]) -> Outcome
    ensures result_value { told result ≡ (count_of program store.now token.now).answer }
    ensures roomed { Roomed store.now result }
{
    let room = advice::room_in(store);
    outcome::of(count::count(store, token), room)
}

pub fn compact(store: &mut [u8], nonces: &[u8], token: &[u8]) -> Outcome
    ensures result_value { told result ≡ (compact_of program store.old nonces.now token.now).answer }
    ensures store_after { store.new ≡ (compact_of program store.old nonces.now token.now).store }
    ensures roomed { Roomed store.old result }
{
    let room = advice::room_in(store);
    outcome::of_compaction(compact::compact(store, nonces, token), room)
}
