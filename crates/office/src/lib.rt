// The office's half of a call: a token, made of a key (document 01, "Keys and tokens"), with what the tool tells of
// it. A refusal tells of the p that was given, since there is no store.
#![tactic(auto)]

ghost use Rattle.std.specs.Prelude.{◌≡◌};
ghost use Rattle.scheme.specs.Keys.{insert_token, find_token, count_token, compaction_token};
ghost use Rattle.scheme.specs.Refusals.{insert_token_tests, field_token_tests, key_tests};
ghost use Rattle.suite.specs.Program.{program};
ghost use Rattle.client.specs.Making.{making_answer, making_token, field_of};
ghost use Rattle.advice.specs.Advise.{room_for};
ghost use Rattle.outcome.specs.Told.{told, with_room};

use format::{COMPACTION_TOKEN, COUNT_TOKEN, FIND_TOKEN, INSERT_TOKEN};
use outcome::Outcome;

pub fn insert_token(
    key: &[u8],
    name: &[u8],
    value: &[u8],
    p: u64,
    u: u64,
    nonce: &[u8],
    token: &mut [u8; INSERT_TOKEN],
) -> Outcome
    ensures result_value { told result ≡ making_answer (insert_token_tests key.now (field_of name.now value.now) p u nonce.now) }
    ensures value { result ≡ with_room (room_for p) result }
    ensures token_after { token.new ≡ making_token (insert_token_tests key.now (field_of name.now value.now) p u nonce.now) (insert_token program key.now (field_of name.now value.now) p u nonce.now) token.old }
{
    let made = client::insert_token(key, name, value, p, u, nonce, token);
    outcome::of(made, advice::room_for(p))
}

pub fn find_token(key: &[u8], name: &[u8], value: &[u8], token: &mut [u8; FIND_TOKEN]) -> Outcome
    ensures result_value { told result ≡ making_answer (field_token_tests key.now (field_of name.now value.now)) }
    ensures value { result ≡ with_room (room_for 0) result }
    ensures token_after { token.new ≡ making_token (field_token_tests key.now (field_of name.now value.now)) (find_token program key.now (field_of name.now value.now)) token.old }
{
    let made = client::find_token(key, name, value, token);
    outcome::of(made, advice::room_for(0))
}

pub fn count_token(key: &[u8], name: &[u8], value: &[u8], token: &mut [u8; COUNT_TOKEN]) -> Outcome
    ensures result_value { told result ≡ making_answer (field_token_tests key.now (field_of name.now value.now)) }
    ensures value { result ≡ with_room (room_for 0) result }
    ensures token_after { token.new ≡ making_token (field_token_tests key.now (field_of name.now value.now)) (count_token program key.now (field_of name.now value.now)) token.old }
{
    let made = client::count_token(key, name, value, token);
    outcome::of(made, advice::room_for(0))
}

pub fn compaction_token(key: &[u8], token: &mut [u8; COMPACTION_TOKEN]) -> Outcome
    ensures result_value { told result ≡ making_answer (key_tests key.now) }
    ensures value { result ≡ with_room (room_for 0) result }
    ensures token_after { token.new ≡ making_token (key_tests key.now) (compaction_token program key.now) token.old }
{
    let made = client::compaction_token(key, token);
    outcome::of(made, advice::room_for(0))
}
