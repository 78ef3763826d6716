// The client, which holds the master key (document 01, "Keys and tokens"): the six token makings, refused
// in the definition's order. Each writes to a lent array of the token's size; a refusal leaves it. The
// bytes of tokens are in tokens.
#![tactic(auto)]

ghost use Rattle.std.specs.Prelude.{◌≡◌, ◌≤◌, length, OnOk};
ghost use Rattle.answer.specs.Answer.{completion};
ghost use Rattle.answer.specs.Verdict.{verdict, tested};
ghost use Rattle.scheme.specs.Keys.{insert_token, find_token, count_token, compaction_token, mark_token, part_token};
ghost use Rattle.scheme.specs.Refusals.{insert_token_tests, field_token_tests, key_tests};
ghost use Rattle.suite.specs.Program.{program};
ghost use Rattle.client.specs.Making.{making_answer, making_token, field_of};

use answer::Refusal;
use format::{
    COMPACTION_TOKEN, COUNT_TOKEN, FIND_TOKEN, INSERT_TOKEN, KEY, MARK_TOKEN, NONCE, PART_TOKEN,
};

// 1, then 2: the tests of every making that takes a field. [01:RI2 RI3]
#[tactic(auto, using(labels::proofs::Laws::in_range, crate::proofs::Rules::test_field_rules), unfolding(scheme::specs::Refusals::field_token_tests))]
fn test_field(key: &[u8], name: &[u8], value: &[u8]) -> Result<(), Refusal>
    ensures result_value { tested result ≡ verdict (field_token_tests key.now (field_of name.now value.now)) }
    ensures lengths { OnOk result ((length key.now ≡ 32) × ((length name.now ≤ 255) × (length value.now ≤ 1024))) }
{
    if key.len() != KEY {
        return Err(Refusal::KeyLength);
    }
    if labels::outside(name, value) {
        return Err(Refusal::FieldLength);
    }
    Ok(())
}

// The find token: refused by 1 and 2. [01:KT8 RI2 RI3]
pub fn find_token(
    key: &[u8],
    name: &[u8],
    value: &[u8],
    token: &mut [u8; FIND_TOKEN],
) -> Result<(), Refusal>
    ensures result_value { completion result ≡ making_answer (field_token_tests key.now (field_of name.now value.now)) }
    ensures token_after { token.new ≡ making_token (field_token_tests key.now (field_of name.now value.now)) (find_token program key.now (field_of name.now value.now)) token.old }
{
    test_field(key, name, value)?;
    tokens::write_find(key, name, value, token);
    Ok(())
}

// The count token: refused by 1 and 2. [01:KT9 RI2 RI3]
#[tactic(auto, using(format::proofs::Tags::prepared), unfolding(scheme::specs::Keys::count_token, scheme::specs::Keys::field_cl, scheme::specs::Keys::KC, suite::specs::Program::program))]
pub fn count_token(
    key: &[u8],
    name: &[u8],
    value: &[u8],
    token: &mut [u8; COUNT_TOKEN],
) -> Result<(), Refusal>
    ensures result_value { completion result ≡ making_answer (field_token_tests key.now (field_of name.now value.now)) }
    ensures token_after { token.new ≡ making_token (field_token_tests key.now (field_of name.now value.now)) (count_token program key.now (field_of name.now value.now)) token.old }
{
    test_field(key, name, value)?;
    *token = tokens::field_key(hmac::prepare(key), 2, name, value);
    Ok(())
}

// The token of a test, RL: refused by 1 and 2. [02:W4.16]
#[tactic(auto, using(format::proofs::Tags::prepared), unfolding(scheme::specs::Keys::mark_token))]
pub fn mark_token(
    key: &[u8],
    name: &[u8],
    value: &[u8],
    token: &mut [u8; MARK_TOKEN],
) -> Result<(), Refusal>
    ensures result_value { completion result ≡ making_answer (field_token_tests key.now (field_of name.now value.now)) }
    ensures token_after { token.new ≡ making_token (field_token_tests key.now (field_of name.now value.now)) (mark_token program key.now (field_of name.now value.now)) token.old }
{
    test_field(key, name, value)?;
    *token = tokens::mark_key(hmac::prepare(key), name, value);
    Ok(())
}

// A part of a joint find: refused by 1 and 2. [02:W4.18]
pub fn part_token(
    key: &[u8],
    name: &[u8],
    value: &[u8],
    token: &mut [u8; PART_TOKEN],
) -> Result<(), Refusal>
    ensures result_value { completion result ≡ making_answer (field_token_tests key.now (field_of name.now value.now)) }
    ensures token_after { token.new ≡ making_token (field_token_tests key.now (field_of name.now value.now)) (part_token program key.now (field_of name.now value.now)) token.old }
{
    test_field(key, name, value)?;
    tokens::write_part(key, name, value, token);
    Ok(())
}

// The compaction token: refused by 1. [01:KT10 RI2]
#[tactic(auto, using(format::proofs::Tags::prepared, crate::proofs::Rules::compaction_token_rules), unfolding(scheme::specs::Refusals::key_tests, scheme::specs::Keys::compaction_token))]
pub fn compaction_token(key: &[u8], token: &mut [u8; COMPACTION_TOKEN]) -> Result<(), Refusal>
    ensures result_value { completion result ≡ making_answer (key_tests key.now) }
    ensures token_after { token.new ≡ making_token (key_tests key.now) (compaction_token program key.now) token.old }
{
    if key.len() != KEY {
        return Err(Refusal::KeyLength);
    }
    *token = keys::log_key(hmac::prepare(key));
    Ok(())
}

// The insert token: refused by 1, 2, 3 and 4. [01:KT7] [02:W4.9]
#[tactic(auto, using(crate::proofs::Rules::insert_token_rules))]
pub fn insert_token(
    key: &[u8],
    name: &[u8],
    value: &[u8],
    p: u64,
    u: u64,
    nonce: &[u8],
    token: &mut [u8; INSERT_TOKEN],
) -> Result<(), Refusal>
    ensures result_value { completion result ≡ making_answer (insert_token_tests key.now (field_of name.now value.now) p u nonce.now) }
    ensures token_after { token.new ≡ making_token (insert_token_tests key.now (field_of name.now value.now) p u nonce.now) (insert_token program key.now (field_of name.now value.now) p u nonce.now) token.old }
{
    test_field(key, name, value)?;
    if keys::shares_outside(p, u) {
        return Err(Refusal::ShareRange);
    }
    if nonce.len() != NONCE {
        return Err(Refusal::NonceLength);
    }
    let k = hmac::prepare(key);
    let field = tokens::parts(k, name, value);
    let ks = keys::log_key(k);
    let rl = tokens::mark_key(k, name, value);
    tokens::write_insert(field, &ks, &rl, p as u8, u, nonce, token);
    Ok(())
}
