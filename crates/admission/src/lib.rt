// What an insert is refused by, of its input and for lack of room (document 01, "Refusals from the
// input": 4, 5 and 6; "Refusals from the state": 14 to 17; document 02, "Find by several fields": 21), in the definition's
// order.
#![tactic(auto)]

ghost use Rattle.std.specs.Prelude.{◌≡◌, not, ◌||◌, ◌++◌, ◌/◌, ◌%◌, eqb, ltb};
ghost use Rattle.answer.specs.Verdict.{verdict, tested};
ghost use Rattle.scheme.specs.Refusals.{insert_input_tests, token_tests};
ghost use Rattle.scheme.specs.Keys.{insert_token_length};
ghost use Rattle.admission.specs.Tests.{room_tests};

use answer::Refusal;
use format::{ID, INSERT_TOKEN, NONCE};
use numbers::GREATEST;
use store::Shape;

// Whether the id bytes are not 16 x 1 to 64. [01:RI6]
fn bad_ids(n: usize) -> bool
    ensures { result ≡ (not (eqb (n % 16) 0) || (ltb (n / 16) 1 || ltb 64 (n / 16))) }
{
    if n % ID != 0 {
        return true;
    }
    if n / ID < 1 {
        return true;
    }
    64 < n / ID
}

// 4, 5 and 6. [01:RI5 RI6 RI7] [02:W4.11]
#[tactic(auto, using(crate::proofs::Rules::input_rules), unfolding(scheme::specs::Refusals::insert_input_tests, scheme::specs::Refusals::token_tests))]
pub fn input(ids: &[u8], nonces: &[u8], token: &[u8]) -> Result<(), Refusal>
    ensures { tested result ≡ verdict (insert_input_tests ids.now nonces.now ++ token_tests insert_token_length token.now) }
{
    let n = ids.len() / ID;
    if nonces.len() != NONCE * (2 * n + 1) {
        return Err(Refusal::NonceLength);
    }
    if bad_ids(ids.len()) {
        return Err(Refusal::IdLength);
    }
    if token.len() != INSERT_TOKEN {
        return Err(Refusal::TokenLength);
    }
    Ok(())
}

// Whether the free rows of M or of V are fewer than the ids. [01:RS8]
fn crowded(z: Shape, n: usize) -> bool
    ensures { result ≡ (ltb z.m.free n || ltb z.v.free n) }
{
    if z.m.free < n { true } else { z.v.free < n }
}

// 14 to 17, then 21, for a new count and the number of ids. [01:RS7 RS8 RS9 RS10] [02:W4.28 W4.30]
#[tactic(auto, using(crate::proofs::Rules::room_rules), unfolding(crate::specs::Tests::room_tests))]
pub fn room(z: Shape, count: u64, n: usize) -> Result<(), Refusal>
    ensures { tested result ≡ verdict (room_tests z count n) }
{
    if GREATEST < count {
        return Err(Refusal::CountRange);
    }
    if crowded(z, n) {
        return Err(Refusal::EntryRows);
    }
    if z.c.free < 1 {
        return Err(Refusal::CounterRows);
    }
    if z.s.free < 1 {
        return Err(Refusal::LogRows);
    }
    if z.r.free < n {
        return Err(Refusal::LabelRows);
    }
    Ok(())
}
