// An answer as one signed number of 64 bits, for callers in C (specs/Encoding.antt): each kind of answer's number, and what
// stands beside it in lent numbers. proofs/Injective.antt says that nothing is lost by it. [01:FM14 FM15]
#![tactic(auto)]

ghost use Rattle.std.specs.Prelude.{◌≡◌, ◌^◌, ◌<◌, pos, neg_ℤ};
ghost use Rattle.answer.specs.Answer.{carried_by, refusal, completion as completion_of, counted as counted_of, tallied as tallied_of, without_rows, faults_of, inspected as inspected_of, compaction_answer};
ghost use Rattle.table.specs.Lists.{sum};
ghost use Rattle.encoding.specs.Encoding.{packed, magnitude, encoded, answering, rows_lent, summed, numbers_lent};

use answer::{CompactionError, Faults, Refusal, Tallied, Tally};

// An answer's number. [01:FM14]
fn positive(x: u64) -> i64
    requires { x < 2 ^ 63 }
    ensures { result ≡ pos x }
{
    x as i64
}

// A refusal's number.
fn negative(x: u64) -> i64
    requires { x < 2 ^ 63 }
    ensures { result ≡ neg_ℤ (pos x) }
{
    -(x as i64)
}

// What a refusal carries, as one number.
fn carried(r: Refusal) -> u64
    ensures { result ≡ packed (carried_by r) }
{
    if let Refusal::OutputLength(n) = r {
        n
    } else {
        0
    }
}

// A refusal, with what it carries.
fn refused(r: Refusal) -> i64
    requires { magnitude (refusal r) < 2 ^ 63 }
    ensures { result ≡ encoded (refusal r) }
{
    negative(r.number() + 256 * carried(r))
}

// The answer of a call that gives no value: 0 where it is done.
pub fn completed(r: Result<(), Refusal>) -> i64
    requires { magnitude (completion_of r) < 2 ^ 63 }
    ensures { result ≡ encoded (completion_of r) }
{
    match r {
        Ok(()) => 0,
        Err(z) => refused(z),
    }
}

// A token making answers the token's length.
pub fn made(r: Result<(), Refusal>, n: u64) -> i64
    requires { (magnitude (completion_of r) < 2 ^ 63) × (n < 2 ^ 63) }
    ensures { result ≡ encoded (answering n (completion_of r)) }
{
    match r {
        Ok(()) => positive(n),
        Err(z) => refused(z),
    }
}

// The answer of a call that gives one number.
pub fn counted(r: Result<u64, Refusal>) -> i64
    requires { magnitude (counted_of r) < 2 ^ 63 }
    ensures { result ≡ encoded (counted_of r) }
{
    match r {
        Ok(n) => positive(n),
        Err(z) => refused(z),
    }
}

// The number alone of an answer with the rows looked at. [02:W3.8]
pub fn number_alone(r: Result<Tallied, Refusal>) -> i64
    requires { magnitude (without_rows (tallied_of r)) < 2 ^ 63 }
    ensures { result ≡ encoded (without_rows (tallied_of r)) }
{
    match r {
        Ok(Tallied { n, rows: _ }) => positive(n),
        Err(z) => refused(z),
    }
}

// The same, and the rows looked at where they were asked for; a refusal leaves what was lent. [02:W3.8]
pub fn tallied(t: Result<Tallied, Refusal>, rows: &mut [u64; 1]) -> i64
    requires { magnitude (without_rows (tallied_of t)) < 2 ^ 63 }
    ensures value { result ≡ encoded (without_rows (tallied_of t)) }
    ensures rows_after { rows.new ≡ rows_lent (tallied_of t) rows.old }
{
    match t {
        Ok(Tallied { n, rows: looked }) => {
            rows[0] = looked;
            positive(n)
        }
        Err(z) => refused(z),
    }
}

// A compaction's two numbers as one, also where 13 carries them. [01:OP13 RS13]
pub fn compacted(r: Result<Tally, CompactionError>) -> i64
    requires { magnitude (compaction_answer r) < 2 ^ 63 }
    ensures { result ≡ encoded (compaction_answer r) }
{
    match r {
        Ok(t) => positive(t.anchors * 0x1_0000_0000 + t.counters),
        Err(CompactionError::Refused(z)) => refused(z),
        Err(CompactionError::Damage(t)) => negative(
            13 + 256 * (t.anchors * 0x1_0000_0000 + t.counters),
        ),
    }
}

// The sum of what a check counts. [check:14]
fn total(f: Faults) -> u64
    requires { sum (faults_of f) < 2 ^ 63 }
    ensures { result ≡ sum (faults_of f) }
{
    f.mm + f.cc + f.vm + f.mv + f.vr + f.rv + f.excess
}

// The numbers of a check where they were asked for, and their sum; a refusal leaves what was lent. [check:14]
pub fn inspected(r: Result<Faults, Refusal>, numbers: &mut [u64; 7]) -> i64
    requires { magnitude (summed (inspected_of r)) < 2 ^ 63 }
    ensures value { result ≡ encoded (summed (inspected_of r)) }
    ensures numbers_after { numbers.new ≡ numbers_lent (inspected_of r) numbers.old }
{
    match r {
        Ok(f) => {
            *numbers = [f.mm, f.cc, f.vm, f.mv, f.vr, f.rv, f.excess];
            positive(total(f))
        }
        Err(z) => refused(z),
    }
}
