// The lines that the command-line tool prints to standard output, as bytes at the start of a lent slice.
// Each function answers how many bytes there are, and which these are is said by specs/.
#![tactic(auto)]

ghost use Rattle.std.specs.Prelude.{◌≡◌, ◌+◌, ◌*◌, ◌≤◌, length};
ghost use Rattle.buffer.specs.Put.{Put};
ghost use Rattle.lines.specs.Answer.{refused_line, answer_line, count_lines};
ghost use Rattle.text.specs.Hex.{hex_of};
ghost use Rattle.lines.specs.Ids.{hex_line, id_lines};

use buffer::{put, put_counted};
use outcome::Outcome;
use tally::put_tally;

// The line of a refusal.
fn put_refused(to: &mut [u8], number: u64) -> usize
    requires { 29 ≤ length to.old }
    ensures { (Put to.old 0 (refused_line number) to.new result) × (result ≤ 29) }
{
    let e = put(to, 0, b"refused ");
    put_counted(to, e, number, b"\n")
}

// What standard output gets of an outcome; what a check counted is told by crates/diagnosis.
#[tactic(auto, using(buffer::proofs::Laws::nothing, buffer::proofs::Laws::said), unfolding(crate::specs::Answer::answer_line))]
pub fn answer(o: Outcome, to: &mut [u8]) -> usize
    requires { 256 ≤ length to.old }
    ensures { Put to.old 0 (answer_line o) to.new result }
{
    match o {
        Outcome::Number(n) => put_counted(to, 0, n, b"\n"),
        Outcome::Counted { n, rows: _ } => put_counted(to, 0, n, b"\n"),
        Outcome::Inspected(_) => 0,
        Outcome::Compacted(t) => put_tally(to, 0, t),
        Outcome::Damaged(_) => put_refused(to, 13),
        Outcome::WrongKey(_) => put(to, 0, b"refused\n"),
        Outcome::Refused(r, _) => put_refused(to, r.number()),
        Outcome::Done => 0,
        Outcome::BadWords => put(to, 0, b"misused\n"),
    }
}

// What standard output gets of a count with the rows that were looked at.
pub fn count(n: u64, rows: u64, to: &mut [u8]) -> usize
    requires { 58 ≤ length to.old }
    ensures { Put to.old 0 (count_lines n rows) to.new result }
{
    let a = put_counted(to, 0, n, b"\n");
    let e = put(to, a, b"rows looked at: ");
    put_counted(to, e, rows, b"\n")
}

// The line of so many digits, which go to a lent slice first.
fn put_digits(to: &mut [u8], at: usize, bytes: &[u8], digits: &mut [u8]) -> usize
    requires { (length digits.old ≡ 2 * length bytes.now) × (at + (2 * length bytes.now + 1) ≤ length to.old) }
    ensures put { (Put to.old at (hex_line bytes.now) to.new result) × (result ≡ at + (2 * length bytes.now + 1)) }
    ensures digits_after { digits.new ≡ hex_of bytes.now (2 * length bytes.now) }
{
    text::hex(bytes, digits);
    let e = put(to, at, digits);
    put(to, e, b"\n")
}

// The line of an id's or a token's digits, after the first `at` bytes.
#[tactic(auto, using(crate::proofs::Rules::put_hex_rules))]
pub fn put_hex(to: &mut [u8], at: usize, bytes: &[u8]) -> usize
    requires { (length bytes.now ≤ 173) × (at + (2 * length bytes.now + 1) ≤ length to.old) }
    ensures { (Put to.old at (hex_line bytes.now) to.new result) × (result ≡ at + (2 * length bytes.now + 1)) }
{
    let mut digits = [0u8; 346];
    let n = 2 * bytes.len();
    put_digits(to, at, bytes, &mut digits[..n])
}

// The lines of the first n ids of a slice.
#[tactic(auto, using(buffer::proofs::Laws::nothing, buffer::proofs::Laws::said, crate::proofs::Laws::next_id), unfolding(crate::specs::Ids::id_lines))]
pub fn ids(found: &[u8], n: usize, to: &mut [u8]) -> usize
    requires { (16 * n ≤ length found.now) × (33 * n ≤ length to.old) }
    ensures { Put to.old 0 (id_lines n found.now) to.new result }
{
    let mut at = 0;
    // By a place, as the definition of the lines goes: chunks would have to be tied to places first.
    for i in 0..n {
        let a = 16 * i;
        at = put_hex(to, at, &found[a..a + 16]);
    }
    at
}
