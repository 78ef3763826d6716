// A line put together in a lent slice, piece by piece: each function puts its piece after the first
// `at` bytes, and answers where the piece ends.
#![tactic(auto)]

ghost use Rattle.std.specs.Prelude.{◌≡◌, ◌+◌, ◌≤◌, length};
ghost use Rattle.buffer.specs.Put.{Put};
ghost use Rattle.buffer.specs.Decimal.{decimal_text, counted};

// Puts a text after the first `at` bytes.
pub fn put(to: &mut [u8], at: usize, words: &[u8]) -> usize
    requires { at + length words.now ≤ length to.old }
    ensures { Put to.old at words.now to.new result }
{
    octets::copy_at(to, at, words);
    at + words.len()
}

// Puts a number's decimal digits.
#[tactic(auto, using(crate::proofs::Laws::said, crate::proofs::Number::fewest_text, crate::proofs::Number::at_most_20))]
pub fn put_number(to: &mut [u8], at: usize, n: u64) -> usize
    requires { at + 20 ≤ length to.old }
    ensures { (Put to.old at (decimal_text n) to.new result) × (result ≤ at + 20) }
{
    let mut digits = [0u8; 20];
    let k = io::decimal(n, &mut digits);
    put(to, at, &digits[..k])
}

// Puts a number and a text.
pub fn put_counted(to: &mut [u8], at: usize, n: u64, words: &[u8]) -> usize
    requires { at + 20 + length words.now ≤ length to.old }
    ensures { (Put to.old at (counted n words.now) to.new result) × (result ≤ at + 20 + length words.now) }
{
    let e = put_number(to, at, n);
    put(to, e, words)
}
