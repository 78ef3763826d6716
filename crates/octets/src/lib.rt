// Bytes: compare, copy, zero, and numbers big-endian (document 01, "Keyed function and cipher":
// a number inside a message or plaintext is 8 bytes, big-endian; "Store": the header's are 2).
#![tactic(auto)]

ghost use Rattle.std.specs.Prelude.{◌≡◌, ◌≤◌, ◌<◌, ◌+◌, ◌-◌, min, length, replicate};
ghost use Rattle.octets.specs.Compare.{same as same_bytes};
ghost use Rattle.octets.specs.Number.{bytes, number};
ghost use Rattle.octets.specs.Part.{written};

// Writes x over the whole of a slice, big-endian: its last bytes, as many as there is room for.
#[tactic(auto, using(crate::proofs::Numbers::put_byte))]
pub fn put(to: &mut [u8], x: u64)
    ensures { to.new ≡ bytes (length to.old) x }
{
    let mut rest = x;
    // An index loop: a proof does not know what was written by way of `iter_mut().rev()`.
    for i in (0..to.len()).rev() {
        to[i] = (rest % 256) as u8;
        rest /= 256;
    }
}

// The lesser of two numbers.
pub fn least(a: usize, b: usize) -> usize
    ensures { result ≡ min a b }
{
    a.min(b)
}

// The difference, or 0.
pub fn above(a: usize, b: usize) -> usize
    ensures { result ≡ a - b }
{
    a.saturating_sub(b)
}

// A byte as a wider number.
pub fn wide(x: u8) -> u64
    ensures { (result ≡ x) × (result < 256) }
{
    u64::from(x)
}

// The number of which a slice of at most 8 bytes is the bytes, big-endian.
#[tactic(auto, using(crate::proofs::Numbers::get_done))]
pub fn get(from: &[u8]) -> u64
    requires { length from.now ≤ 8 }
    ensures { result ≡ number from.now }
{
    let mut x = 0;
    for byte in from {
        x = x * 256 + u64::from(*byte);
    }
    x
}

// Copies a slice over another of the same length.
pub fn copy(to: &mut [u8], from: &[u8])
    requires { length from.now ≡ length to.old }
    ensures { to.new ≡ from.now }
{
    to.copy_from_slice(from);
}

// Zeroes a slice.
pub fn clear(to: &mut [u8])
    ensures { to.new ≡ replicate (length to.old) 0 }
{
    to.fill(0);
}

// Copies a slice over the part of another that starts at a place.
pub fn copy_at(to: &mut [u8], at: usize, from: &[u8])
    requires { at + length from.now ≤ length to.old }
    ensures { to.new ≡ written to.old at from.now }
{
    let e = at + from.len();
    to[at..e].copy_from_slice(from);
}

// Whether two texts of one length are equal.
pub fn same(a: &[u8], b: &[u8]) -> bool
    requires { length a.now ≡ length b.now }
    ensures { result ≡ same_bytes a.now b.now }
{
    a == b
}
