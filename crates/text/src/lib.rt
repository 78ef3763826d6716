// Bytes as text: hexadecimal, read and written, and bars.
#![tactic(auto)]

ghost use Rattle.std.specs.Prelude.{◌≡◌, ◌*◌, ◌≤◌, ◌<◌, length, IfSome};
ghost use Rattle.text.specs.Hex.{nibble_of, all_hex, is_hex_of, is_id_of, unhex_of, pair_of, hex_of, digit_at};
ghost use Rattle.text.specs.Hex.{glyph as Hex·glyph};
ghost use Rattle.text.specs.Bar.{bar_of, bar_at};

// The value of a hexadecimal digit, in either case.
fn nibble(b: u8) -> Option<u8>
    ensures value { result ≡ nibble_of b }
    ensures small { IfSome result (λ n. n < 16) }
{
    match b {
        b'0'..=b'9' => Some(b - b'0'),
        b'A'..=b'F' => Some(b - b'A' + 10),
        b'a'..=b'f' => Some(b - b'a' + 10),
        _ => None,
    }
}

// Whether every byte is a hexadecimal digit.
fn all_hex(word: &[u8]) -> bool
    ensures { result ≡ all_hex word.now }
{
    word.iter().all(|b| nibble(*b).is_some())
}

// Whether a word is so many hexadecimal digits.
pub fn is_hex(word: &[u8], n: usize) -> bool
    ensures { result ≡ is_hex_of n word.now }
{
    word.len() == n && all_hex(word)
}

// Whether a word is an id: 32 hexadecimal digits.
pub fn is_id(word: &[u8]) -> bool
    ensures { result ≡ is_id_of word.now }
{
    is_hex(word, 32)
}

// The byte of two digits; what is no digit counts as 0.
fn pair(a: u8, b: u8) -> u8
    ensures { result ≡ pair_of a b }
{
    nibble(a).unwrap_or(0) * 16 + nibble(b).unwrap_or(0)
}

// The bytes that a word of twice as many digits stands for.
#[tactic(auto, using(crate::proofs::Laws::grown), unfolding(crate::specs::Tabulate::tabulate))]
pub fn unhex(word: &[u8], to: &mut [u8])
    requires { length word.now ≡ 2 * length to.old }
    ensures { to.new ≡ unhex_of word.now (length to.old) }
{
    for (i, byte) in to.iter_mut().enumerate() {
        *byte = pair(word[2 * i], word[2 * i + 1]);
    }
}

// The digit of a value below 16, in lower case.
fn glyph(d: u8) -> u8
    requires { d < 16 }
    ensures { result ≡ Hex·glyph d }
{
    match d {
        0..=9 => b'0' + d,
        _ => b'a' + (d - 10),
    }
}

// The digit at a place of the bytes' hexadecimal text.
fn digit(bytes: &[u8], j: usize) -> u8
    requires { j < 2 * length bytes.now }
    ensures { result ≡ digit_at bytes.now j }
{
    let byte = bytes[j / 2];
    if j % 2 == 0 {
        glyph(byte / 16)
    } else {
        glyph(byte % 16)
    }
}

// The hexadecimal text of bytes, two digits each.
#[tactic(auto, using(crate::proofs::Laws::grown), unfolding(crate::specs::Tabulate::tabulate))]
pub fn hex(bytes: &[u8], to: &mut [u8])
    requires { length to.old ≡ 2 * length bytes.now }
    ensures { to.new ≡ hex_of bytes.now (length to.old) }
{
    for (j, place) in to.iter_mut().enumerate() {
        *place = digit(bytes, j);
    }
}

// The mark at a place of a bar.
fn bar_mark(used: usize, total: usize, width: usize, i: usize) -> u8
    requires { (used ≤ 65536) × ((total ≤ 65536) × ((width ≤ 65536) × (i < width))) }
    ensures { result ≡ bar_at used total width i }
{
    if i * total < used * width { b'#' } else { b'.' }
}

// A bar of a slice's width, filled as far as `used` is of `total`.
#[tactic(auto, using(crate::proofs::Laws::grown), unfolding(crate::specs::Tabulate::tabulate))]
pub fn bar(used: usize, total: usize, to: &mut [u8])
    requires { (used ≤ 65536) × ((total ≤ 65536) × (length to.old ≤ 65536)) }
    ensures { to.new ≡ bar_of used total (length to.old) (length to.old) }
{
    let width = to.len();
    for (i, mark) in to.iter_mut().enumerate() {
        *mark = bar_mark(used, total, width, i);
    }
}
