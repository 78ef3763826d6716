// The words of a command line that stands in one slice, each with a 0 after it.
ghost use Rattle.std.specs.Prelude.{◌≡◌, ◌≤◌, length};
ghost use Rattle.words.specs.Line.{before, beyond, from_word, word_at, word_count};

// How many bytes of a text stand before the first of a byte: all, where it does not stand there.
pub fn before(text: &[u8], b: u8) -> usize
    ensures value { result ≡ before b text.now }
    ensures within { result ≤ length text.now }
{
    text.iter().position(|x| *x == b).unwrap_or(text.len())
}

// What stands after the first of a byte, empty where it does not stand there.
#[tactic(auto, using(crate::proofs::Lines::beyond_found, crate::proofs::Lines::beyond_none))]
pub fn after(text: &[u8], b: u8) -> &[u8]
    ensures { result.now ≡ beyond b text.now }
{
    let end = before(text, b);
    if end < text.len() {
        &text[end + 1..]
    } else {
        &text[end..]
    }
}

// The line from word i on, empty where there are fewer.
#[tactic(auto, using(crate::proofs::Lines::from_next, crate::proofs::Lines::from_none))]
fn from(line: &[u8], i: usize) -> &[u8]
    ensures { result.now ≡ from_word i line.now }
{
    let mut rest = line;
    for _passed in 0..i {
        rest = after(rest, 0);
    }
    rest
}

// Word i, empty where there are fewer.
#[tactic(auto, unfolding(crate::specs::Line::word_at))]
pub fn word(line: &[u8], i: usize) -> &[u8]
    ensures { result.now ≡ word_at i line.now }
{
    let rest = from(line, i);
    &rest[..before(rest, 0)]
}

// How many words there are.
#[tactic(auto, using(crate::proofs::Lines::word_count_is))]
pub fn count(line: &[u8]) -> usize
    ensures { result ≡ word_count line.now }
{
    line.iter().filter(|b| **b == 0).count()
}
