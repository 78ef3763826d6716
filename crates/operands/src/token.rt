// The token of a command line: its word after `--token`, or what the file holds that the word names.
ghost use Rattle.std.specs.Prelude.{◌≡◌, ◌≤◌, length, take};
ghost use Rattle.operands.specs.Token.{names_file, trimmed as Token·trimmed, token_of, token_lent, token_text};

use words::line;

// Whether a word is `@` and a file's name.
pub fn names_file(word: &[u8]) -> bool
    ensures { result ≡ names_file word.now }
{
    matches!(word, [b'@', ..])
}

// A text without the end of its line.
fn trimmed(text: &[u8]) -> &[u8]
    ensures { result.now ≡ Token·trimmed text.now }
{
    match text {
        [line @ .., b'\n'] => line,
        _ => text,
    }
}

// The bytes of a token's text: as many as there is room for, or none where it is no such text. Answers how many.
#[tactic(auto, using(crate::proofs::Rules::token_bytes_rules), unfolding(crate::specs::Token::token_of, crate::specs::Token::token_lent))]
fn bytes(text: &[u8], to: &mut [u8]) -> usize
    requires { length to.old ≤ 4096 }
    ensures to_after { take result to.new ≡ token_of (length to.old) text.now }
    ensures to_after_2 { (to.new ≡ token_lent text.now to.old) × (result ≤ length to.new) }
{
    let n = to.len();
    if !text::is_hex(text, 2 * n) {
        return 0;
    }
    text::unhex(text, to);
    n
}

// The text of the line's token, where its file holds these bytes.
#[tactic(auto, unfolding(crate::specs::Token::token_text))]
fn text_of<'a>(line: &'a [u8], held: &'a [u8]) -> &'a [u8]
    ensures { result.now ≡ token_text line.now held.now }
{
    let word = line::word(line, 3);
    if names_file(word) {
        trimmed(held)
    } else {
        word
    }
}

// The line's token, where its file holds these bytes. Answers how many.
pub fn read(line: &[u8], held: &[u8], to: &mut [u8]) -> usize
    requires { length to.old ≤ 4096 }
    ensures to_after { take result to.new ≡ token_of (length to.old) (token_text line.now held.now) }
    ensures to_after_2 { (to.new ≡ token_lent (token_text line.now held.now) to.old) × (result ≤ length to.new) }
{
    bytes(text_of(line, held), to)
}
