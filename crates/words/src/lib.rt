// The words of the command line: commands by their names, and decimals.
#![tactic(auto)]

pub mod line;

ghost use Rattle.std.specs.Prelude.{◌≡◌};
ghost use Rattle.octets.specs.Compare.{same as same_bytes};
ghost use Rattle.words.specs.Decimal.{decimal_of, step_of};
ghost use Rattle.words.specs.Words.{command_of, words_fit};

// What a word is as a command.
#[derive(Clone, Copy, Debug, PartialEq, Eq)]
pub enum Command {
    New,
    Key,
    Insert,
    Find,
    Count,
    Erase,
    Compact,
    Order,
    Token,
    Show,
    Check,
    Help,
    Unknown,
}

// The number that a further digit makes of the number so far.
fn step(n: u64, b: u8) -> Option<u64>
    ensures { result ≡ step_of n b }
{
    match b {
        b'0'..=b'9' if n <= 99_999_999 => Some(n * 10 + u64::from(b - b'0')),
        _ => None,
    }
}

// A word as a decimal below 1,000,000,000.
#[tactic(auto, using(crate::proofs::Laws::no_digit, crate::proofs::Laws::first_digit, crate::proofs::Laws::next_digit, crate::proofs::Laws::bad_digit, crate::proofs::Laws::no_more))]
pub fn decimal(word: &[u8]) -> Option<u64>
    ensures { result ≡ decimal_of word.now }
{
    if word.is_empty() {
        return None;
    }
    let mut n = 0;
    for b in word {
        n = step(n, *b)?;
    }
    Some(n)
}

// Whether a word is a name.
pub fn is(word: &[u8], name: &[u8]) -> bool
    ensures { result ≡ same_bytes word.now name.now }
{
    word == name
}

// The command that a word names. A chain of tests: the check leaves arms of a `match` on byte strings open, those of six bytes and more.
pub fn command_of(word: &[u8]) -> Command
    ensures { result ≡ command_of word.now }
{
    if is(word, b"new") {
        Command::New
    } else if is(word, b"key") {
        Command::Key
    } else if is(word, b"insert") {
        Command::Insert
    } else if is(word, b"erase") {
        Command::Erase
    } else if is(word, b"compact") {
        Command::Compact
    } else if is(word, b"order") {
        Command::Order
    } else if is(word, b"find") {
        Command::Find
    } else if is(word, b"count") {
        Command::Count
    } else if is(word, b"token") {
        Command::Token
    } else if is(word, b"show") {
        Command::Show
    } else if is(word, b"check") {
        Command::Check
    } else if is(word, b"help") {
        Command::Help
    } else {
        Command::Unknown
    }
}

// Whether a command takes so many words, its own among them; with a token, other than with a key file.
pub fn fit(c: Command, token: bool, n: usize) -> bool
    ensures { result ≡ words_fit c token n }
{
    match c {
        Command::New => n == 7,
        Command::Key => n == 2,
        Command::Insert => if token { 4 <= n } else { 6 <= n },
        Command::Find => if token { n == 4 } else { 5 <= n },
        Command::Count => if token { 4 <= n } else { 5 <= n },
        Command::Erase => n == 3,
        Command::Compact => if token { n == 4 } else { n == 3 },
        Command::Order => n == 2,
        Command::Token => 3 <= n,
        Command::Show => n == 2,
        Command::Check => n == 2,
        Command::Help => true,
        Command::Unknown => false,
    }
}
