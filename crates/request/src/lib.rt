// What a command line asks for: the command with its numbers, or which word is wrong.
#![tactic(auto)]

ghost use Rattle.std.specs.Prelude.{◌≡◌, true, false, ◌+◌, ◌<◌, ◌≤◌, Some, None, IfOk, IfErr};
ghost use Rattle.words.specs.Decimal.{decimal_of};
ghost use Rattle.words.specs.Line.{word_at};
ghost use Rattle.request.specs.Request.{first_bad, ids_given, new_of, insert_of, insert_by_of, find_of, count_of, erase_of, insert_token_of, making_of, request_by, request_of, rows_of, told, wrong_of, Bounded};

use words::{Command, line};

// What is asked for. Words are counted from 0, the command's own.
#[derive(Clone, Copy, Debug, PartialEq, Eq)]
pub enum Request {
    // What a command takes, or every command.
    Help(Command),
    // Too many words, or too few.
    Misused(Command),
    // The word that is no number, or no id.
    NotNumber(usize),
    NotId(usize),
    New {
        p: u64,
        m: u64,
        c: u64,
        s: u64,
        r: u64,
    },
    Key,
    // At share u, so many ids.
    Insert {
        u: u64,
        n: usize,
    },
    // By so many fields with their values. [02:W4.18]
    Find {
        pairs: usize,
    },
    // Whether the rows looked at are told too.
    Count {
        rows: bool,
    },
    Erase,
    Compact,
    Order,
    Show,
    // What can be seen of a store without a key. [check:12]
    Check,
    // The making of a token: of an insert's for shares 0 to p, at share u.
    InsertToken {
        p: u64,
        u: u64,
    },
    FindToken,
    CountToken,
    CompactionToken,
    // With a token in place of key file, field, value and share; so many ids.
    InsertBy {
        n: usize,
    },
    FindBy,
    CountBy {
        rows: bool,
    },
    CompactBy,
}

// What is wrong with a line: its command takes more words or fewer, or a word is no number, or no id.
#[derive(Clone, Copy, Debug, PartialEq, Eq)]
enum Wrong {
    Misused(Command),
    NotNumber(usize),
    NotId(usize),
}

impl From<Wrong> for Request {
    ghost from_gives = { λ w r. r ≡ wrong_of w };

    fn from(wrong: Wrong) -> Request {
        match wrong {
            Wrong::Misused(c) => Request::Misused(c),
            Wrong::NotNumber(i) => Request::NotNumber(i),
            Wrong::NotId(i) => Request::NotId(i),
        }
    }
}

// Word i as a number.
fn number(line: &[u8], i: usize) -> Result<u64, Wrong>
    ensures some { IfOk result (λ n. decimal_of (word_at i line.now) ≡ Some n) }
    ensures none { IfErr result (λ w. (decimal_of (word_at i line.now) ≡ None) × (w ≡ Wrong.NotNumber i)) }
{
    words::decimal(line::word(line, i)).ok_or(Wrong::NotNumber(i))
}

// How many ids stand from word `first` on. At most 65 are read: one more than an insert takes, so that it
// is refused by their number.
#[tactic(auto, using(crate::proofs::Laws::bad_later, crate::proofs::Laws::bad_here, crate::proofs::Laws::bad_none))]
fn ids(line: &[u8], first: usize) -> Result<usize, Wrong>
    requires { first ≤ 6 }
    ensures all { IfOk result (λ n. (n ≡ ids_given first line.now) × (first_bad n first line.now ≡ first + n)) }
    ensures bad { IfErr result (λ w. (w ≡ Wrong.NotId (first_bad (ids_given first line.now) first line.now))
        × (first_bad (ids_given first line.now) first line.now < first + ids_given first line.now)) }
{
    let n = line::count(line).saturating_sub(first).min(65);
    for at in first..first + n {
        if !text::is_id(line::word(line, at)) {
            return Err(Wrong::NotId(at));
        }
    }
    Ok(n)
}

#[tactic(auto, unfolding(crate::specs::Request::new_of))]
fn new(line: &[u8]) -> Result<Request, Wrong>
    ensures { told result ≡ new_of line.now }
{
    Ok(Request::New {
        p: number(line, 2)?,
        m: number(line, 3)?,
        c: number(line, 4)?,
        s: number(line, 5)?,
        r: number(line, 6)?,
    })
}

#[tactic(auto, unfolding(crate::specs::Request::insert_of))]
fn insert(line: &[u8]) -> Result<Request, Wrong>
    ensures { told result ≡ insert_of line.now }
{
    Ok(Request::Insert {
        u: number(line, 5)?,
        n: ids(line, 6)?,
    })
}

#[tactic(auto, unfolding(crate::specs::Request::insert_by_of))]
fn insert_by(line: &[u8]) -> Result<Request, Wrong>
    ensures { told result ≡ insert_by_of line.now }
{
    Ok(Request::InsertBy { n: ids(line, 4)? })
}

// A find by the pairs of words after the key file. [02:W4.18]
#[tactic(auto, unfolding(crate::specs::Request::find_of))]
fn find(line: &[u8]) -> Result<Request, Wrong>
    ensures { told result ≡ find_of line.now }
{
    let rest = line::count(line).saturating_sub(3);
    let pairs = rest / 2;
    if rest % 2 != 0 || 8 < pairs {
        return Err(Wrong::Misused(Command::Find));
    }
    Ok(Request::Find { pairs })
}

// Whether a count that takes n words asks for the rows looked at: by the word `--rows` after them.
fn rows(line: &[u8], n: usize) -> Result<bool, Wrong>
    requires { n ≤ 5 }
    ensures { result ≡ rows_of n line.now }
{
    let given = line::count(line);
    if given == n {
        return Ok(false);
    }
    if given == n + 1 && words::is(line::word(line, n), b"--rows") {
        return Ok(true);
    }
    Err(Wrong::Misused(Command::Count))
}

#[tactic(auto, unfolding(crate::specs::Request::count_of))]
fn count(line: &[u8]) -> Result<Request, Wrong>
    ensures { told result ≡ count_of 5 (Request.Count false) (Request.Count true) line.now }
{
    Ok(Request::Count {
        rows: rows(line, 5)?,
    })
}

#[tactic(auto, unfolding(crate::specs::Request::count_of))]
fn count_by(line: &[u8]) -> Result<Request, Wrong>
    ensures { told result ≡ count_of 4 (Request.CountBy false) (Request.CountBy true) line.now }
{
    Ok(Request::CountBy {
        rows: rows(line, 4)?,
    })
}

#[tactic(auto, unfolding(crate::specs::Request::erase_of))]
fn erase(line: &[u8]) -> Result<Request, Wrong>
    ensures { told result ≡ erase_of line.now }
{
    if text::is_id(line::word(line, 2)) {
        Ok(Request::Erase)
    } else {
        Err(Wrong::NotId(2))
    }
}

#[tactic(auto, unfolding(crate::specs::Request::insert_token_of))]
fn insert_token(line: &[u8]) -> Result<Request, Wrong>
    ensures { told result ≡ insert_token_of line.now }
{
    Ok(Request::InsertToken {
        p: number(line, 5)?,
        u: number(line, 6)?,
    })
}

// A token's making, by the command that it is for.
#[tactic(auto, unfolding(crate::specs::Request::making_of))]
fn making(line: &[u8]) -> Result<Request, Wrong>
    ensures { told result ≡ making_of line.now }
{
    match (words::command_of(line::word(line, 1)), line::count(line)) {
        (Command::Insert, 7) => insert_token(line),
        (Command::Find, 5) => Ok(Request::FindToken),
        (Command::Count, 5) => Ok(Request::CountToken),
        (Command::Compact, 3) => Ok(Request::CompactionToken),
        _ => Err(Wrong::Misused(Command::Token)),
    }
}

// By the command, of a line with as many words as it takes.
fn by_command(c: Command, token: bool, line: &[u8]) -> Result<Request, Wrong>
    ensures { told result ≡ request_by c token line.now }
{
    match c {
        Command::New => new(line),
        Command::Key => Ok(Request::Key),
        Command::Insert => if token { insert_by(line) } else { insert(line) },
        Command::Find => if token {
            Ok(Request::FindBy)
        } else {
            find(line)
        },
        Command::Count => if token { count_by(line) } else { count(line) },
        Command::Erase => erase(line),
        Command::Compact => if token {
            Ok(Request::CompactBy)
        } else {
            Ok(Request::Compact)
        },
        Command::Order => Ok(Request::Order),
        Command::Token => making(line),
        Command::Show => Ok(Request::Show),
        Command::Check => Ok(Request::Check),
        Command::Help => Ok(Request::Help(words::command_of(line::word(line, 1)))),
        Command::Unknown => Err(Wrong::Misused(c)),
    }
}

// What a line asks for.
#[tactic(auto, using(crate::proofs::Laws::asked, crate::proofs::Laws::misused, crate::proofs::Laws::bounded))]
pub fn read(line: &[u8]) -> Request
    ensures value { result ≡ request_of line.now }
    ensures bounded { Bounded result }
{
    let c = words::command_of(line::word(line, 0));
    let token = words::is(line::word(line, 2), b"--token");
    if !words::fit(c, token, line::count(line)) {
        return Request::Misused(c);
    }
    by_command(c, token, line).unwrap_or_else(Request::from)
}
