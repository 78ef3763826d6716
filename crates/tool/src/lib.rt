// The command-line tool as one function on slices: of a command line, the bytes of a store and of a key
// file (or of the file that holds a token), and random bytes, the outcome, the store after it and what is
// printed. What is left to the program is to ask the system for these bytes, and to write what this
// function gives.
#![tactic(auto)]

ghost use Rattle.std.specs.Prelude.{◌≡◌, ◌++◌, ◌+◌, ◌≤◌, ◌<◌, length};
ghost use Rattle.buffer.specs.Put.{Put};
ghost use Rattle.lines.specs.Answer.{answer_line};
ghost use Rattle.text.specs.Ascii.{ascii};
ghost use Rattle.request.specs.Request.{request_of, Bounded};
ghost use Rattle.usage.specs.Usage.{usage_line, help_text};
ghost use Rattle.report.specs.Run.{bad_word, Ends};
ghost use Rattle.tool.specs.Place.{place_of};

use buffer::put;
use outcome::Outcome;
use report::Ran;
use request::Request;
use words::{Command, line};

// What `help` prints.
fn help(c: Command, out: &mut [u8]) -> Ran
    requires { 1800 ≤ length out.old }
    ensures outcome_value { (result.outcome ≡ Outcome.Done) × (result.err ≡ 0) }
    ensures put { Put out.old 0 (help_text c) out.new result.out }
{
    let n = usage::put_help(out, c);
    Ran {
        outcome: Outcome::Done,
        out: n,
        err: 0,
    }
}

// A failure that was told in so many bytes.
fn failed(told: usize, out: &mut [u8]) -> Ran
    requires { 256 ≤ length out.old }
    ensures outcome_value { (result.outcome ≡ Outcome.BadWords) × (result.err ≡ told) }
    ensures put { Put out.old 0 (answer_line Outcome.BadWords) out.new result.out }
{
    let n = lines::answer(Outcome::BadWords, out);
    Ran {
        outcome: Outcome::BadWords,
        out: n,
        err: told,
    }
}

// Too many words, or too few.
fn misused(c: Command, out: &mut [u8], err: &mut [u8]) -> Ran
    requires { (256 ≤ length out.old) × (256 ≤ length err.old) }
    ensures outcome_value { result.outcome ≡ Outcome.BadWords }
    ensures put { Put out.old 0 (answer_line Outcome.BadWords) out.new result.out }
    ensures put_2 { Put err.old 0 (ascii "expected: " ++ usage_line c) err.new result.err }
{
    let a = put(err, 0, b"expected: ");
    let m = usage::put_usage(err, a, c);
    failed(m, out)
}

// A word that is not what it has to be.
fn bad_word(what: &[u8], word: &[u8], out: &mut [u8], err: &mut [u8]) -> Ran
    requires { (256 ≤ length out.old) × (length what.now + length word.now < length err.old) }
    ensures outcome_value { result.outcome ≡ Outcome.BadWords }
    ensures put { Put out.old 0 (answer_line Outcome.BadWords) out.new result.out }
    ensures put_2 { Put err.old 0 (bad_word what.now word.now) err.new result.err }
{
    let a = put(err, 0, what);
    let b = put(err, a, word);
    let m = put(err, b, b"\n");
    failed(m, out)
}

// A run that makes a token, or that takes one in place of the key file; no other request comes here.
fn with_token(
    q: Request,
    line: &[u8],
    store: &mut [u8],
    key: &[u8],
    random: &[u8],
    out: &mut [u8],
    err: &mut [u8],
) -> Ran
    requires { (135168 ≤ length out.old) × ((256 ≤ length err.old) × (Bounded q × (13 < place_of q))) }
    ensures { Ends q line.now store.old key.now random.now out.old err.old result store.new out.new err.new }
{
    match q {
        Request::InsertToken { p, u } => token_issuance::insert_token(
            line, p, u, key, random, out, err,
        ),
        Request::FindToken => token_issuance::find_token(line, key, out, err),
        Request::CountToken => token_issuance::count_token(line, key, out, err),
        Request::CompactionToken => token_issuance::compaction_token(line, key, out, err),
        Request::InsertBy { n } => token_execution::insert_by(
            line, n, store, key, random, out, err,
        ),
        Request::FindBy => token_execution::find_by(line, store, key, out, err),
        Request::CountBy { rows } => token_execution::count_by(line, rows, store, key, out, err),
        Request::CompactBy => token_execution::compact_by(line, store, key, random, out, err),
        _ => failed(0, out),
    }
}

// A run on a store, with the key file where the request takes one; else one with a token.
fn on_store(
    q: Request,
    line: &[u8],
    store: &mut [u8],
    key: &[u8],
    random: &[u8],
    out: &mut [u8],
    err: &mut [u8],
) -> Ran
    requires { (135168 ≤ length out.old) × ((256 ≤ length err.old) × (Bounded q × (5 < place_of q))) }
    ensures { Ends q line.now store.old key.now random.now out.old err.old result store.new out.new err.new }
{
    match q {
        Request::Insert { u, n } => execution::insert(line, u, n, store, key, random, out, err),
        Request::Find { pairs } => execution::find(line, pairs, store, key, out, err),
        Request::Count { rows } => execution::count(line, rows, store, key, out, err),
        Request::Erase => execution::erase(line, store, out, err),
        Request::Compact => { report::answered(commands::compact(store, key, random), 0, out, err) }
        Request::Order => execution::order(store, out, err),
        Request::Show => execution::show(store, out, err),
        Request::Check => execution::check(store, out, err),
        _ => with_token(q, line, store, key, random, out, err),
    }
}

// A run of the tool.
pub fn run(
    line: &[u8],
    store: &mut [u8],
    key: &[u8],
    random: &[u8],
    out: &mut [u8],
    err: &mut [u8],
) -> Ran
    requires { (135168 ≤ length out.old) × (length line.now + 256 ≤ length err.old) }
    ensures { Ends (request_of line.now) line.now store.old key.now random.now out.old err.old result store.new out.new err.new }
{
    let q = request::read(line);
    match q {
        Request::Help(c) => help(c, out),
        Request::Misused(c) => misused(c, out, err),
        Request::NotNumber(i) => bad_word(
            b"not a number below 1000000000: ",
            line::word(line, i),
            out,
            err,
        ),
        Request::NotId(i) => bad_word(
            b"not an id, which is 32 hex digits: ",
            line::word(line, i),
            out,
            err,
        ),
        Request::New { p, m, c, s, r } => {
            report::answered(commands::make(p, m, c, s, r, store), 0, out, err)
        }
        Request::Key => report::answered(Outcome::Done, 0, out, err),
        _ => on_store(q, line, store, key, random, out, err),
    }
}
