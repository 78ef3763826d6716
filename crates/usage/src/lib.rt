// What each command takes, as bytes in a lent slice: for `help`, and for a line with too many words or too few.
#![tactic(auto)]

ghost use Rattle.std.specs.Prelude.{◌≡◌, ◌+◌, ◌≤◌, length};
ghost use Rattle.buffer.specs.Put.{Put};
ghost use Rattle.usage.specs.Usage.{usage_line, first_lines, later_lines, help_text};

use buffer::put;
use words::Command;

const NEW: &[u8] =
    b"mazhkuri new STORE P M C S R: makes a store for shares 0 to P (at most 15) with M entries, C counters, S log rows and R labels (1 to 4096 each)\n";

const KEY: &[u8] =
    b"mazhkuri key KEYFILE: makes a key file of 32 random bytes, for its owner alone\n";

const INSERT: &[u8] =
    b"mazhkuri insert STORE KEYFILE FIELD VALUE SHARE ID..., or insert STORE --token TOKEN ID...: inserts 1 to 64 ids of 32 hex digits each; prints the new count of this share\n";

const FIND: &[u8] =
    b"mazhkuri find STORE KEYFILE FIELD VALUE [FIELD VALUE]..., or find STORE --token TOKEN: prints each id on a line; by 2 to 8 fields, the ids that are under each of them\n";

const COUNT: &[u8] =
    b"mazhkuri count STORE KEYFILE FIELD VALUE [--rows], or count STORE --token TOKEN [--rows]: prints how many ids were ever inserted, erased ones among them; with --rows, the rows looked at too\n";

const ERASE: &[u8] =
    b"mazhkuri erase STORE ID: erases an id from every field; prints how many entries it had\n";

const COMPACT: &[u8] =
    b"mazhkuri compact STORE KEYFILE, or compact STORE --token TOKEN: frees counter and log rows; prints the anchors written and the counters freed\n";

const ORDER: &[u8] =
    b"mazhkuri order STORE: puts the rows of a store in byte order, as 20 asks for; prints how many rows are used; takes no key\n";

const TOKEN: &[u8] =
    b"mazhkuri token insert KEYFILE FIELD VALUE P SHARE, token find KEYFILE FIELD VALUE, token count KEYFILE FIELD VALUE, token compact KEYFILE: prints a TOKEN; @FILE stands for what a file holds\n";

const SHOW: &[u8] =
    b"mazhkuri show STORE: prints the sizes of a store and how full it is; takes no key\n";

const CHECK: &[u8] =
    b"mazhkuri check STORE: counts the rows of a store that do not go together, in seven lines, and says what to do where there are any; takes no key\n";

const HELP: &[u8] = b"mazhkuri help [COMMAND]: prints what a command takes\n";

const UNKNOWN: &[u8] =
    b"a command of: new key insert find count erase compact order token show check help\n";

const REFUSED: &[u8] =
    b"a command that is not done prints `refused` and a rule's number, `misused` or `failed` to standard output, and what to do to standard error\n";

// What a command takes.
#[tactic(auto, unfolding(crate::specs::Usage::usage_line))]
fn line_of(c: Command) -> &'static [u8]
    ensures line { result.now ≡ usage_line c }
    ensures short { length result.now ≤ 200 }
{
    match c {
        Command::New => NEW,
        Command::Key => KEY,
        Command::Insert => INSERT,
        Command::Find => FIND,
        Command::Count => COUNT,
        Command::Erase => ERASE,
        Command::Compact => COMPACT,
        Command::Order => ORDER,
        Command::Token => TOKEN,
        Command::Show => SHOW,
        Command::Check => CHECK,
        Command::Help => HELP,
        Command::Unknown => UNKNOWN,
    }
}

// Puts what a command takes.
pub fn put_usage(to: &mut [u8], at: usize, c: Command) -> usize
    requires { at + 200 ≤ length to.old }
    ensures { (Put to.old at (usage_line c) to.new result) × (result ≤ at + 200) }
{
    put(to, at, line_of(c))
}

// What the commands that make files, those that take a field, and erase take.
fn put_first(to: &mut [u8]) -> usize
    requires { 840 ≤ length to.old }
    ensures { (Put to.old 0 first_lines to.new result) × (result ≤ 840) }
{
    let a = put(to, 0, NEW);
    let b = put(to, a, KEY);
    let c = put(to, b, INSERT);
    let d = put(to, c, FIND);
    let e = put(to, d, COUNT);
    put(to, e, ERASE)
}

// What compact, order, token, show and check take.
fn put_later(to: &mut [u8], at: usize) -> usize
    requires { at + 680 ≤ length to.old }
    ensures { (Put to.old at later_lines to.new result) × (result ≤ at + 680) }
{
    let a = put(to, at, COMPACT);
    let b = put(to, a, ORDER);
    let c = put(to, b, TOKEN);
    let d = put(to, c, SHOW);
    put(to, d, CHECK)
}

// What every command takes.
fn put_all(to: &mut [u8]) -> usize
    requires { 1800 ≤ length to.old }
    ensures { Put to.old 0 (help_text Command.Unknown) to.new result }
{
    let a = put_first(to);
    let b = put_later(to, a);
    let c = put(to, b, HELP);
    put(to, c, REFUSED)
}

// What `help` prints of a command; of none, every command.
pub fn put_help(to: &mut [u8], c: Command) -> usize
    requires { 1800 ≤ length to.old }
    ensures { Put to.old 0 (help_text c) to.new result }
{
    if let Command::Unknown = c {
        return put_all(to);
    }
    put_usage(to, 0, c)
}
