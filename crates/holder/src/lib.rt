// Who holds a lock. A lock file has one line: the number of the process that made it, a space, the name of
// its host and a line feed. Here the line is put together, and read: whatever a file holds may be given.
#![tactic(auto)]

ghost use Rattle.std.specs.Prelude.{◌≡◌, ◌+◌, ◌≤◌, length};
ghost use Rattle.io.specs.Counts.{IsPrefixLen};
ghost use Rattle.buffer.specs.Put.{Put};
ghost use Rattle.holder.specs.Line.{line_of, up_to, body_of, host_of, is_ended, all_shown, is_name, process_of};
ghost use Rattle.holder.specs.Holder.{holder_of};

use buffer::{put, put_counted};
use words::line;

// Whose a lock is: a process's on this host, one's on another, or nobody's that it names.
#[derive(Clone, Copy, Debug, PartialEq, Eq)]
pub enum Holder {
    Here(u64),
    Elsewhere(u64),
    Unknown,
}

// Puts the line of a process and its host at the start of a slice. Answers its length.
pub fn put_line(to: &mut [u8], process: u64, host: &[u8]) -> usize
    requires { 22 + length host.now ≤ length to.old }
    ensures put { Put to.old 0 (line_of process host.now) to.new result }
    ensures prefix_len { IsPrefixLen result to.new }
{
    let a = put_counted(to, 0, process, b" ");
    let e = put(to, a, host);
    put(to, e, b"\n")
}

// A text up to the first of a byte, or all of it.
pub fn up_to(text: &[u8], b: u8) -> &[u8]
    ensures result_value { result.now ≡ up_to b text.now }
    ensures result_in_bounds { length result.now ≤ length text.now }
{
    &text[..line::before(text, b)]
}

// Whether a line's last byte is a line feed.
fn is_ended(line: &[u8]) -> bool
    ensures { result ≡ is_ended line.now }
{
    matches!(line.last(), Some(b'\n'))
}

// A line without its last byte.
fn body(line: &[u8]) -> &[u8]
    ensures { result.now ≡ body_of line.now }
{
    &line[..line.len().saturating_sub(1)]
}

// The host that a line names: what stands after its first space.
pub fn host(line: &[u8]) -> &[u8]
    ensures { result.now ≡ host_of line.now }
{
    line::after(body(line), b' ')
}

// Whether every byte of a text is a mark of ASCII that can be seen.
fn all_shown(text: &[u8]) -> bool
    ensures { result ≡ all_shown text.now }
{
    text.iter().all(|b| b.is_ascii_graphic())
}

// Whether a text can be a host's name: a byte or more, all of which can be seen.
fn is_name(text: &[u8]) -> bool
    ensures { result ≡ is_name text.now }
{
    !text.is_empty() && all_shown(text)
}

// The process that a line names, where it is such a line.
pub fn process(line: &[u8]) -> Option<u64>
    ensures { result ≡ process_of line.now }
{
    if !is_ended(line) || !is_name(host(line)) {
        return None;
    }
    words::decimal(up_to(body(line), b' ')).filter(|n| 0 < *n)
}

// Whose a lock with this line is, on the host of this name.
pub fn whose(line: &[u8], here: &[u8]) -> Holder
    ensures { result ≡ holder_of line.now here.now }
{
    match process(line) {
        Some(n) if words::is(host(line), here) => Holder::Here(n),
        Some(n) => Holder::Elsewhere(n),
        None => Holder::Unknown,
    }
}
