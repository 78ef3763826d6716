// What is said of a call of the system that failed.
ghost use Rattle.std.specs.Prelude.{◌≡◌};
ghost use Rattle.files.specs.System.{OfSystem};

use crate::STDERR;
use std::fmt::InlineText;
use std::io::Error;

// An error's text without the number that std puts after the system's words.
fn before_number(text: &str) -> &str
    ensures { OfSystem result }
{
    match text.split_once(" (os error ") {
        Some((words, _)) => words,
        None => text,
    }
}

// The system's own words for an error.
fn say(e: Error)
    ensures { result ≡ tt }
{
    let text = InlineText::<128>::of(e);
    io::write_all(STDERR, before_number(text.as_str()).as_bytes());
}

// Says what could not be done with a file, and why.
pub fn report(what: &[u8], path: &[u8], e: Error)
    ensures { result ≡ tt }
{
    io::write_all(STDERR, b"cannot ");
    io::write_all(STDERR, what);
    io::write_all(STDERR, b" ");
    io::write_all(STDERR, path);
    io::write_all(STDERR, b": ");
    say(e);
    io::write_all(STDERR, b"\n");
}
