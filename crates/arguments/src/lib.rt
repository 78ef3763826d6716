// The words of the command line, as the system gives them, in one slice: each with a 0 after it, which
// no word holds. What is wrong is told to standard error.
#![tactic(auto)]

ghost use Rattle.std.specs.Prelude.{◌≡◌, ◌-◌, ◌<◌, ◌≤◌, length, slice_index_or, IfSome, MatchResult};
ghost use Rattle.files.specs.System.{OfSystem};
ghost use Rattle.io.specs.Counts.{IsPrefixLen};

use files::STDERR;
use std::env::FillError;
use std::rt::Env;

// How many words the program was started with, its own name among them.
fn count(rt: &HostRuntime) -> usize
    ensures { OfSystem result }
{
    for i in 0..usize::MAX {
        let mut none = [0u8; 1];
        if let Err(FillError::NotPresent) = rt.arg(i, &mut none) {
            return i;
        }
    }
    usize::MAX
}

// Puts word i and a 0 at the start of a slice. Answers how many bytes these are; None where the word is not
// there whole.
fn put_word(rt: &HostRuntime, i: usize, to: &mut [u8]) -> Option<usize>
    ensures { IfSome result (λ n. (0 < n) × (n ≤ length to.new) × (slice_index_or to.new (n - 1) 1 ≡ 0)) }
{
    let Ok(n) = rt.arg(i, to) else {
        io::write_all(STDERR, b"a word of the command line: File name too long\n");
        return None;
    };
    if to.len() <= n {
        io::write_all(STDERR, b"the command line is too long\n");
        return None;
    }
    to[n] = 0;
    Some(n + 1)
}

// The words after the program's own name, as far as there is room. Answers how many bytes stand at the start of
// the slice: as an Err, of none, where not all the words do.
pub fn gather(rt: &HostRuntime, to: &mut [u8]) -> Result<usize, usize>
    ensures { MatchResult result (λ n. IsPrefixLen n to.new) (λ n. IsPrefixLen n to.new) }
{
    let count = count(rt);
    let mut at = 0;
    for i in 1..count {
        let Some(n) = put_word(rt, i, &mut to[at..]) else {
            return Err(0);
        };
        at += n;
    }
    Ok(at)
}
