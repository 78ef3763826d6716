// The files of a command, by the names that its line has: what is read of them, its store, its key or token; and the new
// bytes of its store, written after a change alone.
#![tactic(auto)]

ghost use Rattle.std.specs.Prelude.{◌≡◌, true, false, min, MatchResult};
ghost use Rattle.io.specs.Counts.{IsPrefixLen};
ghost use Rattle.words.specs.Line.{word_at};
ghost use Rattle.request.specs.Request.{request_of};
ghost use Rattle.files.specs.System.{OfSystemAt};
ghost use Rattle.operands.specs.Token.{names_file};
ghost use Rattle.demand.specs.Needs.{takes_key, takes_token, changes};
ghost use Rattle.access.specs.Unasked.{Unasked};

use demand::Needs;
use operands::token;
use outcome::Outcome;
use words::line;

const STDERR_FILENO: i32 = 2;

// How many bytes of a file stand at the start of the slice: as an Err where that is not all of them.
fn load(rt: &HostRuntime, path: &[u8], to: &mut [u8]) -> Result<usize, usize>
    ensures { MatchResult result (λ n. IsPrefixLen n to.new) (λ n. IsPrefixLen n to.new) }
{
    let got = files::load(rt, path, to);
    if got.whole { Ok(got.n) } else { Err(got.n) }
}

// The bytes of the file that the line's token names, where it names one.
fn token_of(rt: &HostRuntime, line: &[u8], to: &mut [u8]) -> Result<usize, usize>
    ensures prefix_len { MatchResult result (λ n. IsPrefixLen n to.new) (λ n. IsPrefixLen n to.new) }
    ensures unasked { names_file (word_at 3 line.now) ≡ false → Unasked result }
{
    let word = line::word(line, 3);
    if !token::names_file(word) {
        return Ok(0);
    }
    load(rt, &word[1..], to)
}

// The bytes of the file with the key or the token, where the request takes one. Answers how many bytes stand at the
// start of the slice: as an Err where not all of them do.
pub fn key_of(rt: &HostRuntime, line: &[u8], to: &mut [u8]) -> Result<usize, usize>
    ensures prefix_len { MatchResult result (λ n. IsPrefixLen n to.new) (λ n. IsPrefixLen n to.new) }
    ensures unasked { takes_token (request_of line.now) ≡ false → takes_key (request_of line.now) ≡ false → Unasked result }
{
    let q = request::read(line);
    if demand::takes_token(q) {
        return token_of(rt, line, to);
    }
    if !demand::takes_key(q) {
        return Ok(0);
    }
    load(rt, line::word(line, 2), to)
}

// Room for a store of n bytes: as an Err where the store is there already.
fn absent(rt: &HostRuntime, line: &[u8], n: usize, room: usize) -> Result<usize, usize>
    ensures { MatchResult result (λ k. k ≡ min n room) (λ k. k ≡ min n room) }
{
    let fits = octets::least(n, room);
    if !files::is_missing(rt, line::word(line, 1)) {
        io::write_all(
            STDERR_FILENO,
            b"the store is there already, or cannot be looked for: choose another name\n",
        );
        return Err(fits);
    }
    Ok(fits)
}

// The store's bytes, or room for a new one's; none where there is no store. Answers how many bytes of the slice these
// are: as an Err where the store is not read whole, or a new one's name is taken.
pub fn fetch(rt: &HostRuntime, line: &[u8], needs: Needs, to: &mut [u8]) -> Result<usize, usize>
    ensures prefix_len { MatchResult result (λ n. IsPrefixLen n to.new) (λ n. IsPrefixLen n to.new) }
    ensures unasked { needs ≡ Needs.KeyAlone → Unasked result }
{
    if let Needs::KeyAlone = needs {
        return Ok(0);
    }
    let Needs::NewStore(n) = needs else {
        return load(rt, line::word(line, 1), to);
    };
    absent(rt, line, n, to.len())
}

// Gives the store its new bytes, after a change alone.
pub fn keep(rt: &HostRuntime, line: &[u8], store: &[u8], o: Outcome) -> bool
    requires { changes (request_of line.now) o ≡ true }
    ensures { OfSystemAt (word_at 1 line.now) result }
{
    files::replace(rt, line::word(line, 1), store)
}
