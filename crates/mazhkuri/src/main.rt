// The command-line tool: what stands between the system and crates/tool, which makes of a command line
// and of the bytes that were read what is to be written and printed.
//
// A command that changes the store makes STORE.lock, reads the store, runs, writes STORE.new, syncs it,
// renames it to STORE and removes STORE.lock; the answer is printed after that.
#![tactic(auto)]

ghost use Rattle.std.specs.Prelude.{◌≡◌, ◌+◌, ◌≤◌, length, replicate, IfSome, IfNone};
ghost use Rattle.request.specs.Request.{request_of};
ghost use Rattle.report.specs.Run.{Ends};
ghost use Rattle.mazhkuri.specs.Served.{Unkept, ServedIf, Printable};

use demand::Needs;
use report::Ran;
use words::line;

const STDERR_FILENO: i32 = 2;

const STDOUT_FILENO: i32 = 1;

// The longest store, 1,134,602 bytes, and one byte more: a longer file is refused by its length.
const SPACE: usize = 1134603;

// Room for what is printed: the lines of 4,096 ids; a message with a word of the command line.
const OUT: usize = 135168;

const ERR: usize = 65792;

// Room for the random bytes of a compaction: a nonce for each of 4,096 rows of S.
const RANDOM: usize = 49152;

fn space() -> [u8; SPACE]
    ensures { result ≡ replicate 1134603 0 }
{
    [0; SPACE]
}

fn out_space() -> [u8; OUT]
    ensures { result ≡ replicate 135168 0 }
{
    [0; OUT]
}

fn err_space() -> [u8; ERR]
    ensures { result ≡ replicate 65792 0 }
{
    [0; ERR]
}

fn random_space() -> [u8; RANDOM]
    ensures { result ≡ replicate 49152 0 }
{
    [0; RANDOM]
}

// A command on bytes, which are kept where it changed them. None, here and in the functions below, where the system
// stood in the way, which was told to standard error.
fn apply(
    rt: &HostRuntime,
    line: &[u8],
    store: &mut [u8],
    key: &[u8],
    random: &[u8],
    out: &mut [u8],
    err: &mut [u8],
) -> Option<Ran>
    requires { (135168 ≤ length out.old) × (length line.now + 256 ≤ length err.old) }
    ensures ends { IfSome result (λ ran. Ends (request_of line.now) line.now store.old key.now random.now out.old err.old ran store.new out.new err.new) }
    ensures unkept { IfNone result (Unkept line.now store.old key.now random.now out.old err.old store.new out.new err.new) }
{
    let ran = tool::run(line, store, key, random, out, err);
    let o = ran.outcome;
    if !demand::changes(request::read(line), o) {
        return Some(ran);
    }
    if !access::keep(rt, line, store, o) {
        return None;
    }
    Some(ran)
}

// A command on a store that is read, with a key that is read and random bytes that are drawn where it
// takes them.
fn on_store(
    rt: &HostRuntime,
    line: &[u8],
    needs: Needs,
    out: &mut [u8],
    err: &mut [u8],
) -> Option<Ran>
    requires { (135168 ≤ length out.old) × (length line.now + 256 ≤ length err.old) }
    ensures { ServedIf line.now out.old err.old result out.new err.new }
{
    let mut store = space();
    let Ok(n) = access::fetch(rt, line, needs, &mut store) else {
        return None;
    };
    let mut key = [0u8; 512];
    let Ok(k) = access::key_of(rt, line, &mut key) else {
        return None;
    };
    let mut random = random_space();
    let m = demand::random_for(request::read(line), &store[..n]);
    if !files::randomize(rt, &mut random[..m]) {
        return None;
    }
    apply(rt, line, &mut store[..n], &key[..k], &random[..m], out, err)
}

// The same, while no other tool changes the store.
fn locked(
    rt: &HostRuntime,
    line: &[u8],
    needs: Needs,
    out: &mut [u8],
    err: &mut [u8],
) -> Option<Ran>
    requires { (135168 ≤ length out.old) × (length line.now + 256 ≤ length err.old) }
    ensures { ServedIf line.now out.old err.old result out.new err.new }
{
    if !files::lock(rt, line::word(line, 1)) {
        return None;
    }
    let r = on_store(rt, line, needs, out, err);
    files::unlock(rt, line::word(line, 1));
    r
}

// A key file, whose bytes are the random ones.
fn on_key(rt: &HostRuntime, line: &[u8], out: &mut [u8], err: &mut [u8]) -> Option<Ran>
    requires { (135168 ≤ length out.old) × (length line.now + 256 ≤ length err.old) }
    ensures { ServedIf line.now out.old err.old result out.new err.new }
{
    let mut key = [0u8; 32];
    if !files::randomize(rt, &mut key) {
        return None;
    }
    if !files::make_private(rt, line::word(line, 1), &key) {
        return None;
    }
    on_words(rt, line, out, err)
}

// A command that needs nothing but its words.
fn on_words(rt: &HostRuntime, line: &[u8], out: &mut [u8], err: &mut [u8]) -> Option<Ran>
    requires { (135168 ≤ length out.old) × (length line.now + 256 ≤ length err.old) }
    ensures { ServedIf line.now out.old err.old result out.new err.new }
{
    let mut none = [0u8; 1];
    apply(rt, line, &mut none[..0], b"", b"", out, err)
}

fn serve(rt: &HostRuntime, line: &[u8], out: &mut [u8], err: &mut [u8]) -> Option<Ran>
    requires { (135168 ≤ length out.old) × (length line.now + 256 ≤ length err.old) }
    ensures { ServedIf line.now out.old err.old result out.new err.new }
{
    let needs = demand::needed(request::read(line));
    match needs {
        Needs::Words => on_words(rt, line, out, err),
        Needs::KeyFile => on_key(rt, line, out, err),
        Needs::KeyAlone => on_store(rt, line, needs, out, err),
        Needs::Store => on_store(rt, line, needs, out, err),
        Needs::Lock => locked(rt, line, needs, out, err),
        Needs::NewStore(_) => locked(rt, line, needs, out, err),
    }
}

// The answer and the message, once the system has done what was asked.
fn print(r: Option<Ran>, out: &[u8], err: &[u8])
    requires { Printable r out.now err.now }
    ensures { result ≡ tt }
{
    let Some(ran) = r else {
        io::write_all(STDOUT_FILENO, b"failed\n");
        return;
    };
    io::write_all(STDOUT_FILENO, &out[..ran.out]);
    io::write_all(STDERR_FILENO, &err[..ran.err]);
}

fn main(rt: HostRuntime) {
    let mut words = io::large_buffer();
    let mut out = out_space();
    let mut err = err_space();
    let Ok(n) = arguments::gather(&rt, &mut words) else {
        io::write_all(STDOUT_FILENO, b"failed\n");
        return;
    };
    let r = serve(&rt, &words[..n], &mut out, &mut err);
    print(r, &out, &err);
}
