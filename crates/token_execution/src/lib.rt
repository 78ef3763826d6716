// The commands of the tool that take a token in the place of a key, carried out on slices: of a command line's words, the
// bytes of a store and of the file that holds the token, and random bytes, the outcome, the store after it and what is printed.
#![tactic(auto)]

ghost use Rattle.std.specs.Prelude.{◌≡◌, [], ◌*◌, ◌≤◌, length};
ghost use Rattle.operands.specs.Ids.{ids_of};
ghost use Rattle.report.specs.Run.{Ends};

use format::{COMPACTION_TOKEN, COUNT_TOKEN, FIND_TOKEN, INSERT_TOKEN};
use operands::token;
use report::{Ran, answered, blank, told_count, told_ids};
use request::Request;

// An insert with the line's token, whose ids go to a lent slice first.
fn insert_ids_by(
    line: &[u8],
    n: usize,
    ids: &mut [u8],
    store: &mut [u8],
    key: &[u8],
    random: &[u8],
    out: &mut [u8],
    err: &mut [u8],
) -> Ran
    requires { ((length ids.old ≡ 16 * n) × (n ≤ 65)) × ((256 ≤ length out.old) × (256 ≤ length err.old)) }
    ensures ends { Ends (Request.InsertBy n) line.now store.old key.now random.now out.old err.old result store.new out.new err.new }
    ensures ids_after { ids.new ≡ ids_of 4 n line.now }
{
    operands::ids(line, 4, n, ids);
    let mut token = [0u8; INSERT_TOKEN];
    let t = token::read(line, key, &mut token);
    let o = server::insert(store, ids, random, &token[..t]);
    answered(o, n as u64, out, err)
}

pub fn insert_by(
    line: &[u8],
    n: usize,
    store: &mut [u8],
    key: &[u8],
    random: &[u8],
    out: &mut [u8],
    err: &mut [u8],
) -> Ran
    requires { (n ≤ 65) × ((256 ≤ length out.old) × (256 ≤ length err.old)) }
    ensures { Ends (Request.InsertBy n) line.now store.old key.now random.now out.old err.old result store.new out.new err.new }
{
    let mut ids = [0u8; 1040];
    let e = 16 * n;
    insert_ids_by(line, n, &mut ids[..e], store, key, random, out, err)
}

pub fn find_by(line: &[u8], store: &[u8], key: &[u8], out: &mut [u8], err: &mut [u8]) -> Ran
    requires { (135168 ≤ length out.old) × (256 ≤ length err.old) }
    ensures { Ends Request.FindBy line.now store.now key.now [] out.old err.old result store.now out.new err.new }
{
    let mut token = [0u8; FIND_TOKEN];
    let t = token::read(line, key, &mut token);
    let mut ids = blank();
    let o = server::find(store, &token[..t], &mut ids);
    told_ids(o, &ids, out, err)
}

pub fn count_by(
    line: &[u8],
    rows: bool,
    store: &[u8],
    key: &[u8],
    out: &mut [u8],
    err: &mut [u8],
) -> Ran
    requires { (256 ≤ length out.old) × (256 ≤ length err.old) }
    ensures { Ends (Request.CountBy rows) line.now store.now key.now [] out.old err.old result store.now out.new err.new }
{
    let mut token = [0u8; COUNT_TOKEN];
    let t = token::read(line, key, &mut token);
    let o = server::count(store, &token[..t]);
    told_count(o, rows, out, err)
}

pub fn compact_by(
    line: &[u8],
    store: &mut [u8],
    key: &[u8],
    random: &[u8],
    out: &mut [u8],
    err: &mut [u8],
) -> Ran
    requires { (256 ≤ length out.old) × (256 ≤ length err.old) }
    ensures { Ends Request.CompactBy line.now store.old key.now random.now out.old err.old result store.new out.new err.new }
{
    let mut token = [0u8; COMPACTION_TOKEN];
    let t = token::read(line, key, &mut token);
    let o = server::compact(store, random, &token[..t]);
    answered(o, 0, out, err)
}
