// The commands of the tool that make a token, carried out on slices: of a command line's words, the bytes of a key file and
// random bytes, the outcome and the token's digits.
#![tactic(auto)]

ghost use Rattle.std.specs.Prelude.{◌≡◌, [], ◌≤◌, length};
ghost use Rattle.buffer.specs.Put.{Put};
ghost use Rattle.messages.specs.Message.{message_line};
ghost use Rattle.report.specs.Run.{made_text, Ends};

use format::{COMPACTION_TOKEN, COUNT_TOKEN, FIND_TOKEN, INSERT_TOKEN};
use outcome::Outcome;
use report::{Ran, answered};
use request::Request;
use words::line;

// The digits of a token that was made; or its refusal.
fn told_token(o: Outcome, token: &[u8], out: &mut [u8], err: &mut [u8]) -> Ran
    requires { (length token.now ≤ 173) × ((512 ≤ length out.old) × (256 ≤ length err.old)) }
    ensures outcome_value { result.outcome ≡ o }
    ensures put { Put out.old 0 (made_text o token.now) out.new result.out }
    ensures put_2 { Put err.old 0 (message_line o 0) err.new result.err }
{
    let Outcome::Done = o else {
        return answered(o, 0, out, err);
    };
    let n = lines::put_hex(out, 0, token);
    Ran {
        outcome: o,
        out: n,
        err: 0,
    }
}

pub fn insert_token(
    line: &[u8],
    p: u64,
    u: u64,
    key: &[u8],
    random: &[u8],
    out: &mut [u8],
    err: &mut [u8],
) -> Ran
    requires { (512 ≤ length out.old) × (256 ≤ length err.old) }
    ensures { Ends (Request.InsertToken p u) line.now [] key.now random.now out.old err.old result [] out.new err.new }
{
    let mut token = [0u8; INSERT_TOKEN];
    let o = office::insert_token(
        key,
        line::word(line, 3),
        line::word(line, 4),
        p,
        u,
        random,
        &mut token,
    );
    told_token(o, &token, out, err)
}

pub fn find_token(line: &[u8], key: &[u8], out: &mut [u8], err: &mut [u8]) -> Ran
    requires { (512 ≤ length out.old) × (256 ≤ length err.old) }
    ensures { Ends Request.FindToken line.now [] key.now [] out.old err.old result [] out.new err.new }
{
    let mut token = [0u8; FIND_TOKEN];
    let o = office::find_token(key, line::word(line, 3), line::word(line, 4), &mut token);
    told_token(o, &token, out, err)
}

pub fn count_token(line: &[u8], key: &[u8], out: &mut [u8], err: &mut [u8]) -> Ran
    requires { (512 ≤ length out.old) × (256 ≤ length err.old) }
    ensures { Ends Request.CountToken line.now [] key.now [] out.old err.old result [] out.new err.new }
{
    let mut token = [0u8; COUNT_TOKEN];
    let o = office::count_token(key, line::word(line, 3), line::word(line, 4), &mut token);
    told_token(o, &token, out, err)
}

pub fn compaction_token(line: &[u8], key: &[u8], out: &mut [u8], err: &mut [u8]) -> Ran
    requires { (512 ≤ length out.old) × (256 ≤ length err.old) }
    ensures { Ends Request.CompactionToken line.now [] key.now [] out.old err.old result [] out.new err.new }
{
    let mut token = [0u8; COMPACTION_TOKEN];
    let o = office::compaction_token(key, &mut token);
    told_token(o, &token, out, err)
}
