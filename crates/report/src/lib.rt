// What a run of the tool gives: an outcome, with the texts that are printed of it. specs/Run.antt says what each request
// has to give.
#![tactic(auto)]

ghost use Rattle.std.specs.Prelude.{◌≡◌, ◌≤◌, length};
ghost use Rattle.buffer.specs.Put.{Put};
ghost use Rattle.lines.specs.Answer.{answer_line};
ghost use Rattle.messages.specs.Message.{message_line};
ghost use Rattle.report.specs.Run.{lent, found_text, count_text, check_text, Holds, Few};

use outcome::Outcome;

// The outcome, and how many bytes each lent slice holds of what is printed.
#[derive(Clone, Copy)]
pub struct Ran {
    pub outcome: Outcome,
    pub out: usize,
    pub err: usize,
}

// Room for the ids of every row of M.
pub fn blank() -> [u8; 65536]
    ensures { result ≡ lent }
{
    [0; 65536]
}

// An outcome with its lines, where so many ids were given.
pub fn answered(o: Outcome, given: u64, out: &mut [u8], err: &mut [u8]) -> Ran
    requires { (256 ≤ length out.old) × (256 ≤ length err.old) }
    ensures outcome_value { result.outcome ≡ o }
    ensures put { Put out.old 0 (answer_line o) out.new result.out }
    ensures put_2 { Put err.old 0 (message_line o given) err.new result.err }
{
    let n = lines::answer(o, out);
    let m = messages::message(o, given, err);
    Ran {
        outcome: o,
        out: n,
        err: m,
    }
}

// A count on a line, and the rows looked at on another where they are asked for; or its refusal. [02:W3.8]
pub fn told_count(o: Outcome, rows: bool, out: &mut [u8], err: &mut [u8]) -> Ran
    requires { (256 ≤ length out.old) × (256 ≤ length err.old) }
    ensures outcome_value { result.outcome ≡ o }
    ensures put { Put out.old 0 (count_text rows o) out.new result.out }
    ensures put_2 { Put err.old 0 (message_line o 0) err.new result.err }
{
    let Outcome::Counted { n, rows: looked } = o else {
        return answered(o, 0, out, err);
    };
    if rows {
        let k = lines::count(n, looked, out);
        let m = messages::message(o, 0, err);
        return Ran {
            outcome: o,
            out: k,
            err: m,
        };
    }
    answered(o, 0, out, err)
}

// The ids that a find gave, each on a line; or its refusal.
pub fn told_ids(o: Outcome, ids: &[u8], out: &mut [u8], err: &mut [u8]) -> Ran
    requires { (Holds o (length ids.now)) × ((length ids.now ≤ 65536) × ((135168 ≤ length out.old) × (256 ≤ length err.old))) }
    ensures outcome_value { result.outcome ≡ o }
    ensures put { Put out.old 0 (found_text o ids.now) out.new result.out }
    ensures put_2 { Put err.old 0 (message_line o 0) err.new result.err }
{
    let Outcome::Number(n) = o else {
        return answered(o, 0, out, err);
    };
    let k = lines::ids(ids, n as usize, out);
    Ran {
        outcome: o,
        out: k,
        err: 0,
    }
}

// What a check counted, in lines; or its refusal. [check:12]
pub fn told_faults(o: Outcome, out: &mut [u8], err: &mut [u8]) -> Ran
    requires { (Few o) × ((4096 ≤ length out.old) × (256 ≤ length err.old)) }
    ensures outcome_value { result.outcome ≡ o }
    ensures put { Put out.old 0 (check_text o) out.new result.out }
    ensures put_2 { Put err.old 0 (message_line o 0) err.new result.err }
{
    let Outcome::Inspected(f) = o else {
        return answered(o, 0, out, err);
    };
    let n = diagnosis::faults(f, out);
    let m = messages::message(o, 0, err);
    Ran {
        outcome: o,
        out: n,
        err: m,
    }
}
