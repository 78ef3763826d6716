// Compaction: the server's call that turns the counters of every logged CL into one anchor (document
// 01, "Operations"): the log of table S, and the refusals before it. The store's tables C and S alone are
// changed; the CL are treated in course.
#![tactic(auto)]

ghost use Rattle.std.specs.Prelude.{◌≡◌, cond, [], ◌∷◌, ◌+◌, ◌-◌, ◌*◌, ◌/◌, ◌≤◌, ◌<◌, length, take, drop, MatchResult};
ghost use Rattle.answer.specs.Answer.{done, refused, refusal, compaction_answer};
ghost use Rattle.table.specs.Table.{rows};
ghost use Rattle.scheme.specs.Keys.{compaction_token_length};
ghost use Rattle.scheme.specs.Store.{table_s, width_of, joined};
ghost use Rattle.std.proofs.Math.Option.{some};
ghost use Rattle.scheme.specs.Compaction.{treated, compacted_store, compact_verdict, compact as compact_of};
ghost use Rattle.suite.specs.Program.{program};
ghost use Rattle.store.specs.Check.{checked_of};
ghost use Rattle.compact.specs.Log.{cls_in};
ghost use Rattle.compact.specs.Admitted.{Admitted};

use answer::{CompactionError, Refusal, Tally};
use format::{COMPACTION_TOKEN, NONCE, row};
use store::{MOST_ROWS, S_WIDTH, Shape};

// Decrypts the first n rows of S, once, into a log of 32 bytes per row. [01:ST12]
fn open_log(t: &[u8], s: usize, n: usize, ks: &[u8], log: &mut [u8])
    requires { (n ≤ s) × ((length t.now ≡ width_of table_s * s) × ((length ks.now ≡ 32) × (32 * n ≤ length log.old))) }
    ensures { (rows 32 n log.new ≡ cls_in ks.now (take n (rows (width_of table_s) s t.now))) × (drop (32 * n) log.new ≡ drop (32 * n) log.old) }
{
    for i in 0..n {
        let at = 32 * i;
        let e = at + 32;
        row::open_row(t, s, i, ks, &mut log[at..e]);
    }
}

// The answer, by whether damage stopped the treatment. [01:OP13 RS13]
fn outcome(t: Tally, stopped: bool) -> Result<Tally, CompactionError>
    ensures { compaction_answer result ≡ cond stopped (refused 13 (t.anchors ∷ t.counters ∷ [])) (done (t.anchors ∷ t.counters ∷ [])) }
{
    if stopped {
        return Err(CompactionError::Damage(t));
    }
    Ok(t)
}

// Treats all CL of S: table C one after the other, and table S at the end, in one pass.
// [01:OP10 OP12 OP13 RS13] [02:W2.4]
fn treat_logged(
    store: &mut [u8],
    z: Shape,
    nonces: &[u8],
    token: &[u8],
) -> Result<Tally, CompactionError>
    requires { (checked_of store.old ≡ Ok z) × ((z.s.rows - z.s.free ≤ length nonces.now / 12) × (length token.now ≡ compaction_token_length)) }
    ensures result_value { compaction_answer result ≡ (treated program store.old nonces.now token.now).answer }
    ensures store_after { store.new ≡ joined (compacted_store store.old (treated program store.old nonces.now token.now).t_c (treated program store.old nonces.now token.now).t_s) }
{
    let c = z.c;
    let s = z.s;
    let a = c.start;
    let e = c.end;
    let b = s.start;
    let f = s.end;
    let n = s.rows - s.free;
    let mut log = [0u8; 131072];
    let mut first = [0u16; MOST_ROWS];
    let mut flags = [0u8; MOST_ROWS];
    open_log(&store[b..f], s.rows, n, token, &mut log);
    firsts::find(&log, n, &mut first);
    let r = course::treat_firsts(
        &mut store[a..e],
        c.rows,
        c.rows - c.free,
        nonces,
        &log,
        n,
        &first,
    );
    firsts::flag_before(&first, n, r.upto, &mut flags);
    closing::close(&mut store[b..f], S_WIDTH, s.rows, n, &flags);
    outcome(r.totals, r.stopped)
}

// 4, 6, 10, 11, 20 and 19, in this order: the shape of a store of which nothing refuses the compaction.
#[tactic(auto, using(crate::proofs::Verdicts::verdict_nonces, crate::proofs::Verdicts::verdict_token, crate::proofs::Verdicts::verdict_store, crate::proofs::Verdicts::verdict_count, crate::proofs::Verdicts::verdict_none, crate::proofs::Verdicts::rows_left))]
fn admitted(store: &[u8], nonces: &[u8], token: &[u8]) -> Result<Shape, Refusal>
    ensures { MatchResult result (Admitted store.now nonces.now token.now) (λ r. compact_verdict program store.now nonces.now token.now ≡ some (refusal r)) }
{
    if nonces.len() % NONCE != 0 {
        return Err(Refusal::NonceLength);
    }
    if token.len() != COMPACTION_TOKEN {
        return Err(Refusal::TokenLength);
    }
    let z = store::sizes(store)?;
    let s = z.s;
    if nonces.len() / NONCE < s.rows - s.free {
        return Err(Refusal::NonceCount);
    }
    Ok(z)
}

// Compaction, refused by 4, 6, 10, 11, 20 and 19, which leave the store as it was; or stopped by 13, with
// the CL before it treated. [01:OP10 OP13 RS13]
#[tactic(auto, using(crate::proofs::Verdicts::refuses, crate::proofs::Verdicts::goes))]
pub fn compact(store: &mut [u8], nonces: &[u8], token: &[u8]) -> Result<Tally, CompactionError>
    ensures result_value { compaction_answer result ≡ (compact_of program store.old nonces.now token.now).answer }
    ensures store_after { store.new ≡ (compact_of program store.old nonces.now token.now).store }
{
    let z = admitted(store, nonces, token)?;
    treat_logged(store, z, nonces, token)
}
