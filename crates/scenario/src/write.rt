// The lines: an answer by the paper's number and values, bytes in hexadecimal.
ghost use Rattle.std.specs.Prelude.{◌≡◌};

use answer::{CompactionError, Faults, Refusal, Tallied, Tally};

const STDOUT_FILENO: i32 = 1;

pub fn text(bytes: &[u8])
    ensures { result ≡ tt }
{
    io::write_all(STDOUT_FILENO, bytes);
}

pub fn count(n: u64)
    ensures { result ≡ tt }
{
    text(b" ");
    io::print_decimal(STDOUT_FILENO, n);
}

// The refusal's number; 18 carries how many ids were found.
pub fn refusal(r: Refusal)
    ensures { result ≡ tt }
{
    text(b": refused");
    count(r.number());
    match r {
        Refusal::OutputLength(n) => {
            text(b" carrying");
            count(n);
        }
        _ => (),
    }
}

pub fn completion(r: Result<(), Refusal>)
    ensures { result ≡ tt }
{
    match r {
        Ok(()) => text(b": done"),
        Err(why) => refusal(why),
    }
}

pub fn counted(r: Result<u64, Refusal>)
    ensures { result ≡ tt }
{
    match r {
        Ok(n) => {
            text(b": done");
            count(n);
        }
        Err(why) => refusal(why),
    }
}

// The number, and the rows looked at for it. [02:W3.8]
pub fn tallied(r: Result<Tallied, Refusal>)
    ensures { result ≡ tt }
{
    match r {
        Ok(Tallied { n, rows }) => {
            text(b": done");
            count(n);
            count(rows);
        }
        Err(why) => refusal(why),
    }
}

fn faults(f: Faults)
    ensures { result ≡ tt }
{
    count(f.mm);
    count(f.cc);
    count(f.vm);
    count(f.mv);
    count(f.vr);
    count(f.rv);
    count(f.excess);
}

// The seven numbers of a check. [check:2 check:3 check:4 check:5 check:6 check:7 check:8]
pub fn inspected(r: Result<Faults, Refusal>)
    ensures { result ≡ tt }
{
    match r {
        Ok(f) => {
            text(b": done");
            faults(f);
        }
        Err(why) => refusal(why),
    }
}

fn tally(t: Tally)
    ensures { result ≡ tt }
{
    count(t.anchors);
    count(t.counters);
}

pub fn compaction(r: Result<Tally, CompactionError>)
    ensures { result ≡ tt }
{
    match r {
        Ok(t) => {
            text(b": done");
            tally(t);
        }
        Err(CompactionError::Refused(why)) => refusal(why),
        Err(CompactionError::Damage(t)) => {
            text(b": refused 13 carrying");
            tally(t);
        }
    }
}

// Bytes with what they are.
pub fn named(name: &[u8], bytes: &[u8])
    ensures { result ≡ tt }
{
    text(b"; ");
    text(name);
    text(b" ");
    records::write_hex(bytes);
}

// The start of a hash.
fn start(digest: &[u8; 32])
    ensures { result ≡ tt }
{
    let all = &digest[..];
    named(b"store", &all[0..4]);
}

// The start of the store's hash; a store above 65,536 bytes is too long for it.
pub fn store(bytes: &[u8])
    ensures { result ≡ tt }
{
    let mut digest = [0u8; 32];
    match sha256::hash(bytes, &mut digest) {
        Ok(()) => start(&digest),
        Err(_) => text(b"; store long"),
    }
}

// The store's hash, and the end of the line.
pub fn end(bytes: &[u8])
    ensures { result ≡ tt }
{
    store(bytes);
    text(b"\n");
}
