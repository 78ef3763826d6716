// Document 01's worked list G1 to G8 through the real code, then every refusal at both sides of its
// limit, damage, forged and hostile stores. Reads records from standard input and writes a line for
// each call: its title, the answer, the start of the store's hash, a find's whole output.
// tests/model/scenario.py makes the records, and the lines to expect from a model of its own.
//
// Input: the number of records. A record is its kind, one byte, and its numbers and byte strings in the
// order of the call's arguments; crates/records reads them. What is read cannot be told: in contracts it
// stands as fields, and the store after a record is that of the call on some such arguments.
#![tactic(auto)]

mod arguments;
mod making;
mod premise;
mod write;

ghost use Rattle.std.specs.Prelude.{◌≡◌, ◌≤◌, length, replicate};
ghost use Rattle.scheme.specs.Store.{make as make_of};
ghost use Rattle.scenario.specs.Given.{Called, MadeIn, Overwritten, Resized, Recorded, RanAll};

// Writes a title.
fn title()
    ensures { result ≡ tt }
{
    let mut text = [0u8; 256];
    let n = records::read_bytes(&mut text);
    write::text(&text[..n]);
}

// Makes a store in a slice.
fn make(p: u64, m: u64, c: u64, s: u64, r: u64, slice: &mut [u8])
    ensures { slice.new ≡ (make_of (record { p = p; m = m; c = c; s = s; r = r }) slice.old).store }
{
    let made = store::make(p, m, c, s, r, slice);
    write::completion(made);
    write::end(slice);
}

// Makes a store of the length asked for, and tells that length.
fn make_in(room: &mut [u8]) -> usize
    ensures { (result ≤ length room.old) × MadeIn room.old result room.new }
{
    let p = records::read_number();
    let m = records::read_number();
    let c = records::read_number();
    let s = records::read_number();
    let r = records::read_number();
    let n = records::read_number() as usize;
    if room.len() < n {
        return 0;
    }
    make(p, m, c, s, r, &mut room[..n]);
    n
}

// Writes over bytes of the store: damage, forged rows.
fn set(room: &mut [u8])
    ensures { Overwritten room.old room.new }
{
    let at = records::read_number() as usize;
    let mut bytes = [0u8; 4096];
    let n = records::read_bytes(&mut bytes);
    if at + n <= room.len() {
        octets::copy_at(room, at, &bytes[..n]);
    }
}

// Another length for the store.
fn resize(room: usize) -> usize
    ensures { (result ≤ room) × Resized room result }
{
    let n = records::read_number() as usize;
    if room < n { 0 } else { n }
}

// A call that reads the store.
fn look(kind: u64, store: &[u8])
    ensures { result ≡ tt }
{
    match kind {
        6 => arguments::find(store),
        7 => arguments::count(store),
        10 => arguments::find_by(store),
        11 => arguments::count_by(store),
        20 => arguments::test(store),
        21 => arguments::joint_find(store),
        22 => arguments::test_by(store),
        23 => arguments::joint_find_by(store),
        26 => arguments::check(store),
        _ => (),
    }
}

// A call on the store.
fn call(kind: u64, store: &mut [u8])
    ensures { Called store.old kind store.new }
{
    match kind {
        4 => arguments::insert(store),
        5 => arguments::erase(store),
        8 => arguments::compact(store),
        9 => arguments::insert_by(store),
        12 => arguments::compact_by(store),
        19 => arguments::order(store),
        _ => look(kind, store),
    }
}

// What takes no store.
fn other(kind: u64)
    ensures { result ≡ tt }
{
    match kind {
        0 => title(),
        13 => making::insert_token(),
        14 | 15 | 24 | 25 => making::field_token(kind),
        16 => making::compaction_token(),
        17 => premise::premise(),
        18 => making::hash(),
        _ => (),
    }
}

// One record; tells the store's length after it.
fn record(room: &mut [u8], n: usize) -> usize
    requires { n ≤ length room.old }
    ensures { (result ≤ length room.old) × Recorded n room.old result room.new }
{
    let kind = records::read_byte();
    match kind {
        1 => make_in(room),
        2 => {
            set(room);
            n
        }
        3 => resize(room.len()),
        4..=12 | 19..=23 | 26 => {
            call(kind, &mut room[..n]);
            n
        }
        _ => {
            other(kind);
            n
        }
    }
}

// All records.
fn run(room: &mut [u8])
    ensures { RanAll room.old room.new }
{
    let mut n = 0;
    for _ in 0..records::read_number() {
        n = record(room, n);
    }
}

// Room for the greatest store and some bytes more, all zeros; no proof computes on so long a list.
fn blank() -> [u8; 1134618]
    ensures { result ≡ replicate 1134618 0 }
{
    [0u8; 1134618]
}

fn main() {
    let mut room = blank();
    run(&mut room);
}
