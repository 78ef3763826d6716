// What standard error gets of an outcome: of a refusal, its number and what to do.
#![tactic(auto)]

ghost use Rattle.std.specs.Prelude.{◌+◌, ◌≤◌, ◌<◌, length};
ghost use Rattle.buffer.specs.Put.{Put};
ghost use Rattle.messages.specs.Message.{plural, room_sentence, place_of, sentence_of, message_line};

use advice::{Advice, Room};
use answer::{Refusal, Tally};
use buffer::{put, put_counted};
use outcome::Outcome;

const KEY: [u8; 68] = *b"the key file must hold 32 bytes: make one with mazhkuri key KEYFILE\n";

const FIELD: [u8; 71] =
    *b"FIELD must be 1 to 255 bytes long and VALUE at most 1024: shorten them\n";

const IDS: [u8; 48] = *b"an insert takes 1 to 64 ids: give more or fewer\n";

const SHARES: [u8; 49] = *b"P must be 0 to 15, and SHARE 0 to P: give others\n";

const TOKEN: [u8; 64] = *b"this is no token for this command: make one with mazhkuri token\n";

const SIZES: [u8; 72] =
    *b"P must be 0 to 15, and M, C, S and R 1 to 4096 each: choose other sizes\n";

const NO_STORE: [u8; 116] =
    *b"the file is no store, or not whole: its header or its length is wrong: check the name, or take a copy that is whole\n";

const OLD: [u8; 121] =
    *b"this is a store of version 1, which an earlier mazhkuri made: make a new one with mazhkuri new, and insert the ids again\n";

const MARKS: [u8; 93] =
    *b"a row of the file is marked neither free nor used: it was damaged: take a copy that is whole\n";

const ORDER: [u8; 126] =
    *b"a table of the store is not in byte order: something else wrote it, or it was changed: copy it, then run mazhkuri order STORE\n";

const DAMAGE: [u8; 96] =
    *b"a counter in the file does not hold what was written: it was damaged: take a copy that is whole\n";

const COUNT: [u8; 65] = *b"the count of this share would pass 4294967295: use another share\n";

const COMPACT: [u8; 61] = *b"no counter row is free: compact the store, then insert again\n";

const LARGER: [u8; 67] = *b"no counter row is free: compact does not help, make a larger store\n";

const LOG: [u8; 57] = *b"no log row is free: compact the store, then insert again\n";

const FAULT: [u8; 47] = *b"the tool made a wrong call: please report this\n";

const DAMAGED: [u8; 120] =
    *b"13: a counter in the file does not hold what was written: it was damaged; anchors written and counters freed before it: ";

const WRONG_KEY: [u8; 140] =
    *b"none of the logged counters was found: this key is not the one that the store was filled with, or the file was damaged: nothing was changed\n";

// Puts a number with the words for one, or for another number.
#[tactic(auto, using(buffer::proofs::Laws::said, crate::proofs::Rules::put_plural_rules), unfolding(crate::specs::Message::plural))]
fn put_plural(to: &mut [u8], at: usize, n: u64, one: &[u8], many: &[u8]) -> usize
    requires { (length one.now ≤ 16) × ((length many.now ≤ 16) × (at + 36 ≤ length to.old)) }
    ensures { (Put to.old at (plural n one.now many.now) to.new result) × (result ≤ at + 36) }
{
    if n == 1 {
        put_counted(to, at, n, one)
    } else {
        put_counted(to, at, n, many)
    }
}

// What to say where the store has room for n more only, in words for one and for others.
fn put_room(to: &mut [u8], at: usize, n: u64, given: u64, one: &[u8], many: &[u8]) -> usize
    requires { (length one.now ≤ 16) × ((length many.now ≤ 16) × (at + 200 ≤ length to.old)) }
    ensures { Put to.old at (room_sentence n given one.now many.now) to.new result }
{
    let a = put(to, at, b"the store has room for ");
    let b = put_plural(to, a, n, one, many);
    let e = put_plural(to, b, given, b" was given", b" were given");
    put(
        to,
        e,
        b": compact does not help, erase ids or make a larger store\n",
    )
}

// What to say where SHARE is above p.
fn put_share(to: &mut [u8], at: usize, p: u64) -> usize
    requires { at + 200 ≤ length to.old }
    ensures { Put to.old at (sentence_of (Advice.Share p) 0) to.new result }
{
    let e = put(to, at, b"SHARE must be 0 to ");
    put_counted(to, e, p, b", which is P: give one of these\n")
}

// What to say where a token was made for another p.
fn put_token_shares(to: &mut [u8], at: usize, p: u64) -> usize
    requires { at + 200 ≤ length to.old }
    ensures { Put to.old at (sentence_of (Advice.TokenShares p) 0) to.new result }
{
    let e = put(
        to,
        at,
        b"the token was made for another P than the store's, which is ",
    );
    put_counted(to, e, p, b": make one for this P\n")
}

// What to say where n ids were found, more than a store can hold.
#[tactic(auto, unfolding(crate::specs::Message::sentence_of))]
fn put_output(to: &mut [u8], at: usize, n: u64) -> usize
    requires { at + 200 ≤ length to.old }
    ensures { Put to.old at (sentence_of (Advice.Output n) 0) to.new result }
{
    put_counted(
        to,
        at,
        n,
        b" ids were found, more than a store of this form holds: it was made by something else\n",
    )
}

// What to say of room that is wanting, or of what never should be; no other advice comes here.
#[tactic(auto, using(crate::proofs::Arms::arm), unfolding(crate::specs::Message::sentence_of))]
fn put_on_room(to: &mut [u8], at: usize, a: Advice, given: u64) -> usize
    requires { (at + 200 ≤ length to.old) × (13 < place_of a) }
    ensures { Put to.old at (sentence_of a given) to.new result }
{
    match a {
        Advice::Entries(n) => put_room(
            to,
            at,
            n as u64,
            given,
            b" more entry, ",
            b" more entries, ",
        ),
        Advice::Compact => put(to, at, &COMPACT),
        Advice::Larger => put(to, at, &LARGER),
        Advice::Log => put(to, at, &LOG),
        Advice::Labels(n) => put_room(to, at, n as u64, given, b" more label, ", b" more labels, "),
        Advice::Output(n) => put_output(to, at, n),
        Advice::Fault => put(to, at, &FAULT),
        _ => at,
    }
}

// What to say of a store, of its counters and of its room.
#[tactic(auto, using(crate::proofs::Arms::arm), unfolding(crate::specs::Message::sentence_of))]
fn put_on_store(to: &mut [u8], at: usize, a: Advice, given: u64) -> usize
    requires { (at + 200 ≤ length to.old) × (6 < place_of a) }
    ensures { Put to.old at (sentence_of a given) to.new result }
{
    match a {
        Advice::NoStore => put(to, at, &NO_STORE),
        Advice::Old => put(to, at, &OLD),
        Advice::Marks => put(to, at, &MARKS),
        Advice::Order => put(to, at, &ORDER),
        Advice::TokenShares(p) => put_token_shares(to, at, p),
        Advice::Damage => put(to, at, &DAMAGE),
        Advice::Count => put(to, at, &COUNT),
        _ => put_on_room(to, at, a, given),
    }
}

// What is wrong, and what to do: of what was given here, of the store and its room in the functions above.
#[tactic(auto, using(crate::proofs::Arms::arm), unfolding(crate::specs::Message::sentence_of))]
fn put_sentence(to: &mut [u8], at: usize, a: Advice, given: u64) -> usize
    requires { at + 200 ≤ length to.old }
    ensures { Put to.old at (sentence_of a given) to.new result }
{
    match a {
        Advice::Key => put(to, at, &KEY),
        Advice::Field => put(to, at, &FIELD),
        Advice::Share(p) => put_share(to, at, p),
        Advice::Shares => put(to, at, &SHARES),
        Advice::Ids => put(to, at, &IDS),
        Advice::Token => put(to, at, &TOKEN),
        Advice::Sizes => put(to, at, &SIZES),
        _ => put_on_store(to, at, a, given),
    }
}

// A refusal's number and what to do.
#[tactic(auto, using(buffer::proofs::Laws::then, buffer::proofs::Laws::said), unfolding(crate::specs::Message::message_line))]
fn put_refusal(to: &mut [u8], r: Refusal, room: Room, given: u64) -> usize
    requires { 256 ≤ length to.old }
    ensures { Put to.old 0 (message_line (Outcome.Refused r room) given) to.new result }
{
    let e = put_counted(to, 0, r.number(), b": ");
    let a = advice::advise(r, room);
    put_sentence(to, e, a, given)
}

// What a compaction had done when it met damage.
fn put_damaged(to: &mut [u8], t: Tally) -> usize
    requires { 256 ≤ length to.old }
    ensures { Put to.old 0 (message_line (Outcome.Damaged t) 0) to.new result }
{
    let e = put(to, 0, &DAMAGED);
    tally::put_tally(to, e, t)
}

// What standard error gets of an outcome, where so many ids were given.
#[tactic(auto, using(buffer::proofs::Laws::nothing, buffer::proofs::Laws::said), unfolding(crate::specs::Message::message_line))]
pub fn message(o: Outcome, given: u64, to: &mut [u8]) -> usize
    requires { 256 ≤ length to.old }
    ensures { Put to.old 0 (message_line o given) to.new result }
{
    match o {
        Outcome::Number(_) => 0,
        Outcome::Counted { n: _, rows: _ } => 0,
        Outcome::Inspected(_) => 0,
        Outcome::Compacted(_) => 0,
        Outcome::Damaged(t) => put_damaged(to, t),
        Outcome::WrongKey(_) => put(to, 0, &WRONG_KEY),
        Outcome::Refused(r, room) => put_refusal(to, r, room, given),
        Outcome::Done => 0,
        Outcome::BadWords => 0,
    }
}
