// What the command `check` prints of a store, as bytes at the start of a lent slice: a line for each kind of fault, under
// it what the fault means where there are any, and last how many there are. [check:12]
#![tactic(auto)]

ghost use Rattle.std.specs.Prelude.{◌≡◌, ◌+◌, ◌≤◌, length};
ghost use Rattle.buffer.specs.Put.{Put};
ghost use Rattle.diagnosis.specs.Diagnosis.{fault_line, tag_lines, entry_lines, label_lines, total_of, total_line, fault_lines};

use answer::Faults;
use buffer::{put, put_counted};

const TWO_ENTRIES: &[u8] =
    b"  a find gives only the first entry of a tag, so a document may be missing from it, and an erase of one takes the others too";

const TWO_COUNTERS: &[u8] =
    b"  make no insert: only the first counter of a tag is read, so a count may be wrong, and an insert may take an address in use and hide a document from finds";

const NO_ENTRY: &[u8] =
    b"  a find does not give these entries, though an erase of their ids still counts them";

const NO_REVERSE: &[u8] =
    b"  no erase takes these entries, so a find may give a document that was erased";

const NO_LABEL: &[u8] =
    b"  a find by several fields leaves these documents out, and a test of them says no";

const NO_DOCUMENT: &[u8] =
    b"  a test may say yes of a document that has no entry, and an erase of its id frees these labels and answers 0";

const EXCESS: &[u8] =
    b"  an id has more labels than reverse rows: a find by several fields may give it under a field that it is not under, and 21 may refuse inserts early";

const RESTORE: &[u8] =
    b": restore a copy in which check counts none, then make the later inserts and erases again\n";

// A kind of fault with its number; where that is not 0, what it means and what to do.
fn put_fault(to: &mut [u8], at: usize, what: &[u8], n: u64, means: &[u8]) -> usize
    requires { (length what.now ≤ 48) × ((length means.now ≤ 160) × (at + 320 ≤ length to.old)) }
    ensures { (Put to.old at (fault_line what.now n means.now) to.new result) × (result ≤ at + 320) }
{
    let a = put(to, at, what);
    let b = put_counted(to, a, n, b"\n");
    if n == 0 {
        return b;
    }
    let e = put(to, b, means);
    put(to, e, RESTORE)
}

// Rows of M and of C that have the tag of another.
fn put_tags(f: Faults, to: &mut [u8]) -> usize
    requires { 640 ≤ length to.old }
    ensures { (Put to.old 0 (tag_lines f) to.new result) × (result ≤ 640) }
{
    let e = put_fault(
        to,
        0,
        b"entries (M) whose tag an earlier entry has: ",
        f.mm,
        TWO_ENTRIES,
    );
    put_fault(
        to,
        e,
        b"counters (C) whose tag an earlier counter has: ",
        f.cc,
        TWO_COUNTERS,
    )
}

// Rows of V without one of M, and of M without one of V.
fn put_entries(f: Faults, to: &mut [u8], at: usize) -> usize
    requires { at + 640 ≤ length to.old }
    ensures { (Put to.old at (entry_lines f) to.new result) × (result ≤ at + 640) }
{
    let e = put_fault(
        to,
        at,
        b"reverse rows (V) whose tag no entry has: ",
        f.vm,
        NO_ENTRY,
    );
    put_fault(
        to,
        e,
        b"entries (M) whose tag no reverse row has: ",
        f.mv,
        NO_REVERSE,
    )
}

// Rows of V without one of R, of R without one of V, and more of R than of V.
fn put_labels(f: Faults, to: &mut [u8], at: usize) -> usize
    requires { at + 960 ≤ length to.old }
    ensures { (Put to.old at (label_lines f) to.new result) × (result ≤ at + 960) }
{
    let a = put_fault(
        to,
        at,
        b"reverse rows (V) whose id no label has: ",
        f.vr,
        NO_LABEL,
    );
    let e = put_fault(
        to,
        a,
        b"labels (R) whose id no reverse row has: ",
        f.rv,
        NO_DOCUMENT,
    );
    put_fault(
        to,
        e,
        b"labels (R) more than reverse rows (V): ",
        f.excess,
        EXCESS,
    )
}

// How many faults there are, of all kinds.
pub fn total(f: Faults) -> u64
    requires { total_of f ≤ 28672 }
    ensures { result ≡ total_of f }
{
    f.mm + (f.cc + (f.vm + (f.mv + (f.vr + (f.rv + f.excess)))))
}

// How many there are, on the last line: the exit status goes by it. [check:13]
fn put_total(f: Faults, to: &mut [u8], at: usize) -> usize
    requires { (total_of f ≤ 28672) × (at + 29 ≤ length to.old) }
    ensures { Put to.old at (total_line (total_of f)) to.new result }
{
    let e = put(to, at, b"faults: ");
    put_counted(to, e, total(f), b"\n")
}

// What `check` prints. [check:12]
pub fn faults(f: Faults, to: &mut [u8]) -> usize
    requires { (total_of f ≤ 28672) × (4096 ≤ length to.old) }
    ensures { Put to.old 0 (fault_lines f) to.new result }
{
    let a = put_tags(f, to);
    let b = put_entries(f, to, a);
    let e = put_labels(f, to, b);
    put_total(f, to, e)
}
