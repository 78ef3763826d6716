// The calls on arguments that are read: the raw arguments of a call, or a token ready made.
ghost use Rattle.std.specs.Prelude.{◌≡◌};
ghost use Rattle.io.specs.Counts.{IsPrefixLen};
ghost use Rattle.scheme.specs.Find.{find as find_of};
ghost use Rattle.scheme.specs.JointFind.{joint_find as joint_find_of};
ghost use Rattle.scheme.specs.Call.{Call};
ghost use Rattle.scheme.specs.Run.{perform};
ghost use Rattle.suite.specs.Program.{program};
ghost use Rattle.client.specs.Making.{field_of};
ghost use Rattle.part_tokens.specs.Parts.{parts_of};
ghost use Rattle.scenario.specs.Given.{Inserted, Erased, Compacted, InsertedBy, CompactedBy};

use crate::write;
use answer::Refusal;

pub fn insert(store: &mut [u8])
    ensures { Inserted store.old store.new }
{
    let mut key = [0u8; 64];
    let k = records::read_bytes(&mut key);
    let mut name = [0u8; 300];
    let a = records::read_bytes(&mut name);
    let mut value = [0u8; 1100];
    let b = records::read_bytes(&mut value);
    let p = records::read_number();
    let u = records::read_number();
    let mut nonce = [0u8; 64];
    let j = records::read_bytes(&mut nonce);
    let mut ids = [0u8; 1100];
    let i = records::read_bytes(&mut ids);
    let mut nonces = [0u8; 1600];
    let n = records::read_bytes(&mut nonces);
    let r = calls::insert(
        store,
        &key[..k],
        &name[..a],
        &value[..b],
        p,
        u,
        &nonce[..j],
        &ids[..i],
        &nonces[..n],
    );
    write::counted(r);
    write::end(store);
}

pub fn erase(store: &mut [u8])
    ensures { Erased store.old store.new }
{
    let mut id = [0u8; 64];
    let i = records::read_bytes(&mut id);
    let r = calls::erase(store, &id[..i]);
    write::counted(r);
    write::end(store);
}

// The line of a find, by one field or several.
fn found(r: Result<u64, Refusal>, store: &[u8], output: &[u8])
    ensures { result ≡ tt }
{
    write::counted(r);
    write::store(store);
    write::named(b"output", output);
    write::text(b"\n");
}

fn find_to(store: &[u8], key: &[u8], name: &[u8], value: &[u8], output: &mut [u8])
    ensures { output.new ≡ (perform program (Call.find key.now (field_of name.now value.now) output.old) store.now).output }
{
    let r = queries::find(store, key, name, value, output);
    found(r, store, output);
}

pub fn find(store: &[u8])
    ensures { result ≡ tt }
{
    let mut key = [0u8; 64];
    let k = records::read_bytes(&mut key);
    let mut name = [0u8; 300];
    let a = records::read_bytes(&mut name);
    let mut value = [0u8; 1100];
    let b = records::read_bytes(&mut value);
    let mut output = [0u8; 1100];
    let o = records::read_bytes(&mut output);
    find_to(store, &key[..k], &name[..a], &value[..b], &mut output[..o]);
}

pub fn test(store: &[u8])
    ensures { result ≡ tt }
{
    let mut key = [0u8; 64];
    let k = records::read_bytes(&mut key);
    let mut name = [0u8; 300];
    let a = records::read_bytes(&mut name);
    let mut value = [0u8; 1100];
    let b = records::read_bytes(&mut value);
    let mut id = [0u8; 64];
    let i = records::read_bytes(&mut id);
    let r = queries::test(store, &key[..k], &name[..a], &value[..b], &id[..i]);
    write::counted(r);
    write::end(store);
}

// Numbers to the start of the slice, and how many; none where it has not room for as many.
fn read_numbers(to: &mut [u64]) -> usize
    ensures { IsPrefixLen result to.new }
{
    let n = records::read_number() as usize;
    if to.len() < n {
        return 0;
    }
    for i in 0..n {
        to[i] = records::read_number();
    }
    n
}

fn joint_find_to(store: &[u8], text: &[u8], ends: &[u64], output: &mut [u8])
    ensures { output.new ≡ (perform program (Call.joint_find (parts_of text.now ends.now) output.old) store.now).output }
{
    let r = queries::joint_find(store, text, ends, output);
    found(r, store, output);
}

pub fn joint_find(store: &[u8])
    ensures { result ≡ tt }
{
    let mut ends = [0u64; 32];
    let n = read_numbers(&mut ends);
    let mut text = [0u8; 2048];
    let t = records::read_bytes(&mut text);
    let mut output = [0u8; 1100];
    let o = records::read_bytes(&mut output);
    joint_find_to(store, &text[..t], &ends[..n], &mut output[..o]);
}

pub fn count(store: &[u8])
    ensures { result ≡ tt }
{
    let mut key = [0u8; 64];
    let k = records::read_bytes(&mut key);
    let mut name = [0u8; 300];
    let a = records::read_bytes(&mut name);
    let mut value = [0u8; 1100];
    let b = records::read_bytes(&mut value);
    let r = queries::count(store, &key[..k], &name[..a], &value[..b]);
    write::tallied(r);
    write::end(store);
}

pub fn compact(store: &mut [u8])
    ensures { Compacted store.old store.new }
{
    let mut key = [0u8; 64];
    let k = records::read_bytes(&mut key);
    let mut nonces = [0u8; 1100];
    let n = records::read_bytes(&mut nonces);
    let r = calls::compact(store, &key[..k], &nonces[..n]);
    write::compaction(r);
    write::end(store);
}

pub fn order(store: &mut [u8])
    ensures { store.new ≡ (perform program Call.order store.old).store }
{
    let r = calls::order(store);
    write::counted(r);
    write::end(store);
}

// Rows that do not go together. [check:1]
pub fn check(store: &[u8])
    ensures { result ≡ tt }
{
    let r = queries::check(store);
    write::inspected(r);
    write::end(store);
}

pub fn insert_by(store: &mut [u8])
    ensures { InsertedBy store.old store.new }
{
    let mut token = [0u8; 200];
    let t = records::read_bytes(&mut token);
    let mut ids = [0u8; 1100];
    let i = records::read_bytes(&mut ids);
    let mut nonces = [0u8; 1600];
    let n = records::read_bytes(&mut nonces);
    let r = insert::insert(store, &ids[..i], &nonces[..n], &token[..t]);
    write::counted(r);
    write::end(store);
}

fn find_by_to(store: &[u8], token: &[u8], output: &mut [u8])
    ensures { output.new ≡ (find_of program store.now token.now output.old).output }
{
    let r = find::find(store, token, output);
    found(r, store, output);
}

pub fn find_by(store: &[u8])
    ensures { result ≡ tt }
{
    let mut token = [0u8; 200];
    let t = records::read_bytes(&mut token);
    let mut output = [0u8; 1100];
    let o = records::read_bytes(&mut output);
    find_by_to(store, &token[..t], &mut output[..o]);
}

pub fn test_by(store: &[u8])
    ensures { result ≡ tt }
{
    let mut token = [0u8; 200];
    let t = records::read_bytes(&mut token);
    let mut id = [0u8; 64];
    let i = records::read_bytes(&mut id);
    let r = test::test(store, &id[..i], &token[..t]);
    write::counted(r);
    write::end(store);
}

fn joint_find_by_to(store: &[u8], parts: &[u8], output: &mut [u8])
    ensures { output.new ≡ (joint_find_of program store.now parts.now output.old).output }
{
    let r = joint_find::joint_find(store, parts, output);
    found(r, store, output);
}

pub fn joint_find_by(store: &[u8])
    ensures { result ≡ tt }
{
    let mut parts = [0u8; 1200];
    let t = records::read_bytes(&mut parts);
    let mut output = [0u8; 1100];
    let o = records::read_bytes(&mut output);
    joint_find_by_to(store, &parts[..t], &mut output[..o]);
}

pub fn count_by(store: &[u8])
    ensures { result ≡ tt }
{
    let mut token = [0u8; 200];
    let t = records::read_bytes(&mut token);
    let r = count::count(store, &token[..t]);
    write::tallied(r);
    write::end(store);
}

pub fn compact_by(store: &mut [u8])
    ensures { CompactedBy store.old store.new }
{
    let mut token = [0u8; 200];
    let t = records::read_bytes(&mut token);
    let mut nonces = [0u8; 1100];
    let n = records::read_bytes(&mut nonces);
    let r = compact::compact(store, &nonces[..n], &token[..t]);
    write::compaction(r);
    write::end(store);
}
