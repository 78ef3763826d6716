// The library as C sees it: each public call on pointers and lengths, with its answer as one number
// (crate encoding). include/mazhkuri.h declares and documents these functions. [01:FM9]
#![tactic(auto)]

ghost use Rattle.std.specs.Prelude.{◌≡◌};
ghost use Rattle.answer.specs.Answer.{without_rows};
ghost use Rattle.sha256.specs.Hash.{hash_answer, hash_digest};
ghost use Rattle.hmac.specs.Hmac.{mac_answer, mac_tag};
ghost use Rattle.chacha20.specs.Call.{cipher_answer, cipher_text};
ghost use Rattle.scheme.specs.Keys.{insert_token, find_token, count_token, compaction_token, mark_token, part_token};
ghost use Rattle.scheme.specs.Refusals.{insert_token_tests, field_token_tests, key_tests};
ghost use Rattle.scheme.specs.Store.{make as make_of};
ghost use Rattle.scheme.specs.Insert.{insert as insert_of};
ghost use Rattle.scheme.specs.Erase.{erase as erase_of};
ghost use Rattle.scheme.specs.Find.{find as find_of};
ghost use Rattle.scheme.specs.Test.{test as test_of};
ghost use Rattle.scheme.specs.JointFind.{joint_find as joint_find_of};
ghost use Rattle.scheme.specs.Count.{count as count_of};
ghost use Rattle.scheme.specs.Compaction.{compact as compact_of};
ghost use Rattle.scheme.specs.Order.{order as order_of};
ghost use Rattle.scheme.specs.Check.{check as check_of};
ghost use Rattle.suite.specs.Program.{program};
ghost use Rattle.client.specs.Making.{making_answer, making_token, field_of};
ghost use Rattle.encoding.specs.Encoding.{encoded, answering, rows_lent, summed, numbers_lent};

use encoding::{compacted, completed, counted, inspected, made, number_alone, tallied};

// The hash of a message. [01:KF1]
#[unsafe(no_mangle)]
pub extern "C" fn mazhkuri_sha256(message: &[u8], digest: &mut [u8; 32]) -> i64
    ensures value { result ≡ encoded (hash_answer message.now) }
    ensures digest_after { digest.new ≡ hash_digest message.now digest.old }
{
    completed(sha256::hash(message, digest))
}

// F, the keyed function, of a key and a message. [01:KF1]
#[unsafe(no_mangle)]
pub extern "C" fn mazhkuri_hmac(key: &[u8], message: &[u8], tag: &mut [u8; 32]) -> i64
    ensures value { result ≡ encoded (mac_answer key.now message.now) }
    ensures tag_after { tag.new ≡ mac_tag key.now message.now tag.old }
{
    completed(hmac::mac(key, message, tag))
}

// E, the cipher, over a text in its place. [01:KF2]
#[unsafe(no_mangle)]
pub extern "C" fn mazhkuri_chacha20(key: &[u8], nonce: &[u8], text: &mut [u8]) -> i64
    ensures value { result ≡ encoded (cipher_answer key.now nonce.now text.old) }
    ensures text_after { text.new ≡ cipher_text key.now nonce.now text.old }
{
    completed(chacha20::apply(key, nonce, text))
}

// Makes the token for an insert into share u. [01:KT7] [02:W4.9]
#[unsafe(no_mangle)]
pub extern "C" fn mazhkuri_insert_token(
    key: &[u8],
    name: &[u8],
    value: &[u8],
    p: u64,
    u: u64,
    nonce: &[u8],
    token: &mut [u8; 173],
) -> i64
    ensures value { result ≡ encoded (answering 173 (making_answer (insert_token_tests key.now (field_of name.now value.now) p u nonce.now))) }
    ensures token_after { token.new ≡ making_token (insert_token_tests key.now (field_of name.now value.now) p u nonce.now) (insert_token program key.now (field_of name.now value.now) p u nonce.now) token.old }
{
    made(
        client::insert_token(key, name, value, p, u, nonce, token),
        173,
    )
}

// Makes the token for a find. [01:KT8]
#[unsafe(no_mangle)]
pub extern "C" fn mazhkuri_find_token(
    key: &[u8],
    name: &[u8],
    value: &[u8],
    token: &mut [u8; 96],
) -> i64
    ensures value { result ≡ encoded (answering 96 (making_answer (field_token_tests key.now (field_of name.now value.now)))) }
    ensures token_after { token.new ≡ making_token (field_token_tests key.now (field_of name.now value.now)) (find_token program key.now (field_of name.now value.now)) token.old }
{
    made(client::find_token(key, name, value, token), 96)
}

// Makes the token for a count. [01:KT9]
#[unsafe(no_mangle)]
pub extern "C" fn mazhkuri_count_token(
    key: &[u8],
    name: &[u8],
    value: &[u8],
    token: &mut [u8; 32],
) -> i64
    ensures value { result ≡ encoded (answering 32 (making_answer (field_token_tests key.now (field_of name.now value.now)))) }
    ensures token_after { token.new ≡ making_token (field_token_tests key.now (field_of name.now value.now)) (count_token program key.now (field_of name.now value.now)) token.old }
{
    made(client::count_token(key, name, value, token), 32)
}

// Makes the token for a test. [02:W4.16]
#[unsafe(no_mangle)]
pub extern "C" fn mazhkuri_mark_token(
    key: &[u8],
    name: &[u8],
    value: &[u8],
    token: &mut [u8; 32],
) -> i64
    ensures value { result ≡ encoded (answering 32 (making_answer (field_token_tests key.now (field_of name.now value.now)))) }
    ensures token_after { token.new ≡ making_token (field_token_tests key.now (field_of name.now value.now)) (mark_token program key.now (field_of name.now value.now)) token.old }
{
    made(client::mark_token(key, name, value, token), 32)
}

// Makes a part of a joint find. [02:W4.18]
#[unsafe(no_mangle)]
pub extern "C" fn mazhkuri_part_token(
    key: &[u8],
    name: &[u8],
    value: &[u8],
    token: &mut [u8; 128],
) -> i64
    ensures value { result ≡ encoded (answering 128 (making_answer (field_token_tests key.now (field_of name.now value.now)))) }
    ensures token_after { token.new ≡ making_token (field_token_tests key.now (field_of name.now value.now)) (part_token program key.now (field_of name.now value.now)) token.old }
{
    made(client::part_token(key, name, value, token), 128)
}

// Makes the token for a compaction. [01:KT10]
#[unsafe(no_mangle)]
pub extern "C" fn mazhkuri_compaction_token(key: &[u8], token: &mut [u8; 32]) -> i64
    ensures value { result ≡ encoded (answering 32 (making_answer (key_tests key.now))) }
    ensures token_after { token.new ≡ making_token (key_tests key.now) (compaction_token program key.now) token.old }
{
    made(client::compaction_token(key, token), 32)
}

// Makes a store of m rows of entries, c of counters, s of the log and r of labels. [01:ST16] [02:W4.1]
#[unsafe(no_mangle)]
pub extern "C" fn mazhkuri_make(p: u64, m: u64, c: u64, s: u64, r: u64, store: &mut [u8]) -> i64
    ensures value { result ≡ encoded (make_of (record { p = p; m = m; c = c; s = s; r = r }) store.old).answer }
    ensures store_after { store.new ≡ (make_of (record { p = p; m = m; c = c; s = s; r = r }) store.old).store }
{
    completed(store::make(p, m, c, s, r, store))
}

// Inserts 1 to 64 ids. [01:OP1 OP3]
#[unsafe(no_mangle)]
pub extern "C" fn mazhkuri_insert(store: &mut [u8], ids: &[u8], nonces: &[u8], token: &[u8]) -> i64
    ensures value { result ≡ encoded (insert_of program store.old ids.now nonces.now token.now).answer }
    ensures store_after { store.new ≡ (insert_of program store.old ids.now nonces.now token.now).store }
{
    counted(insert::insert(store, ids, nonces, token))
}

// Erases an id from every field. [01:OP4 OP5]
#[unsafe(no_mangle)]
pub extern "C" fn mazhkuri_erase(store: &mut [u8], id: &[u8]) -> i64
    ensures value { result ≡ encoded (erase_of store.old id.now).answer }
    ensures store_after { store.new ≡ (erase_of store.old id.now).store }
{
    counted(erase::erase(store, id))
}

// Finds the ids under a field, to the start of the output. [01:OP6 OP7 OP8]
#[unsafe(no_mangle)]
pub extern "C" fn mazhkuri_find(store: &[u8], token: &[u8], output: &mut [u8]) -> i64
    ensures value { result ≡ encoded (find_of program store.now token.now output.old).answer }
    ensures output_after { output.new ≡ (find_of program store.now token.now output.old).output }
{
    counted(find::find(store, token, output))
}

// Tests whether the document of an id has a label: 1 or 0. [02:W4.15 W4.16 W4.17]
#[unsafe(no_mangle)]
pub extern "C" fn mazhkuri_test(store: &[u8], id: &[u8], token: &[u8]) -> i64
    ensures { result ≡ encoded (test_of program store.now id.now token.now).answer }
{
    counted(test::test(store, id, token))
}

// Finds the ids that 1 to 8 parts have in common, to the start of the output. [02:W4.18 W4.21 W4.23]
#[unsafe(no_mangle)]
pub extern "C" fn mazhkuri_joint_find(store: &[u8], parts: &[u8], output: &mut [u8]) -> i64
    ensures value { result ≡ encoded (joint_find_of program store.now parts.now output.old).answer }
    ensures output_after { output.new ≡ (joint_find_of program store.now parts.now output.old).output }
{
    counted(joint_find::joint_find(store, parts, output))
}

// Counts the ids ever inserted under a field. [01:OP9]
#[unsafe(no_mangle)]
pub extern "C" fn mazhkuri_count(store: &[u8], token: &[u8]) -> i64
    ensures { result ≡ encoded (without_rows (count_of program store.now token.now).answer) }
{
    number_alone(count::count(store, token))
}

// Counts the ids ever inserted under a field, and writes the rows looked at, unless it is refused.
// [01:OP9] [02:W3.8]
#[unsafe(no_mangle)]
pub extern "C" fn mazhkuri_count_tallied(store: &[u8], token: &[u8], rows: &mut [u64; 1]) -> i64
    ensures value { result ≡ encoded (without_rows (count_of program store.now token.now).answer) }
    ensures rows_after { rows.new ≡ rows_lent (count_of program store.now token.now).answer rows.old }
{
    tallied(count::count(store, token), rows)
}

// Compacts the counters of every field inserted under since the last compaction. [01:OP10 OP13]
#[unsafe(no_mangle)]
pub extern "C" fn mazhkuri_compact(store: &mut [u8], nonces: &[u8], token: &[u8]) -> i64
    ensures value { result ≡ encoded (compact_of program store.old nonces.now token.now).answer }
    ensures store_after { store.new ≡ (compact_of program store.old nonces.now token.now).store }
{
    compacted(compact::compact(store, nonces, token))
}

// Puts a store in form. [02:W2.6 W2.8]
#[unsafe(no_mangle)]
pub extern "C" fn mazhkuri_order(store: &mut [u8]) -> i64
    ensures value { result ≡ encoded (order_of store.old).answer }
    ensures store_after { store.new ≡ (order_of store.old).store }
{
    counted(order::order(store))
}

// Counts rows that do not go together, and writes the seven numbers, unless it is refused. [check:1 check:14]
#[unsafe(no_mangle)]
pub extern "C" fn mazhkuri_check(store: &[u8], numbers: &mut [u64; 7]) -> i64
    ensures value { result ≡ encoded (summed (check_of store.now).answer) }
    ensures numbers_after { numbers.new ≡ numbers_lent (check_of store.now).answer numbers.old }
{
    inspected(consistency::check(store), numbers)
}
