// Rows (document 01, "Store"; document 02, "Find by several fields"): those of M, V, C, S and R as they are
// written, and what is read of a row.
ghost use Rattle.std.specs.Prelude.{◌≡◌, not, ◌&&◌, ◌∷◌, ◌++◌, [], ◌*◌, ◌<◌, length, get_or};
ghost use Rattle.chacha20.specs.Cipher.{E};
ghost use Rattle.table.specs.Lists.{same};
ghost use Rattle.table.specs.Table.{rows, is_free, body};
ghost use Rattle.scheme.specs.Suite.{number8};
ghost use Rattle.scheme.specs.Store.{table_m, table_s, table_v, table_r, width_of, reverse_id, reverse_tag, entry_row, reverse_row, counted_row, counter_row, anchor_row, log_row, cl_in, label_row, label_nonce, label_mark};
ghost use Rattle.suite.specs.Program.{program};
ghost use Rattle.format.specs.Tags.{r_mark_by, Prepared, KeysOf};
ghost use Rattle.format.specs.Rows.{text_in};

use crate::{
    Address, AnchorNumber, ID, Keys, Position, anchor_tag, counter_tag, entry_tag, r_mark,
};
use hmac::Keyed;
use store::{C_WIDTH, M_WIDTH, R_WIDTH, S_WIDTH, V_WIDTH};

// A row of M or of C: mark, tag, nonce, and 16 bytes under a key. [01:ST6 ST9]
pub fn sealed_row(tag: &[u8], key: &[u8], nonce: &[u8], plain: &[u8]) -> [u8; M_WIDTH]
    requires { ((length tag.now ≡ 32) × (length key.now ≡ 32)) × ((length nonce.now ≡ 12) × (length plain.now ≡ 16)) }
    ensures { result ≡ 1 ∷ tag.now ++ (nonce.now ++ E key.now nonce.now plain.now) }
{
    let mut text = [0u8; 16];
    octets::copy(&mut text, plain);
    chacha20::apply_short(key, nonce, &mut text);
    let mut row = [1u8; M_WIDTH];
    octets::copy_at(&mut row, 1, tag);
    octets::copy_at(&mut row, 33, nonce);
    octets::copy_at(&mut row, 45, &text);
    row
}

// A row of V: mark, id, and the M row's tag. [01:ST8]
fn reverse_row(id: &[u8], tag: &[u8]) -> [u8; V_WIDTH]
    requires { (length id.now ≡ 16) × (length tag.now ≡ 32) }
    ensures { result ≡ 1 ∷ id.now ++ tag.now }
{
    let mut row = [1u8; V_WIDTH];
    octets::copy_at(&mut row, 1, id);
    octets::copy_at(&mut row, 17, tag);
    row
}

// The rows of M and of V for one id.
#[derive(Clone, Copy)]
pub struct IdRows {
    pub entry: [u8; M_WIDTH],
    pub reverse: [u8; V_WIDTH],
}

// Both rows for an id at an address, with the prepared MT; the tag is computed once. [01:ST6 ST8]
pub fn rows_for(k: Keyed, mt: &[u8], me: &[u8], a: Address, nonce: &[u8], id: &[u8]) -> IdRows
    requires { Prepared k mt.now × ((length me.now ≡ 32) × ((length nonce.now ≡ 12) × (length id.now ≡ 16))) }
    ensures result_value { result.entry ≡ entry_row program mt.now me.now a.0 nonce.now id.now }
    ensures reverse_value { result.reverse ≡ reverse_row program mt.now a.0 id.now }
{
    let tag = entry_tag(k, a);
    let entry = sealed_row(&tag, me, nonce, id);
    let reverse = reverse_row(id, &tag);
    IdRows { entry, reverse }
}

// The plaintext of a row of C: two numbers. [01:ST9]
#[tactic(auto, using(octets::proofs::Parts::length_part, crate::proofs::Rows::plain_is))]
fn put_numbers(to: &mut [u8], a: u64, n: u64)
    requires { length to.old ≡ 16 }
    ensures { to.new ≡ number8 a ++ number8 n }
{
    octets::put(&mut to[0..8], a);
    octets::put(&mut to[8..16], n);
}

// A row of C under a tag, of CL, whose keys are given: two numbers. [01:ST9]
fn counted_row(keys: Keys, cl: &[u8; 32], tag: &[u8], nonce: &[u8], a: u64, n: u64) -> [u8; C_WIDTH]
    requires { KeysOf keys cl.now × ((length tag.now ≡ 32) × (length nonce.now ≡ 12)) }
    ensures { result ≡ counted_row program cl.now tag.now nonce.now a n }
{
    let ce = keys.ce;
    let mut plain = [0u8; 16];
    put_numbers(&mut plain, a, n);
    sealed_row(tag, &ce, nonce, &plain)
}

// The counter row of CL at a position: number 0, then the count. [01:ST10]
#[tactic(auto, using(crate::proofs::Tags::counter_tag_is), unfolding(scheme::specs::Store::counter_row))]
pub fn counter_row(
    keys: Keys,
    cl: &[u8; 32],
    a: Position,
    nonce: &[u8],
    count: u64,
) -> [u8; C_WIDTH]
    requires { KeysOf keys cl.now × (length nonce.now ≡ 12) }
    ensures { result ≡ counter_row program cl.now a.0 nonce.now count }
{
    let tag = counter_tag(keys.ct, a);
    counted_row(keys, cl, &tag, nonce, 0, count)
}

// The anchor row of a number, of CL: position, then count. [01:ST11]
#[tactic(auto, using(crate::proofs::Tags::anchor_tag_is), unfolding(scheme::specs::Store::anchor_row))]
pub fn anchor_row(
    keys: Keys,
    cl: &[u8; 32],
    b: AnchorNumber,
    nonce: &[u8],
    a: Position,
    count: u64,
) -> [u8; C_WIDTH]
    requires { KeysOf keys cl.now × (length nonce.now ≡ 12) }
    ensures { result ≡ anchor_row program cl.now b.0 nonce.now a.0 count }
{
    let tag = anchor_tag(keys.ct, b);
    counted_row(keys, cl, &tag, nonce, a.0, count)
}

// The text of the row of M or C at a place, under a key. [01:ST6 ST9]
#[tactic(auto, using(crate::proofs::Rows::nonce_at, crate::proofs::Rows::text_at), unfolding(crate::specs::Rows::text_in))]
pub fn text_at(t: &[u8], n: usize, i: usize, key: &[u8; 32]) -> [u8; 16]
    requires { (i < n) × (length t.now ≡ width_of table_m * n) }
    ensures { result ≡ text_in key.now (body (get_or (rows (width_of table_m) n t.now) i [])) }
{
    let at = M_WIDTH * i;
    let nonce = at + 33;
    let text = at + 45;
    let e = at + M_WIDTH;
    let mut plain = [0u8; 16];
    octets::copy(&mut plain, &t[text..e]);
    chacha20::apply_short(key, &t[nonce..text], &mut plain);
    plain
}

// A row of S: mark, and the 44 bytes of the token before RL. [01:ST12 OP1] [02:W4.10]
#[tactic(auto, using(octets::proofs::Parts::marked_one), unfolding(scheme::specs::Store::log_row))]
pub fn log_row(log: &[u8]) -> [u8; S_WIDTH]
    requires { length log.now ≡ 44 }
    ensures { result ≡ log_row log.now }
{
    let mut row = [1u8; S_WIDTH];
    octets::copy_at(&mut row, 1, log);
    row
}

// Whether the row of S at an index is used. [01:ST5]
#[tactic(auto, using(table::proofs::Walk::mark_at))]
pub fn is_used(t: &[u8], s: usize, i: usize) -> bool
    requires { (i < s) × (length t.now ≡ width_of table_s * s) }
    ensures { result ≡ not (is_free (get_or (rows (width_of table_s) s t.now) i [])) }
{
    let at = S_WIDTH * i;
    t[at] != 0
}

// Decrypts the CL in the row of S at an index. [01:ST12]
#[tactic(auto, using(crate::proofs::Rows::cl_opened))]
pub fn open_row(t: &[u8], s: usize, i: usize, ks: &[u8], cl: &mut [u8])
    requires { (i < s) × ((length t.now ≡ width_of table_s * s) × ((length ks.now ≡ 32) × (length cl.old ≡ 32))) }
    ensures { cl.new ≡ cl_in program ks.now (body (get_or (rows (width_of table_s) s t.now) i [])) }
{
    let at = S_WIDTH * i;
    let nonce = at + 1;
    let text = at + 13;
    let e = at + S_WIDTH;
    octets::copy(cl, &t[text..e]);
    chacha20::apply_short(ks, &t[nonce..text], cl);
}

// Whether the row of V at an index is used and is the id's. [01:ST8]
#[tactic(auto, using(table::proofs::Walk::row_part), unfolding(scheme::specs::Store::reverse_id))]
pub fn is_reverse(t: &[u8], n: usize, i: usize, id: &[u8; ID]) -> bool
    requires { (i < n) × (length t.now ≡ width_of table_v * n) }
    ensures { result ≡ (not (is_free (get_or (rows (width_of table_v) n t.now) i [])) && same (reverse_id (body (get_or (rows (width_of table_v) n t.now) i []))) id.now) }
{
    let at = V_WIDTH * i;
    let e = at + V_WIDTH;
    table::starts(&t[at..e], id)
}

// The tag in the row of V at an index. [01:ST8]
pub fn tag_at(t: &[u8], n: usize, i: usize) -> [u8; 32]
    requires { (i < n) × (length t.now ≡ width_of table_v * n) }
    ensures { result ≡ reverse_tag (body (get_or (rows (width_of table_v) n t.now) i [])) }
{
    let e = V_WIDTH * i + V_WIDTH;
    let at = V_WIDTH * i + 17;
    let mut tag = [0u8; 32];
    octets::copy(&mut tag, &t[at..e]);
    tag
}

// A row of R: mark, id, nonce, and the R mark, with the prepared RL. [02:W4.3]
pub fn label_row(k: Keyed, rl: &[u8], nonce: &[u8], id: &[u8]) -> [u8; R_WIDTH]
    requires { Prepared k rl.now × ((length nonce.now ≡ 12) × (length id.now ≡ 16)) }
    ensures { result ≡ label_row program rl.now nonce.now id.now }
{
    let mark = r_mark(k, nonce, id);
    let mut row = [1u8; R_WIDTH];
    octets::copy_at(&mut row, 1, id);
    octets::copy_at(&mut row, 17, nonce);
    octets::copy_at(&mut row, 29, &mark);
    row
}

// Whether the R mark in the row of R at an index is that of the id under the row's nonce, with the
// prepared RL. [02:W4.17]
pub fn is_marked(t: &[u8], n: usize, i: usize, rl: Keyed, id: &[u8]) -> bool
    requires { (i < n) × ((length t.now ≡ width_of table_r * n) × (length id.now ≡ 16)) }
    ensures { result ≡ same (label_mark (body (get_or (rows (width_of table_r) n t.now) i []))) (r_mark_by rl (label_nonce (body (get_or (rows (width_of table_r) n t.now) i []))) id.now) }
{
    let at = R_WIDTH * i;
    let nonce = at + 17;
    let mark = at + 29;
    let e = at + R_WIDTH;
    let wanted = r_mark(rl, &t[nonce..mark], id);
    octets::same(&t[mark..e], &wanted)
}
