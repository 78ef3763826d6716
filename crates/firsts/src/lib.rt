// Where each of n texts of 32 bytes first stands among them (document 01, "Operations": compaction,
// distinct CL in order of first row): a hash table with separate chaining over the different ones.
#![tactic(auto)]

ghost use Rattle.std.specs.Prelude.{◌≡◌, [], ◌++◌, ◌+◌, ◌*◌, ◌≤◌, ◌<◌, eqb, ltb, length, get_or, take, drop};
ghost use Rattle.table.specs.Lists.{bit};
ghost use Rattle.table.specs.Table.{rows};
ghost use Rattle.firsts.specs.Flags.{flags_under};
ghost use Rattle.firsts.specs.Firsts.{first_in, firsts, bucket_of, Chained, heads_after, links_after};

const BUCKETS: usize = 4096;

// The bucket of a text: its first twelve bits.
#[tactic(auto, unfolding(crate::specs::Firsts::bucket_of))]
fn bucket(text: &[u8]) -> usize
    requires { 2 ≤ length text.now }
    ensures { (result ≡ bucket_of text.now) × (result < 4096) }
{
    16 * usize::from(text[0]) + usize::from(text[1]) / 16
}

// The row that is equal to row i, among those before it that are the first of their kind; i where there
// is none. A head and a link are a row's number and one more; 0 ends the chain.
#[tactic(auto, using(table::proofs::Walk::row_part, crate::proofs::Chaining::walking_start, crate::proofs::Chaining::walking_leads, crate::proofs::Chaining::walking_hit, crate::proofs::Chaining::walking_next, crate::proofs::Chaining::last_le, crate::proofs::Rules::equal_in_rules))]
fn equal_in(log: &[u8], n: usize, i: usize, b: usize, heads: &[u16], links: &[u16]) -> usize
    requires n_in_bounds { (32 * n ≤ length log.now) × ((n ≤ 4096) × ((i < n) × Chained (rows 32 n log.now) i heads.now links.now)) }
    requires b_value { (b ≡ bucket_of (get_or (rows 32 n log.now) i [])) × (b < 4096) }
    ensures { (result ≡ first_in (rows 32 n log.now) (get_or (rows 32 n log.now) i [])) × (result ≤ i) }
{
    let a = 32 * i;
    let e = a + 32;
    let mut next = usize::from(heads[b]);
    while 0 < next {
        let j = next - 1;
        let d = 32 * j;
        let f = d + 32;
        if log[d..f] == log[a..e] {
            return j;
        }
        next = usize::from(links[j]);
    }
    i
}

// Puts row i at the head of its chain, if it is the first of its kind.
fn link(heads: &mut [u16], links: &mut [u16], b: usize, i: usize, j: usize)
    requires { (b < length heads.old) × ((i < length links.old) × (i < 4096)) }
    ensures { (heads.new ≡ heads_after heads.old b i (eqb j i)) × (links.new ≡ links_after heads.old links.old b i (eqb j i)) }
{
    if j == i {
        links[i] = heads[b];
        heads[b] = (i + 1) as u16;
    }
}

// For each of n rows the first that is equal to it. [01:OP10]
#[tactic(auto, using(table::proofs::Walk::row_part, crate::proofs::Chaining::chained_start, crate::proofs::Chaining::chained_turn, crate::proofs::Chaining::found_none, crate::proofs::Chaining::found_turn, crate::proofs::Chaining::found_all, crate::proofs::Rules::find_rules))]
pub fn find(log: &[u8], n: usize, first: &mut [u16])
    requires { (32 * n ≤ length log.now) × ((n ≤ 4096) × (n ≤ length first.old)) }
    ensures { first.new ≡ firsts (rows 32 n log.now) ++ drop n first.old }
{
    let mut heads = [0u16; BUCKETS];
    let mut links = [0u16; BUCKETS];
    for i in 0..n {
        let a = 32 * i;
        let e = a + 32;
        let b = bucket(&log[a..e]);
        let j = equal_in(log, n, i, b, &heads, &links);
        first[i] = j as u16;
        link(&mut heads, &mut links, b, i, j);
    }
}

// Flags those of the first n texts that first stand before a place. [01:OP12]
pub fn flag_before(first: &[u16], n: usize, upto: usize, flags: &mut [u8])
    requires { (n ≤ length first.now) × (n ≤ length flags.old) }
    ensures { flags.new ≡ flags_under upto (take n first.now) ++ drop n flags.old }
{
    for i in 0..n {
        let at = usize::from(first[i]);
        flags[i] = u8::from(at < upto);
    }
}
