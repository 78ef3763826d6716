// The part of a joint find that counts least (document 02, "Find by several fields"): every part's shares are
// read, part after part.
#![tactic(auto)]

ghost use Rattle.std.specs.Prelude.{◌≡◌, [], ◌*◌, ◌-◌, ◌≤◌, ◌<◌, length, get_or};
ghost use Rattle.table.specs.Table.{rows};
ghost use Rattle.store.specs.Check.{checked_of};
ghost use Rattle.choosing.specs.Choice.{part_counts, better_of, first_of, next_of, chosen_to};

use find::Counts;
use format::{FIND_TOKEN, PART_TOKEN};
use store::Shape;

// The number of a part, and what its shares count.
#[derive(Clone, Copy)]
pub struct Choice {
    pub at: usize,
    pub counts: Counts,
}

// The part of number i in the place of the one chosen so far, where it counts less. [02:W4.20]
fn better(c: Choice, i: usize, k: Counts) -> Choice
    ensures { result ≡ better_of c i k }
{
    if k.sum < c.counts.sum {
        return Choice { at: i, counts: k };
    }
    c
}

// What the part of number i counts: none where a share is damaged.
fn counts_of(store: &[u8], z: Shape, parts: &[u8], n: usize, i: usize) -> Option<Counts>
    requires { (checked_of store.now ≡ Ok z) × ((length parts.now ≡ 128 * n) × ((i < n) × (n ≤ 8))) }
    ensures { result ≡ part_counts store.now z.p (get_or (rows 128 n parts.now) i []) }
{
    let a = PART_TOKEN * i;
    let e = a + FIND_TOKEN;
    find::counts_in(store, z, &parts[a..e])
}

// The choice of the first part alone.
fn first(counts: Option<Counts>) -> Result<Choice, usize>
    ensures { result ≡ first_of counts }
{
    match counts {
        Some(counts) => Ok(Choice { at: 0, counts }),
        None => Err(0),
    }
}

// The choice with the part of number i; one that is damaged stays. [02:W4.22]
fn next(best: Result<Choice, usize>, i: usize, counts: Option<Counts>) -> Result<Choice, usize>
    ensures { result ≡ next_of best i counts }
{
    match best {
        Ok(c) => match counts {
            Some(k) => Ok(better(c, i, k)),
            None => Err(i),
        },
        Err(j) => Err(j),
    }
}

// The part with the least count, the earlier on a tie; or the number of the first that is damaged: every part is read.
// [02:W4.19 W4.20 W4.22]
pub fn choose(store: &[u8], z: Shape, parts: &[u8], n: usize) -> Result<Choice, usize>
    requires { (checked_of store.now ≡ Ok z) × ((length parts.now ≡ 128 * n) × ((1 ≤ n) × (n ≤ 8))) }
    ensures { result ≡ chosen_to (part_counts store.now z.p) (rows 128 n parts.now) (n - 1) }
{
    let mut best = first(counts_of(store, z, parts, n, 0));
    for i in 1..n {
        let counts = counts_of(store, z, parts, n, i);
        best = next(best, i, counts);
    }
    best
}
