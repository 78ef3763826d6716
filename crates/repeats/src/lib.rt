// Tags that stand twice in a table in form (the request "Check"): equal tags stand together, so that each row is compared with
// the one before it. The laws of the keys of used rows, for matching and lacking too, stand in proofs/Keys.antt.
#![tactic(auto)]

ghost use Rattle.std.specs.Prelude.{◌≡◌, map, ◌+◌, ◌*◌, ◌≤◌, length, take, drop};
ghost use Rattle.octets.specs.Compare.{same as same_bytes};
ghost use Rattle.table.specs.Lists.{repeats as repeats_in};
ghost use Rattle.table.specs.Table.{rows, used as used_in};
ghost use Rattle.table.specs.Order.{Searchable};

// Whether k bytes of two texts, from a place of each on, are the same.
pub fn alike(a: &[u8], i: usize, b: &[u8], j: usize, k: usize) -> bool
    requires { (i + k ≤ length a.now) × (j + k ≤ length b.now) }
    ensures { result ≡ same_bytes (take k (drop i a.now)) (take k (drop j b.now)) }
{
    let d = i + k;
    let e = j + k;
    a[i..d] == b[j..e]
}

// How many used rows have a tag that a row before them has: equal tags stand together. [check:2 check:3 check:9]
pub fn repeats(t: &[u8], w: usize, n: usize, u: usize) -> u64
    requires { ((33 ≤ w) × (length t.now ≡ w * n)) × Searchable w u (rows w n t.now) }
    ensures { result ≡ repeats_in (map (take 32) (used_in (rows w n t.now))) }
{
    let mut r = 0;
    for i in 1..u {
        let a = w * i + 1;
        if alike(t, a - w, t, a, 32) {
            r += 1;
        }
    }
    r
}
