// Rows of a table moved to another place, over one another, as whole runs of bytes (document 02, "Rows in byte order"). The
// definition stands in specs/Moves.antt, the laws in proofs/.
#![tactic(auto)]

ghost use Rattle.std.specs.Prelude.{◌≡◌, ◌+◌, ◌*◌, ◌≤◌, length};
ghost use Rattle.table.specs.Table.{rows};
ghost use Rattle.moving.specs.Moves.{moved};

// Copies n bytes from a place to another, by way of a local: for 64 one load and one store of vectors. The library's
// copy within a slice makes an insert of 64 entries twice as slow. Of no bytes it is asked often, and two calls to copy
// none took a third of a sort.
#[tactic(auto, using(crate::proofs::Moves::moved_none))]
fn piece(t: &mut [u8], from: usize, n: usize, to: usize)
    requires { (n ≤ 64) × ((from + n ≤ length t.old) × (to + n ≤ length t.old)) }
    ensures { t.new ≡ moved t.old from n to }
{
    if n == 0 {
        return;
    }
    let mut held = [0u8; 64];
    let e = from + n;
    held[..n].copy_from_slice(&t[from..e]);
    octets::copy_at(t, to, &held[..n]);
}

// Moves n bytes up by d bytes, the last ones first.
fn up(t: &mut [u8], at: usize, n: usize, d: usize)
    requires { at + n + d ≤ length t.old }
    ensures { t.new ≡ moved t.old at n (at + d) }
{
    let rest = n % 64;
    for i in (0..n / 64).rev() {
        let x = at + rest + 64 * i;
        piece(t, x, 64, x + d);
    }
    piece(t, at, rest, at + d);
}

// Moves n bytes down by d bytes, the first ones first.
fn down(t: &mut [u8], to: usize, n: usize, d: usize)
    requires { to + n + d ≤ length t.old }
    ensures { t.new ≡ moved t.old (to + d) n to }
{
    for i in 0..n / 64 {
        let x = to + 64 * i;
        piece(t, x + d, 64, x);
    }
    let rest = n % 64;
    let x = to + (n - rest);
    piece(t, x + d, rest, x);
}

// Copies k rows to another place, up or down; every other row stays.
#[tactic(auto, using(crate::proofs::Moves::within, crate::proofs::Moves::rows_risen, crate::proofs::Moves::rows_sunk))]
pub fn move_rows(t: &mut [u8], w: usize, n: usize, from: usize, k: usize, to: usize)
    requires { (length t.old ≡ w * n) × ((from + k ≤ n) × (to + k ≤ n)) }
    ensures { rows w n t.new ≡ moved (rows w n t.old) from k to }
{
    let a = w * from;
    let b = w * to;
    if a < b {
        up(t, a, w * k, b - a);
    } else {
        down(t, b, w * k, a - b);
    }
}
