// The bytes that the words of a command line stand for: ids, and in the module `token` its token.
#![tactic(auto)]

ghost use Rattle.std.specs.Prelude.{◌≡◌, ◌+◌, ◌*◌, ◌≤◌, length};
ghost use Rattle.operands.specs.Ids.{id_of, ids_of};

pub mod token;

use words::line;

// The id that a word stands for, zeros where it is none.
pub fn id(word: &[u8], to: &mut [u8])
    requires { length to.old ≡ 16 }
    ensures { to.new ≡ id_of word.now }
{
    if text::is_id(word) {
        text::unhex(word, to);
    } else {
        to.fill(0);
    }
}

// The ids of n words from word `first` on.
#[tactic(auto, using(crate::proofs::Laws::ids_more), unfolding(crate::specs::Ids::ids_of))]
pub fn ids(line: &[u8], first: usize, n: usize, to: &mut [u8])
    requires { (length to.old ≡ 16 * n) × (first + n ≤ 4096) }
    ensures { to.new ≡ ids_of first n line.now }
{
    // By a place, not by `chunks_exact_mut`: no clause says what a slice holds after its chunks were written.
    for i in 0..n {
        let a = 16 * i;
        id(line::word(line, first + i), &mut to[a..a + 16]);
    }
}
