// The names of the files beside a store or a key, and the folder's part of a path.
#![tactic(auto)]

ghost use Rattle.std.specs.Prelude.{◌≡◌, ◌++◌, ◌+◌, ◌≤◌, length, take};
ghost use Rattle.io.specs.Counts.{IsPrefixLen};
ghost use Rattle.buffer.specs.Put.{Put};
ghost use Rattle.paths.specs.Folder.{folder_of};
ghost use Rattle.paths.specs.Names.{lock_of, new_of, temporary_of};

use buffer::put;

// The name of a file beside another: its path and an ending. Answers its length.
fn beside(path: &[u8], ending: &[u8], to: &mut [u8]) -> usize
    requires { length path.now + length ending.now ≤ length to.old }
    ensures { Put to.old 0 (path.now ++ ending.now) to.new result }
{
    let e = put(to, 0, path);
    put(to, e, ending)
}

// How long the folder's part of a path is: up to its last slash.
#[tactic(auto, using(crate::proofs::Laws::folder_slash, crate::proofs::Laws::folder_other, crate::proofs::Laws::folder_end, crate::proofs::Rules::folder_rules))]
pub fn folder(path: &[u8]) -> usize
    ensures value { result ≡ folder_of path.now }
    ensures upper_bound { (result ≤ length path.now) × (result ≡ length (take result path.now)) }
{
    let mut n = 0;
    for (i, b) in path.iter().enumerate() {
        if *b == b'/' {
            n = i + 1;
        }
    }
    n
}

// The name of the store's lock file. Answers its length.
pub fn lock_name(path: &[u8], to: &mut [u8]) -> usize
    requires { (length path.now ≤ 4096) × (length to.old ≡ 4120) }
    ensures put { Put to.old 0 (lock_of path.now) to.new result }
    ensures prefix_len { IsPrefixLen result to.new }
{
    beside(path, b".lock", to)
}

// The name of the file that the store's new bytes are written to. Answers its length.
pub fn new_name(path: &[u8], to: &mut [u8]) -> usize
    requires { (length path.now ≤ 4096) × (length to.old ≡ 4120) }
    ensures put { Put to.old 0 (new_of path.now) to.new result }
    ensures prefix_len { IsPrefixLen result to.new }
    ensures upper_bound { result ≤ 4101 }
{
    beside(path, b".new", to)
}

// The name that a file of that name is made under, in the same folder. Answers its length.
#[tactic(auto, using(buffer::proofs::Laws::said, buffer::proofs::Laws::counts))]
pub fn temporary_name(name: &[u8], to: &mut [u8]) -> usize
    requires { (length name.now ≤ 4101) × (length to.old ≡ 4120) }
    ensures put { Put to.old 0 (temporary_of name.now) to.new result }
    ensures prefix_len { IsPrefixLen result to.new }
{
    let n = folder(name);
    beside(&name[..n], b"mazhkuri.XXXXXX", to)
}
