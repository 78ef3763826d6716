// The line of what a compaction has done, as bytes in a lent slice: on standard output where it was done, in
// the message where it met damage.
#![tactic(auto)]

ghost use Rattle.std.specs.Prelude.{◌+◌, ◌≤◌, length};
ghost use Rattle.buffer.specs.Put.{Put};
ghost use Rattle.tally.specs.Line.{tally_line};

use answer::Tally;
use buffer::put_counted;

// Puts what a compaction has done.
pub fn put_tally(to: &mut [u8], at: usize, t: Tally) -> usize
    requires { at + 42 ≤ length to.old }
    ensures { (Put to.old at (tally_line t) to.new result) × (result ≤ at + 42) }
{
    let e = put_counted(to, at, t.anchors, b" ");
    put_counted(to, e, t.counters, b"\n")
}
