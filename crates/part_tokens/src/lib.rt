// The parts of a joint find in a list of calls, made of one text and the places where its pieces end, three to a part: key,
// name and value (document 02, "Find by several fields"). [02:W4.18 W4.24 W4.25]
#![tactic(auto)]

ghost use Rattle.std.specs.Prelude.{◌≡◌, ◌+◌, ◌*◌, ◌≤◌, length};
ghost use Rattle.answer.specs.Answer.{completion};
ghost use Rattle.scheme.specs.Run.{part_of, part_token_tests};
ghost use Rattle.suite.specs.Program.{program};
ghost use Rattle.client.specs.Making.{making_answer, making_token};
ghost use Rattle.part_tokens.specs.Parts.{edge as edge_of, piece as piece_of, part_at, parts_of, parts_tests, placed, kept_parts};

use answer::Refusal;
use format::PART_TOKEN;

// Where piece j of a text begins, and piece j - 1 ends.
fn edge(ends: &[u64], j: usize) -> usize
    requires { j ≤ length ends.now }
    ensures { result ≡ edge_of ends.now j }
{
    if 0 < j { ends[j - 1] as usize } else { 0 }
}

// The piece of a text from a place to another, as far as the text goes.
fn piece(text: &[u8], a: usize, e: usize) -> &[u8]
    ensures { result.now ≡ piece_of text.now a e }
{
    let n = text.len();
    let start = octets::least(a, n);
    let end = start + octets::least(octets::above(e, a), n - start);
    &text[start..end]
}

// The part of number i: its key, name and value are three pieces of the text. [02:W4.24]
fn make_part(
    text: &[u8],
    ends: &[u64],
    i: usize,
    part: &mut [u8; PART_TOKEN],
) -> Result<(), Refusal>
    requires { 3 * i + 3 ≤ length ends.now }
    ensures result_value { completion result ≡ making_answer (part_token_tests (part_at text.now ends.now i)) }
    ensures part_after { part.new ≡ making_token (part_token_tests (part_at text.now ends.now i)) (part_of program (part_at text.now ends.now i)) part.old }
{
    let a = edge(ends, 3 * i);
    let k = edge(ends, 3 * i + 1);
    let n = edge(ends, 3 * i + 2);
    let v = edge(ends, 3 * i + 3);
    client::part_token(
        piece(text, a, k),
        piece(text, k, n),
        piece(text, n, v),
        part,
    )
}

// Puts the part of number i where it belongs among the first 8. [02:W4.18]
fn put_part(to: &mut [u8], i: usize, part: &[u8; PART_TOKEN])
    requires { length to.old ≡ 1024 }
    ensures { to.new ≡ placed to.old i part.now }
{
    if i < 8 {
        octets::copy_at(to, PART_TOKEN * i, part);
    }
}

// The parts of a text, made in order, of which the first 8 are kept; the first making that is refused ends
// it, and clears them. [02:W4.24 W4.25]
pub fn make_parts(text: &[u8], ends: &[u64], to: &mut [u8]) -> Result<(), Refusal>
    requires { length to.old ≡ 1024 }
    ensures result_value { completion result ≡ making_answer (parts_tests (parts_of text.now ends.now)) }
    ensures to_after { to.new ≡ kept_parts (parts_of text.now ends.now) to.old }
{
    for i in 0..ends.len() / 3 {
        let mut part = [0u8; PART_TOKEN];
        if let Err(r) = make_part(text, ends, i, &mut part) {
            to.fill(0);
            return Err(r);
        }
        put_part(to, i, &part);
    }
    Ok(())
}
