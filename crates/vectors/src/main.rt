// Hash, F and E, and the compression of a block, on published vectors and on what another
// implementation gives (document 01, "Keyed function and cipher") [01:KF7] [02:W5.3]. Reads records
// from standard input and writes one line for each: the output in hexadecimal, or the refusal's
// number and whether the output was left as lent. tests/vectors.py makes the records and the lines
// to expect.
//
// Input: the number of records that follow. A record is its kind (1: hash, 2: keyed hash, 3: cipher,
// 4: compression) and its byte strings in the order of the call's arguments, for 4 a byte string and
// a place, which is a number; crates/records reads them.
//
// No contract can say what is read or written, so a function that only writes promises just that
// it gives back nothing.
#![tactic(auto)]

ghost use Rattle.std.specs.Prelude.{◌≡◌};
ghost use Rattle.chacha20.specs.Call.{cipher_text};

use answer::Refusal;

const STDOUT_FILENO: i32 = 1;

// Room for a byte string: the longest that a call accepts is 65,536 bytes, and the records have
// one of 65,537.
const ROOM: usize = 65600;

// What a digest's bytes are before the call.
const LENT: u8 = 165;

fn write_digest(digest: &[u8; 32])
    ensures { result ≡ tt }
{
    records::write_hex(digest);
}

// An output of more than 1,024 bytes is told by its hash, to keep the lines short.
fn write_output(bytes: &[u8])
    ensures { result ≡ tt }
{
    if bytes.len() <= 1024 {
        records::write_hex(bytes);
        return;
    }
    let mut digest = [0u8; 32];
    // It is not refused: what a call gives has at most 65,536 bytes.
    let _ = sha256::hash(bytes, &mut digest);
    io::write_all(STDOUT_FILENO, b"sha256 ");
    write_digest(&digest);
}

// One line: the output, or the refusal and whether the output was left as lent.
fn write_line(done: Result<(), Refusal>, output: &[u8], lent: &[u8])
    ensures { result ≡ tt }
{
    match done {
        Ok(()) => write_output(output),
        Err(r) => {
            io::write_all(STDOUT_FILENO, b"refused ");
            io::print_decimal(STDOUT_FILENO, r.number());
            if output == lent {
                io::write_all(STDOUT_FILENO, b", output as lent");
            } else {
                io::write_all(STDOUT_FILENO, b", OUTPUT CHANGED");
            }
        }
    }
    io::write_all(STDOUT_FILENO, b"\n");
}

// The line of a digest or tag, whose bytes were all LENT before the call.
fn write_digest_line(done: Result<(), Refusal>, digest: &[u8; 32])
    ensures { result ≡ tt }
{
    let lent = [LENT; 32];
    write_line(done, digest, &lent);
}

fn hash_record()
    ensures { result ≡ tt }
{
    let mut message = [0u8; ROOM];
    let n = records::read_bytes(&mut message);
    let mut digest = [LENT; 32];
    let done = sha256::hash(&message[..n], &mut digest);
    write_digest_line(done, &digest);
}

fn mac_record()
    ensures { result ≡ tt }
{
    let mut key = [0u8; ROOM];
    let k = records::read_bytes(&mut key);
    let mut message = [0u8; ROOM];
    let n = records::read_bytes(&mut message);
    let mut tag = [LENT; 32];
    let done = hmac::mac(&key[..k], &message[..n], &mut tag);
    write_digest_line(done, &tag);
}

// Runs the cipher over the text, of which lent is a copy.
fn cipher(key: &[u8], nonce: &[u8], text: &mut [u8], lent: &[u8])
    ensures { text.new ≡ cipher_text key.now nonce.now text.old }
{
    let done = chacha20::apply(key, nonce, text);
    write_line(done, text, lent);
}

fn cipher_record()
    ensures { result ≡ tt }
{
    let mut key = [0u8; 128];
    let k = records::read_bytes(&mut key);
    let mut nonce = [0u8; 128];
    let j = records::read_bytes(&mut nonce);
    let mut text = [0u8; ROOM];
    let n = records::read_bytes(&mut text);
    let lent = text;
    cipher(&key[..k], &nonce[..j], &mut text[..n], &lent[..n]);
}

// The hash value that follows the initial one by the block at a place of a byte string, or the
// initial one where no 64 bytes stand there.
fn block_record()
    ensures { result ≡ tt }
{
    let mut m = [0u8; ROOM];
    let n = records::read_bytes(&mut m);
    let at = records::read_number() as usize;
    let s = compression::compress(sha256::initial(), &m[..n], at);
    let mut digest = [LENT; 32];
    sha256::digest(s, &mut digest);
    write_digest_line(Ok(()), &digest);
}

fn record()
    ensures { result ≡ tt }
{
    let kind = records::read_byte();
    match kind {
        1 => hash_record(),
        2 => mac_record(),
        3 => cipher_record(),
        4 => block_record(),
        _ => {
            io::write_all(STDOUT_FILENO, b"no such kind\n");
        }
    }
}

fn main() {
    for _ in 0..records::read_number() {
        record();
    }
}
