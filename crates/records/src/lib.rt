// Records on standard input, and bytes on standard output: what the test programs share. A number is
// 4 bytes, big-endian. A byte string is its form, one byte, and its length, a number; form 0 has the
// bytes, form 1 a seed, a number, of which the pattern is made.
#![tactic(auto)]

mod pattern;

ghost use Rattle.std.specs.Prelude.{◌≡◌, ◌<◌, ◌^◌, length};
ghost use Rattle.io.specs.Counts.{IsPrefixLen};

const STDIN_FILENO: i32 = 0;

const STDOUT_FILENO: i32 = 1;

// Of what is read a contract can say its range alone.
pub fn read_byte() -> u64
    ensures { result < 256 }
{
    let mut one = [0u8; 1];
    io::read_full(STDIN_FILENO, &mut one);
    u64::from(one[0])
}

// A number of 4 bytes, big-endian.
pub fn read_number() -> u64
    ensures { result < 2 ^ 32 }
{
    let mut four = [0u8; 4];
    io::read_full(STDIN_FILENO, &mut four);
    u64::from(u32::from_be_bytes(four))
}

// Fills the slice as the next byte string says.
fn fill(form: u64, to: &mut [u8])
    ensures { length to.new ≡ length to.old }
{
    if form == 0 {
        io::read_full(STDIN_FILENO, to);
    } else {
        pattern::fill(to, read_number());
    }
}

// Reads the next byte string to the start of the slice, and answers its length.
pub fn read_bytes(to: &mut [u8]) -> usize
    ensures { IsPrefixLen result to.new }
{
    let form = read_byte();
    let asked = read_number() as usize;
    if asked <= to.len() {
        fill(form, &mut to[..asked]);
        asked
    } else {
        0
    }
}

// The bytes in hexadecimal.
pub fn write_hex(bytes: &[u8])
    ensures { result ≡ tt }
{
    for byte in bytes {
        io::print_hex(STDOUT_FILENO, u64::from(*byte), 2);
    }
}
