// Files under names that are not taken, as mkstemp makes them.
ghost use Rattle.std.specs.Prelude.{◌≡◌, ◌-◌, ◌≤◌, length, take};
ghost use Rattle.files.specs.System.{OfSystem};

use crate::text_of;
use std::fs::{File, OpenOptions};
use std::io::{Error, ErrorKind};
use std::os::unix::fs::OpenOptionsExt;
use std::process;
use std::random::RandomSource;

// How many names are tried.
const TRIES: u8 = 100;

// A digit or a letter, so no slash and no 0: the name stays one, in its folder.
fn letter(chosen: u8) -> u8
    ensures { (48 ≤ result) × (result ≤ 122) }
{
    match chosen % 62 {
        n @ 0..=9 => b'0' + n,
        n @ 10..=35 => b'A' + (n - 10),
        n => b'a' + (n - 36),
    }
}

// Six bytes that other tools will not have at the same time: random ones, or where the system has none, the process's number
// and which try it is.
fn chosen(rt: &HostRuntime, turn: u8) -> [u8; 6]
    ensures { OfSystem result }
{
    let mut random = [0u8; 6];
    if rt.fill_bytes(&mut random).is_ok() {
        return random;
    }
    let [a, b, c, d] = process::id(rt.process()).to_le_bytes();
    [a, b, c, d, turn, 0]
}

// Sets a name's last six bytes.
fn name_by(name: &mut [u8], six: [u8; 6])
    ensures name_len_unchanged { length name.new ≡ length name.old }
    ensures front_unchanged { take (length name.new - 6) name.new ≡ take (length name.old - 6) name.old }
{
    let start = name.len().saturating_sub(6);
    for (place, byte) in name[start..].iter_mut().zip(&six) {
        *place = letter(*byte);
    }
}

// Makes a file that only its owner may open, which must not be there.
fn create_private(rt: &HostRuntime, name: &[u8]) -> std::io::Result<File>
    ensures { OfSystem result }
{
    OpenOptions::new()
        .read(true)
        .write(true)
        .create_new(true)
        .mode(0o600)
        .open(rt, text_of(name)?)
}

// Makes a file that only its owner may open, under a name whose last six bytes are chosen here so that it is not taken.
pub fn create(rt: &HostRuntime, name: &mut [u8]) -> std::io::Result<File>
    ensures of_system { OfSystem result }
    ensures name_len_unchanged { length name.new ≡ length name.old }
    ensures front_unchanged { take (length name.new - 6) name.new ≡ take (length name.old - 6) name.old }
{
    for turn in 0..TRIES {
        name_by(name, chosen(rt, turn));
        match create_private(rt, name) {
            Ok(file) => return Ok(file),
            Err(e) if e.kind() == ErrorKind::AlreadyExists => {}
            Err(e) => return Err(e),
        }
    }
    Err(Error::from(ErrorKind::AlreadyExists))
}
