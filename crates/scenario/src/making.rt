// The token makings on arguments that are read, and a hash at its limit.
ghost use Rattle.std.specs.Prelude.{◌≡◌};

use crate::write;
use answer::Refusal;

// What an array's bytes are before the call.
const LENT: u8 = 165;

fn line(r: Result<(), Refusal>, name: &[u8], bytes: &[u8])
    ensures { result ≡ tt }
{
    write::completion(r);
    write::named(name, bytes);
    write::text(b"\n");
}

// The token's length is known of an array alone.
fn line_32(r: Result<(), Refusal>, bytes: &[u8; 32])
    ensures { result ≡ tt }
{
    line(r, b"bytes", bytes);
}

fn line_96(r: Result<(), Refusal>, bytes: &[u8; 96])
    ensures { result ≡ tt }
{
    line(r, b"bytes", bytes);
}

fn line_128(r: Result<(), Refusal>, bytes: &[u8; 128])
    ensures { result ≡ tt }
{
    line(r, b"bytes", bytes);
}

fn line_173(r: Result<(), Refusal>, bytes: &[u8; 173])
    ensures { result ≡ tt }
{
    line(r, b"bytes", bytes);
}

pub fn insert_token()
    ensures { result ≡ tt }
{
    let mut key = [0u8; 64];
    let k = records::read_bytes(&mut key);
    let mut name = [0u8; 300];
    let a = records::read_bytes(&mut name);
    let mut value = [0u8; 1100];
    let b = records::read_bytes(&mut value);
    let p = records::read_number();
    let u = records::read_number();
    let mut nonce = [0u8; 64];
    let j = records::read_bytes(&mut nonce);
    let mut token = [LENT; 173];
    let r = client::insert_token(
        &key[..k],
        &name[..a],
        &value[..b],
        p,
        u,
        &nonce[..j],
        &mut token,
    );
    line_173(r, &token);
}

fn find_token(key: &[u8], name: &[u8], value: &[u8])
    ensures { result ≡ tt }
{
    let mut token = [LENT; 96];
    let r = client::find_token(key, name, value, &mut token);
    line_96(r, &token);
}

fn count_token(key: &[u8], name: &[u8], value: &[u8])
    ensures { result ≡ tt }
{
    let mut token = [LENT; 32];
    let r = client::count_token(key, name, value, &mut token);
    line_32(r, &token);
}

fn mark_token(key: &[u8], name: &[u8], value: &[u8])
    ensures { result ≡ tt }
{
    let mut token = [LENT; 32];
    let r = client::mark_token(key, name, value, &mut token);
    line_32(r, &token);
}

fn part_token(key: &[u8], name: &[u8], value: &[u8])
    ensures { result ≡ tt }
{
    let mut token = [LENT; 128];
    let r = client::part_token(key, name, value, &mut token);
    line_128(r, &token);
}

// The token of a field, by the kind of its record.
pub fn field_token(kind: u64)
    ensures { result ≡ tt }
{
    let mut key = [0u8; 64];
    let k = records::read_bytes(&mut key);
    let mut name = [0u8; 300];
    let a = records::read_bytes(&mut name);
    let mut value = [0u8; 1100];
    let b = records::read_bytes(&mut value);
    match kind {
        14 => find_token(&key[..k], &name[..a], &value[..b]),
        15 => count_token(&key[..k], &name[..a], &value[..b]),
        24 => mark_token(&key[..k], &name[..a], &value[..b]),
        _ => part_token(&key[..k], &name[..a], &value[..b]),
    }
}

pub fn compaction_token()
    ensures { result ≡ tt }
{
    let mut key = [0u8; 64];
    let k = records::read_bytes(&mut key);
    let mut token = [LENT; 32];
    let r = client::compaction_token(&key[..k], &mut token);
    line_32(r, &token);
}

// A hash.
pub fn hash()
    ensures { result ≡ tt }
{
    let mut message = [0u8; 65600];
    let n = records::read_bytes(&mut message);
    let mut digest = [LENT; 32];
    let r = sha256::hash(&message[..n], &mut digest);
    line_32(r, &digest);
}
