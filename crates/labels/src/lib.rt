// Labels (document 01, "Labels"): the lengths that a name and a value may have, and the label's bytes:
// the name's length in groups of seven bits, the name, the value.
#![tactic(auto)]

ghost use Rattle.std.specs.Prelude.{◌≡◌, ◌++◌, ◌≤◌, ◌<◌, length, drop};
ghost use Rattle.scheme.specs.Labels.{field_lengths_bad, sevens, label as label_of};
ghost use Rattle.labels.specs.Field.{field_of};

// Whether the length of a name or of a value is outside its range. [01:LB1]
#[tactic(auto, using(crate::proofs::Rules::outside_rules), unfolding(scheme::specs::Labels::field_lengths_bad))]
pub fn outside(name: &[u8], value: &[u8]) -> bool
    ensures { result ≡ field_lengths_bad (field_of name.now value.now) }
{
    if name.len() < 1 {
        return true;
    }
    if 255 < name.len() {
        return true;
    }
    1024 < value.len()
}

// Writes a number below 16,384 in groups of seven bits at the start of a slice; answers how many.
fn groups(n: usize, to: &mut [u8]) -> usize
    requires { (n < 16384) × (2 ≤ length to.old) }
    ensures { (result ≡ length (sevens n)) × (to.new ≡ sevens n ++ drop (length (sevens n)) to.old) }
{
    if n < 128 {
        to[0] = n as u8;
        return 1;
    }
    to[0] = (128 + n % 128) as u8;
    to[1] = (n / 128) as u8;
    2
}

// Writes the label at the start of a slice; answers its length. [01:LB2]
#[tactic(auto, using(crate::proofs::Laws::named, crate::proofs::Laws::labelled, crate::proofs::Laws::length_label, crate::proofs::Rules::label_rules))]
pub fn label(name: &[u8], value: &[u8], to: &mut [u8]) -> usize
    requires { (length name.now ≤ 255) × ((length value.now ≤ 1024) × (length to.old ≡ 1281)) }
    ensures { (result ≡ length (label_of (field_of name.now value.now))) × (to.new ≡ label_of (field_of name.now value.now) ++ drop (length (label_of (field_of name.now value.now))) to.old) }
{
    let n = name.len();
    let a = groups(n, to);
    octets::copy_at(to, a, name);
    octets::copy_at(to, a + n, value);
    a + n + value.len()
}
