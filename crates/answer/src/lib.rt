// What a call answers where it is done, and what it is refused by: every call gives a `Result` of both.
// The definitions of specs/Answer.antt give each case the paper's number and values.
#![tactic(auto)]

ghost use Rattle.std.specs.Prelude.{◌≡◌};
ghost use Rattle.answer.specs.Answer.{number_of};
ghost use Rattle.answer.specs.declared.CompactionError.TheVariants.{Refused};

// One case for each number of document 01, "Refusals from the input" and "Refusals from the
// state", and of document 02. [01:RI2 RI3 RI4 RI5 RI6 RI7 RI8 RI9 RI10 RS2 RS3 RS4 RS5 RS6 RS7 RS8 RS9 RS10 RS11]
#[derive(Clone, Copy)]
pub enum Refusal {
    // 1: the key is not 32 bytes long.
    KeyLength,
    // 2: the length of the name or of the value is outside its range.
    FieldLength,
    // 3: p is above 15, or u above p.
    ShareRange,
    // 4: the nonce bytes are not as many as the call asks for.
    NonceLength,
    // 5: the id bytes are not as many as the call asks for.
    IdLength,
    // 6: the token has another length.
    TokenLength,
    // 7: p, m, c, s or r of a store to be made is out of range.
    SizeRange,
    // 8: the slice of a store to be made has another length than its sizes ask for.
    SliceLength,
    // 9: a message, a key of the keyed function or a text is above 65,536 bytes.
    TextLength,
    // 10: the header or the length is no store's.
    Header,
    // 11: a row's mark is neither 0 nor 1.
    Mark,
    // 12: the insert token's p is not the store's.
    TokenShares,
    // 13: a reading met damage.
    Damage,
    // 14: the new count would be above 4,294,967,295.
    CountRange,
    // 15: free rows of M or of V are fewer than the ids.
    EntryRows,
    // 16: no row of C is free.
    CounterRows,
    // 17: no row of S is free.
    LogRows,
    // 18: the output is shorter than the ids found, which it carries the number of.
    OutputLength(u64),
    // 19: a compaction has fewer nonces than S has used rows.
    NonceCount,
    // 20: a table is not in form. [02:W2.11]
    Form,
    // 21: free rows of R are fewer than the ids. [02:W4.28]
    LabelRows,
}

// A count, and how many rows were looked at for it. [02:W3.8]
#[derive(Clone, Copy)]
pub struct Tallied {
    pub n: u64,
    pub rows: u64,
}

// What a check counts: rows of a store that do not go together. [check:2 check:3 check:4 check:5 check:6 check:7 check:8]
#[derive(Clone, Copy)]
pub struct Faults {
    // Rows of M whose tag a row of M before them has.
    pub mm: u64,
    // Rows of C whose tag a row of C before them has.
    pub cc: u64,
    // Rows of V whose tag no row of M has.
    pub vm: u64,
    // Rows of M whose tag no row of V has.
    pub mv: u64,
    // Rows of V whose id no row of R has.
    pub vr: u64,
    // Rows of R whose id no row of V has.
    pub rv: u64,
    // The used rows of R less those of V, where there are more.
    pub excess: u64,
}

// How many anchors were written and counters freed. [01:OP13]
#[derive(Clone, Copy)]
pub struct Tally {
    pub anchors: u64,
    pub counters: u64,
}

// Why a compaction did not come to its end.
#[derive(Clone, Copy)]
pub enum CompactionError {
    Refused(Refusal),
    // 13: the CL before it stay treated. [01:RS13]
    Damage(Tally),
}

impl From<Refusal> for CompactionError {
    ghost from_gives = { λ r e. e ≡ Refused r };

    fn from(r: Refusal) -> CompactionError {
        CompactionError::Refused(r)
    }
}

impl Refusal {
    // The paper's number of a refusal.
    pub fn number(self) -> u64
        ensures { result ≡ number_of self }
    {
        match self {
            Refusal::KeyLength => 1,
            Refusal::FieldLength => 2,
            Refusal::ShareRange => 3,
            Refusal::NonceLength => 4,
            Refusal::IdLength => 5,
            Refusal::TokenLength => 6,
            Refusal::SizeRange => 7,
            Refusal::SliceLength => 8,
            Refusal::TextLength => 9,
            Refusal::Header => 10,
            Refusal::Mark => 11,
            Refusal::TokenShares => 12,
            Refusal::Damage => 13,
            Refusal::CountRange => 14,
            Refusal::EntryRows => 15,
            Refusal::CounterRows => 16,
            Refusal::LogRows => 17,
            Refusal::OutputLength(_) => 18,
            Refusal::NonceCount => 19,
            Refusal::Form => 20,
            Refusal::LabelRows => 21,
        }
    }
}
