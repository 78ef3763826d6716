// What became of a command of the tool, made of the library's answers: a refusal goes with the room that the store had,
// and a compaction may have been made with another key than the store's.
#![tactic(auto)]

ghost use Rattle.std.specs.Prelude.{◌≡◌, List, [], ◌∷◌, ℕ, IfOk};
ghost use Rattle.answer.specs.Answer.{done, answered, faults_of, totals_of, compaction_answer};
ghost use Rattle.outcome.specs.Told.{told, is_wrong_key, compacted, with_room};

use advice::Room;
use answer::{CompactionError, Faults, Refusal, Tallied, Tally};

// What became of a command.
#[derive(Clone, Copy)]
pub enum Outcome {
    Number(u64),
    // A count, and the rows that were looked at for it. [02:W3.8]
    Counted { n: u64, rows: u64 },
    // What a check counted. [check:12]
    Inspected(Faults),
    Compacted(Tally),
    // 13 in a compaction, with what had been done.
    Damaged(Tally),
    // A compaction that found none of the logged counters.
    WrongKey(Tally),
    // The refusal, and the room that the store had.
    Refused(Refusal, Room),
    Done,
    // No command: the words ask for none.
    BadWords,
}

// What a call gives where it is done: its values, and the outcome that tells them.
pub trait Told {
    ghost values: { Self → List ℕ };

    // The outcome, where the store had this room.
    fn outcome(self, room: Room) -> Outcome
        ensures result_value { told result ≡ done (values self) }
        ensures value { result ≡ with_room room result };
}

impl Told for () {
    ghost values = { λ u. [] };

    fn outcome(self, _room: Room) -> Outcome {
        Outcome::Done
    }
}

impl Told for u64 {
    ghost values = { λ n. n ∷ [] };

    fn outcome(self, _room: Room) -> Outcome {
        Outcome::Number(self)
    }
}

impl Told for Tallied {
    ghost values = { λ t. t.n ∷ t.rows ∷ [] };

    fn outcome(self, _room: Room) -> Outcome {
        Outcome::Counted {
            n: self.n,
            rows: self.rows,
        }
    }
}

impl Told for Faults {
    ghost values = { faults_of };

    fn outcome(self, _room: Room) -> Outcome {
        Outcome::Inspected(self)
    }
}

// Whether a compaction found none of the logged counters: then the key is not the store's.
fn is_wrong_key(logged: usize, t: Tally) -> bool
    ensures { result ≡ is_wrong_key logged t.anchors }
{
    if logged < 1 {
        return false;
    }
    t.anchors < 1
}

impl Told for Tally {
    ghost values = { totals_of };

    // A compaction: the wrong key's where rows were logged and no anchor was written.
    fn outcome(self, room: Room) -> Outcome
        ensures result_value { told result ≡ done (totals_of self) }
        ensures value { result ≡ with_room room result }
        ensures compaction { result ≡ compacted room.logged self }
    {
        if is_wrong_key(room.logged, self) {
            Outcome::WrongKey(self)
        } else {
            Outcome::Compacted(self)
        }
    }
}

// The outcome of a call on a store that had this room.
pub fn of<T: Told>(r: Result<T, Refusal>, room: Room) -> Outcome
    ensures result_value { told result ≡ answered T.values r }
    ensures value { result ≡ with_room room result }
{
    match r {
        Ok(x) => x.outcome(room),
        Err(why) => Outcome::Refused(why, room),
    }
}

pub fn of_compaction(r: Result<Tally, CompactionError>, room: Room) -> Outcome
    ensures result_value { told result ≡ compaction_answer r }
    ensures value { result ≡ with_room room result }
    ensures compaction { IfOk r (λ t. result ≡ compacted room.logged t) }
{
    match r {
        Ok(t) => t.outcome(room),
        Err(CompactionError::Damage(t)) => Outcome::Damaged(t),
        Err(CompactionError::Refused(why)) => Outcome::Refused(why, room),
    }
}
