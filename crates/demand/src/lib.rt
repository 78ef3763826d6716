// What a request of the command line needs of the system, and whether the store's file is written after it.
#![tactic(auto)]

ghost use Rattle.std.specs.Prelude.{◌≡◌, ◌≤◌};
ghost use Rattle.request.specs.Request.{Bounded};
ghost use Rattle.demand.specs.Needs.{needs_of, takes_key, takes_token, random_of};
ghost use Rattle.demand.specs.Needs.{made as Needs·made, changes as Needs·changes};

use outcome::Outcome;
use request::Request;

// What a request needs of the system.
#[derive(Clone, Copy)]
pub enum Needs {
    Words,
    // A key file that must not be there.
    KeyFile,
    // A key file that is read, and no store.
    KeyAlone,
    Store,
    // A store that no other tool changes meanwhile.
    Lock,
    // A store of so many bytes that must not be there.
    NewStore(usize),
}

pub fn needed(q: Request) -> Needs
    ensures { result ≡ needs_of q }
{
    match q {
        Request::Help(_) => Needs::Words,
        Request::Misused(_) => Needs::Words,
        Request::NotNumber(_) => Needs::Words,
        Request::NotId(_) => Needs::Words,
        Request::New { p: _, m, c, s, r } => Needs::NewStore(advice::length(m, c, s, r)),
        Request::Key => Needs::KeyFile,
        Request::Insert { u: _, n: _ } => Needs::Lock,
        Request::Find { pairs: _ } => Needs::Store,
        Request::Count { rows: _ } => Needs::Store,
        Request::Erase => Needs::Lock,
        Request::Compact => Needs::Lock,
        Request::Order => Needs::Lock,
        Request::Show => Needs::Store,
        Request::Check => Needs::Store,
        Request::InsertToken { p: _, u: _ } => Needs::KeyAlone,
        Request::FindToken => Needs::KeyAlone,
        Request::CountToken => Needs::KeyAlone,
        Request::CompactionToken => Needs::KeyAlone,
        Request::InsertBy { n: _ } => Needs::Lock,
        Request::FindBy => Needs::Store,
        Request::CountBy { rows: _ } => Needs::Store,
        Request::CompactBy => Needs::Lock,
    }
}

// Whether a request takes the bytes of a key file.
pub fn takes_key(q: Request) -> bool
    ensures { result ≡ takes_key q }
{
    match q {
        Request::Insert { u: _, n: _ } => true,
        Request::Find { pairs: _ } => true,
        Request::Count { rows: _ } => true,
        Request::Compact => true,
        Request::InsertToken { p: _, u: _ } => true,
        Request::FindToken => true,
        Request::CountToken => true,
        Request::CompactionToken => true,
        _ => false,
    }
}

// Whether a request takes a token, of which its word 3 tells.
pub fn takes_token(q: Request) -> bool
    ensures { result ≡ takes_token q }
{
    match q {
        Request::InsertBy { n: _ } => true,
        Request::FindBy => true,
        Request::CountBy { rows: _ } => true,
        Request::CompactBy => true,
        _ => false,
    }
}

// How many random bytes a request takes.
pub fn random_for(q: Request, store: &[u8]) -> usize
    requires { Bounded q }
    ensures { (result ≡ random_of q store.now) × (result ≤ 49152) }
{
    match q {
        Request::Insert { u: _, n } => 12 * (2 * n + 2),
        Request::Compact => 12 * advice::room_in(store).logged,
        Request::InsertToken { p: _, u: _ } => 12,
        Request::InsertBy { n } => 12 * (2 * n + 1),
        Request::CompactBy => 12 * advice::room_in(store).logged,
        _ => 0,
    }
}

fn made(o: Outcome) -> bool
    ensures { result ≡ Needs·made o }
{
    match o {
        Outcome::Number(_) => true,
        Outcome::Counted { n: _, rows: _ } => true,
        Outcome::Inspected(_) => true,
        Outcome::Compacted(_) => true,
        Outcome::Damaged(_) => true,
        Outcome::WrongKey(_) => false,
        Outcome::Refused(_, _) => false,
        Outcome::Done => true,
        Outcome::BadWords => false,
    }
}

// Whether the store's file gets the bytes after a run with this outcome.
pub fn changes(q: Request, o: Outcome) -> bool
    ensures { result ≡ Needs·changes q o }
{
    let wrote = made(o);
    match q {
        Request::New {
            p: _,
            m: _,
            c: _,
            s: _,
            r: _,
        } => wrote,
        Request::Insert { u: _, n: _ } => wrote,
        Request::Erase => wrote,
        Request::Compact => wrote,
        Request::Order => wrote,
        Request::InsertBy { n: _ } => wrote,
        Request::CompactBy => wrote,
        _ => false,
    }
}
