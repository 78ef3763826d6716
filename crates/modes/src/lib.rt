// The rights of a file: those for its owner alone, and those that a file may take over from another.
#![tactic(auto)]

ghost use Rattle.std.specs.Prelude.{◌≡◌};
ghost use Rattle.modes.specs.Modes.{mode_of, private_rights};

// For an owner or a group: as it is.
pub const SAME: u32 = 0xffff_ffff;

// What a file is to have: what a new file gets by itself, or this mode, owner and group.
#[derive(Clone, Copy, Debug, PartialEq, Eq)]
pub enum Rights {
    Fresh,
    Of { mode: u32, owner: u32, group: u32 },
    Unknown,
}

// How far a file could be given to an owner and a group.
#[derive(Clone, Copy, Debug, PartialEq, Eq)]
pub enum Given {
    Both,
    Group,
    Nothing,
}

// Those of a file for its maker alone.
pub fn private() -> Rights
    ensures { result ≡ private_rights }
{
    Rights::Of {
        mode: 0o600,
        owner: SAME,
        group: SAME,
    }
}

// The mode of a file that was given so far. With another owner the set-id bits go; with another group
// too, all go but the owner's, since one who was of the old group may be of the new one or of neither.
pub fn narrowed(mode: u32, given: Given) -> u32
    ensures { result ≡ mode_of given mode }
{
    match given {
        Given::Both => mode & 0o7777,
        Given::Group => mode & 0o777,
        Given::Nothing => mode & 0o700,
    }
}
