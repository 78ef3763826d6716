// Owner, group and mode: what a file made anew takes over from the one that it replaces.
ghost use Rattle.std.specs.Prelude.{◌≡◌};
ghost use Rattle.files.specs.System.{OfSystem};

use crate::open_read;
use modes::{Given, Rights};
use std::fs::{File, Permissions};
use std::io::{Error, ErrorKind};
use std::os::unix::fs::{MetadataExt, PermissionsExt, fchown};

// The rights of an open file.
fn of_open(file: &File) -> std::io::Result<Rights>
    ensures { OfSystem result }
{
    let found = file.metadata()?;
    Ok(Rights::Of {
        mode: found.mode(),
        owner: found.uid(),
        group: found.gid(),
    })
}

// The rights of the file of that name, and those of a fresh one where there is none.
pub fn of(rt: &HostRuntime, path: &[u8]) -> std::io::Result<Rights>
    ensures { OfSystem result }
{
    match open_read(rt, path) {
        Ok(file) => of_open(&file),
        Err(e) if e.kind() == ErrorKind::NotFound => Ok(Rights::Fresh),
        Err(e) => Err(e),
    }
}

// Gives a file to an owner and a group, to the group alone where the system refuses the owner.
fn give(file: &File, owner: u32, group: u32) -> Given
    ensures { OfSystem result }
{
    if fchown(file, Some(owner), Some(group)).is_ok() {
        return Given::Both;
    }
    if fchown(file, None, Some(group)).is_ok() {
        return Given::Group;
    }
    Given::Nothing
}

// Sets the rights of an open file.
pub fn set(file: &File, wanted: Rights) -> std::io::Result<()>
    ensures { OfSystem result }
{
    match wanted {
        Rights::Fresh => Ok(()),
        Rights::Unknown => Err(Error::from(ErrorKind::Other)),
        Rights::Of { mode, owner, group } => {
            let bits = modes::narrowed(mode, give(file, owner, group));
            file.set_permissions(Permissions::from_mode(bits))
        }
    }
}
