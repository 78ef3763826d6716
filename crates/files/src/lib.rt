// Files and randomness. No contract can speak of what is read or written: a function says of what it
// gives back its length or its range, and of an answer that the system gives, nothing (`OfSystem`).
#![tactic(auto)]

mod errors;
mod locks;
mod rights;
mod temporary;

ghost use Rattle.std.specs.Prelude.{◌≡◌, ◌≤◌, length, IfOk};
ghost use Rattle.io.specs.Counts.{IsPrefixLen};
ghost use Rattle.files.specs.System.{OfSystem, OfSystemAt, Filled};

pub use errors::report;
use modes::Rights;
use std::fs;
use std::fs::{File, OpenOptions};
use std::io::{Error, ErrorKind, Read, Write};
use std::os::fd::AsRawFd;
use std::random::RandomSource;

// The descriptor of standard error.
pub const STDERR: i32 = 2;

// The longest path that the system takes, its 0 among it.
const PATH: usize = 4096;

// Room for a path and what is put to it.
const NAME: usize = 4120;

// How many bytes of a file stand at the start of the lent slice, and whether that is all that was asked.
// A flag beside the number, and no Option: of a file that was read in part too, `filled` says that it does not fill the slice.
#[derive(Clone, Copy)]
pub struct Loaded {
    pub n: usize,
    pub whole: bool,
}

// Says that a read stopped before the file's end, and that a further one did not fail.
fn report_short(path: &[u8])
    ensures { result ≡ tt }
{
    io::write_all(STDERR, b"cannot read all of ");
    io::write_all(STDERR, path);
    io::write_all(STDERR, b": try again\n");
}

// A path as the text that std takes. One that is no UTF-8 is no name of std's.
fn text_of(path: &[u8]) -> std::io::Result<&str>
    ensures { IfOk result (λ text. text.now ≡ path.now) }
{
    match str::from_utf8(path) {
        Ok(text) => Ok(text),
        Err(_) => Err(Error::from(ErrorKind::InvalidFilename)),
    }
}

fn open_read(rt: &HostRuntime, path: &[u8]) -> std::io::Result<File>
    ensures { OfSystem result }
{
    File::open(rt, text_of(path)?)
}

// Makes a file, which must not be there.
fn create_new(rt: &HostRuntime, name: &[u8]) -> std::io::Result<File>
    ensures { OfSystem result }
{
    OpenOptions::new()
        .write(true)
        .create_new(true)
        .open(rt, text_of(name)?)
}

fn unlink(rt: &HostRuntime, name: &[u8]) -> std::io::Result<()>
    ensures { OfSystem result }
{
    fs::remove_file(rt, text_of(name)?)
}

fn rename(rt: &HostRuntime, from: &[u8], to: &[u8]) -> std::io::Result<()>
    ensures { OfSystem result }
{
    fs::rename(rt, text_of(from)?, text_of(to)?)
}

// Whether nothing is left to read: a read that fails is told from the end.
fn is_at_end(mut file: File, path: &[u8]) -> bool
    ensures { OfSystem result }
{
    let mut one = [0u8; 1];
    match file.read(&mut one) {
        Ok(0) => true,
        Ok(_) => {
            report_short(path);
            false
        }
        Err(e) => {
            report(b"read", path, e);
            false
        }
    }
}

// Reads an open file, as far as there is room.
fn read(file: File, path: &[u8], to: &mut [u8]) -> Loaded
    ensures prefix_len { IsPrefixLen result.n to.new }
    ensures filled { Filled (length to.new) result.n result.whole }
{
    let n = io::read_full(file.as_raw_fd(), to);
    let whole = n == to.len() || is_at_end(file, path);
    Loaded { n, whole }
}

// Reads a file, as far as there is room.
pub fn load(rt: &HostRuntime, path: &[u8], to: &mut [u8]) -> Loaded
    ensures prefix_len { IsPrefixLen result.n to.new }
    ensures filled { Filled (length to.new) result.n result.whole }
{
    match open_read(rt, path) {
        Ok(file) => read(file, path, to),
        Err(e) => {
            report(b"open", path, e);
            Loaded { n: 0, whole: false }
        }
    }
}

// Fills a slice with random bytes.
pub fn randomize(rt: &HostRuntime, to: &mut [u8]) -> bool
    ensures of_system { OfSystem result }
    ensures to_len_unchanged { length to.new ≡ length to.old }
{
    match rt.fill_bytes(to) {
        Ok(()) => true,
        Err(e) => {
            report(b"get random bytes from", b"the system", e);
            false
        }
    }
}

// Says that a path is longer than the system takes.
fn report_long()
    ensures { result ≡ tt }
{
    io::write_all(STDERR, b"cannot use this path: File name too long\n");
}

// Whether a path names a link: then another tool may lock the file that it leads to under its own name,
// and the file would be replaced here alone.
fn is_link(rt: &HostRuntime, path: &[u8]) -> bool
    ensures { OfSystem result }
{
    let Ok(name) = text_of(path) else {
        return false;
    };
    match fs::symlink_metadata(rt, name) {
        Ok(found) => found.is_symlink(),
        Err(_) => false,
    }
}

// Says that a link is not changed, and what to do.
fn report_link(path: &[u8])
    ensures { result ≡ tt }
{
    io::write_all(STDERR, path);
    io::write_all(
        STDERR,
        b" is a link: give the name of the file itself, so that every tool locks the same one\n",
    );
}

// Makes the lock file, which must not be there. Nothing is left behind where the answer is false.
fn make_lock(rt: &HostRuntime, name: &[u8]) -> bool
    ensures { OfSystem result }
{
    match create_new(rt, name) {
        Ok(file) => sign_or_remove(rt, file, name),
        Err(e) if e.kind() == ErrorKind::AlreadyExists => {
            locks::report(rt, name);
            false
        }
        Err(e) => {
            report(b"make", name, e);
            false
        }
    }
}

fn sign_or_remove(rt: &HostRuntime, file: File, name: &[u8]) -> bool
    ensures { OfSystem result }
{
    match locks::sign(rt, file) {
        Ok(()) => true,
        Err(e) => {
            report(b"write", name, e);
            let _ = unlink(rt, name);
            false
        }
    }
}

// Takes the store for this tool alone, by a file beside it that must not be there.
pub fn lock(rt: &HostRuntime, path: &[u8]) -> bool
    ensures { OfSystemAt path.now result }
{
    if PATH < path.len() {
        report_long();
        return false;
    }
    if is_link(rt, path) {
        report_link(path);
        return false;
    }
    let mut name = [0u8; NAME];
    let n = paths::lock_name(path, &mut name);
    make_lock(rt, &name[..n])
}

// Gives the store back.
pub fn unlock(rt: &HostRuntime, path: &[u8])
    ensures { result ≡ tt }
{
    if PATH < path.len() {
        return;
    }
    let mut name = [0u8; NAME];
    let n = paths::lock_name(path, &mut name);
    if let Err(e) = unlink(rt, &name[..n]) {
        report(b"remove", &name[..n], e);
    }
}

// Writes a file's bytes, waits until they have reached the device, and closes it.
fn put(mut file: File, bytes: &[u8], name: &[u8]) -> bool
    ensures { OfSystem result }
{
    if let Err(e) = file.write_all(bytes) {
        report(b"write", name, e);
        return false;
    }
    if let Err(e) = file.sync_all() {
        report(b"sync", name, e);
        return false;
    }
    true
}

// Makes a file under a name of its own, and gives it the other name, of another file if there is one.
fn create_renamed(rt: &HostRuntime, temporary: &mut [u8], name: &[u8]) -> std::io::Result<File>
    ensures of_system { OfSystem result }
    ensures temporary_len_unchanged { length temporary.new ≡ length temporary.old }
{
    let file = temporary::create(rt, temporary)?;
    if let Err(e) = rename(rt, temporary, name) {
        let _ = unlink(rt, temporary);
        return Err(e);
    }
    Ok(file)
}

// Makes a file that nobody but its owner can open. One that is made under its name has the umask's
// mode at first: who opens it then can read it ever after.
fn create_closed(rt: &HostRuntime, name: &[u8]) -> std::io::Result<File>
    requires { length name.now ≤ 4101 }
    ensures { OfSystem result }
{
    let mut temporary = [0u8; NAME];
    let n = paths::temporary_name(name, &mut temporary);
    create_renamed(rt, &mut temporary[..n], name)
}

fn create(rt: &HostRuntime, name: &[u8], wanted: Rights) -> std::io::Result<File>
    requires { length name.now ≤ 4101 }
    ensures { OfSystem result }
{
    if let Rights::Fresh = wanted {
        return create_new(rt, name);
    }
    create_closed(rt, name)
}

// Gives a file that was made its rights and its bytes.
fn fill(file: File, name: &[u8], bytes: &[u8], wanted: Rights) -> bool
    ensures { OfSystem result }
{
    if let Err(e) = rights::set(&file, wanted) {
        report(b"protect", name, e);
        return false;
    }
    put(file, bytes, name)
}

// Makes a file, which has its rights before it has its bytes.
fn make(rt: &HostRuntime, name: &[u8], bytes: &[u8], wanted: Rights) -> bool
    requires { length name.now ≤ 4101 }
    ensures { OfSystem result }
{
    match create(rt, name, wanted) {
        Ok(file) => {
            let made = fill(file, name, bytes, wanted);
            if !made {
                let _ = unlink(rt, name);
            }
            made
        }
        Err(e) => {
            report(b"make", name, e);
            false
        }
    }
}

// Makes a file for the owner alone under a name of its own, and gives it the other name once its bytes
// have reached the device: the other name never has other bytes.
fn make_renamed(rt: &HostRuntime, temporary: &mut [u8], name: &[u8], bytes: &[u8]) -> bool
    ensures of_system { OfSystem result }
    ensures temporary_len_unchanged { length temporary.new ≡ length temporary.old }
{
    match temporary::create(rt, temporary) {
        Ok(file) => {
            if !fill(file, name, bytes, modes::private()) {
                let _ = unlink(rt, temporary);
                return false;
            }
            if let Err(e) = rename(rt, temporary, name) {
                report(b"rename to", name, e);
                let _ = unlink(rt, temporary);
                return false;
            }
            true
        }
        Err(e) => {
            report(b"make", name, e);
            false
        }
    }
}

fn make_beside(rt: &HostRuntime, path: &[u8], bytes: &[u8]) -> bool
    requires { length path.now ≤ 4096 }
    ensures { OfSystem result }
{
    let mut temporary = [0u8; NAME];
    let n = paths::temporary_name(path, &mut temporary);
    make_renamed(rt, &mut temporary[..n], path, bytes)
}

// Makes a file for the owner alone, which must not be there. Its name is taken by an empty file first.
pub fn make_private(rt: &HostRuntime, path: &[u8], bytes: &[u8]) -> bool
    ensures { OfSystemAt path.now result }
{
    if PATH < path.len() {
        report_long();
        return false;
    }
    if let Err(e) = take_name(rt, path) {
        report(b"make", path, e);
        return false;
    }
    if !make_beside(rt, path, bytes) {
        let _ = unlink(rt, path);
        return false;
    }
    sync_folder_of(rt, path);
    true
}

// Makes an empty file, which must not be there.
fn take_name(rt: &HostRuntime, path: &[u8]) -> std::io::Result<()>
    ensures { OfSystem result }
{
    create_new(rt, path)?;
    Ok(())
}

// Waits until the change of a name has reached the device. Where that cannot be had, the change stands
// all the same, and a message says so.
fn sync_folder(rt: &HostRuntime, folder: &[u8])
    ensures { result ≡ tt }
{
    match open_read(rt, folder) {
        Ok(file) => {
            if let Err(e) = file.sync_all() {
                report(b"sync (the change is made)", folder, e);
            }
        }
        Err(e) => report(b"open, to sync it (the change is made),", folder, e),
    }
}

fn sync_folder_of(rt: &HostRuntime, path: &[u8])
    ensures { result ≡ tt }
{
    let n = paths::folder(path);
    if n == 0 {
        sync_folder(rt, b".");
        return;
    }
    sync_folder(rt, &path[..n]);
}

// Puts the file's new bytes under its name at once: whoever opens it finds the old bytes or the new,
// with the rights of the old file.
fn swap(rt: &HostRuntime, path: &[u8], name: &[u8], bytes: &[u8]) -> bool
    requires { length name.now ≤ 4101 }
    ensures { OfSystem result }
{
    let wanted = match rights::of(rt, path) {
        Ok(found) => found,
        Err(e) => {
            report(b"look at", path, e);
            return false;
        }
    };
    let _ = unlink(rt, name);
    if !make(rt, name, bytes, wanted) {
        return false;
    }
    if let Err(e) = rename(rt, name, path) {
        report(b"rename to", path, e);
        let _ = unlink(rt, name);
        return false;
    }
    sync_folder_of(rt, path);
    true
}

// Gives the store new bytes.
pub fn replace(rt: &HostRuntime, path: &[u8], bytes: &[u8]) -> bool
    ensures { OfSystemAt path.now result }
{
    if PATH < path.len() {
        report_long();
        return false;
    }
    let mut name = [0u8; NAME];
    let n = paths::new_name(path, &mut name);
    swap(rt, path, &name[..n], bytes)
}

// Whether there is nothing of that name.
pub fn is_missing(rt: &HostRuntime, path: &[u8]) -> bool
    ensures { OfSystem result }
{
    match open_read(rt, path) {
        Ok(_) => false,
        Err(e) => e.kind() == ErrorKind::NotFound,
    }
}
