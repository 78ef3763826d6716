// What a lock file says: which process made it, and on which host. And what a tool says that finds one.
ghost use Rattle.std.specs.Prelude.{◌≡◌, length};
ghost use Rattle.io.specs.Counts.{IsPrefixLen};
ghost use Rattle.files.specs.System.{OfSystem, OfSystemFor};

use crate::{STDERR, open_read};
use holder::Holder;
use std::fmt::InlineText;
use std::fs::File;
use std::io::{ErrorKind, Write};
use std::os::fd::AsRawFd;
use std::{fs, process};

// The longest name that a host has, and the line feed after it.
const HOST: usize = 65;

// Where the system tells the host's name, and a line feed.
const HOSTNAME: &[u8] = b"/proc/sys/kernel/hostname";

// Room for a lock's line, which has 86 bytes at most, and for seeing that a file holds more.
const LINE: usize = 128;

// The last number that a process can have.
const LAST: u64 = 2147483647;

// The number of this process.
fn own_process(rt: &HostRuntime) -> u64
    ensures { OfSystem result }
{
    u64::from(process::id(rt.process()))
}

// Writes to a lock file which process made it, and on which host.
pub fn sign(rt: &HostRuntime, mut file: File) -> std::io::Result<()>
    ensures { OfSystem result }
{
    let mut host = [0u8; HOST];
    let h = peek(rt, HOSTNAME, &mut host);
    let mut line = [0u8; LINE];
    let n = holder::put_line(&mut line, own_process(rt), holder::up_to(&host[..h], b'\n'));
    file.write_all(&line[..n])
}

// Says something with a name in it.
fn say(words: &[u8], name: &[u8], more: &[u8])
    ensures { result ≡ tt }
{
    io::write_all(STDERR, words);
    io::write_all(STDERR, name);
    io::write_all(STDERR, more);
}

// Begins a message about a process.
fn report_process(process: u64)
    ensures { result ≡ tt }
{
    io::write_all(STDERR, b"process ");
    io::print_decimal(STDERR, process);
}

// Says that another tool holds the store, where its lock does not say which.
fn report_unknown(name: &[u8])
    ensures { result ≡ tt }
{
    say(
        b"another mazhkuri is changing this store: try again; if none is running, one was stopped: remove ",
        name,
        b"\n",
    );
}

fn report_running(process: u64, name: &[u8])
    ensures { result ≡ tt }
{
    report_process(process);
    say(
        b" is changing this store: wait until it has ended, then try again (if that is no mazhkuri, remove ",
        name,
        b")\n",
    );
}

fn report_stopped(process: u64, name: &[u8])
    ensures { result ≡ tt }
{
    report_process(process);
    say(
        b" was stopped while it was changing this store, which is whole: remove ",
        name,
        b", then try again\n",
    );
}

fn report_elsewhere(process: u64, host: &[u8], name: &[u8])
    ensures { result ≡ tt }
{
    report_process(process);
    say(b" on ", host, b" is changing this store: ");
    say(
        b"look there whether it runs; if not, remove ",
        name,
        b", then try again\n",
    );
}

// Whether the system says that there is nothing of this name.
fn is_absent(rt: &HostRuntime, name: &str) -> bool
    ensures { OfSystem result }
{
    match fs::symlink_metadata(rt, name) {
        Ok(_) => false,
        Err(e) => e.kind() == ErrorKind::NotFound,
    }
}

// Whether a process runs, as its folder below /proc tells. Where the first process has none that this one may see, it tells
// nothing of others, and the process may run.
fn runs(rt: &HostRuntime, process: u64) -> bool
    ensures { OfSystemFor process result }
{
    if LAST < process {
        return false;
    }
    let folder = InlineText::<32>::of(format_args!("/proc/{process}"));
    !is_absent(rt, folder.as_str()) || is_absent(rt, "/proc/1")
}

// The start of a file: nothing, where it cannot be read.
fn peek(rt: &HostRuntime, name: &[u8], to: &mut [u8]) -> usize
    ensures { IsPrefixLen result to.new }
{
    match open_read(rt, name) {
        Ok(file) => io::read_full(file.as_raw_fd(), to),
        Err(_) => 0,
    }
}

// Whether a lock file still has a line.
fn is_left(rt: &HostRuntime, name: &[u8], line: &[u8]) -> bool
    ensures { OfSystem result }
{
    let mut found = [0u8; LINE];
    let n = peek(rt, name, &mut found);
    words::is(&found[..n], line)
}

// Says whether the process on this host that a lock names runs. One that ended by itself had removed its
// lock before: so it was stopped only if the lock is there after it was seen not to run.
fn report_here(rt: &HostRuntime, process: u64, line: &[u8], name: &[u8])
    ensures { result ≡ tt }
{
    if runs(rt, process) {
        report_running(process, name);
        return;
    }
    if is_left(rt, name, line) {
        report_stopped(process, name);
        return;
    }
    report_unknown(name);
}

// Says who holds a store, as its lock tells, and what to do.
pub fn report(rt: &HostRuntime, name: &[u8])
    ensures { result ≡ tt }
{
    let mut host = [0u8; HOST];
    let h = peek(rt, HOSTNAME, &mut host);
    let mut line = [0u8; LINE];
    let n = peek(rt, name, &mut line);
    match holder::whose(&line[..n], holder::up_to(&host[..h], b'\n')) {
        Holder::Here(process) => report_here(rt, process, &line[..n], name),
        Holder::Elsewhere(process) => report_elsewhere(process, holder::host(&line[..n]), name),
        Holder::Unknown => report_unknown(name),
    }
}
