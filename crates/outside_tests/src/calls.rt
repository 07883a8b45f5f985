//! Calls of a machine and of a cabinet as rows of a table.
use std::alloc::Global;
use std::process::Abort;
use urna_outside::{Cabinet, CabinetError, Dev, Failed, Machine};

#[derive(Clone, Copy)]
pub(crate) enum Call<'a> {
    // Of so many bytes from a place on, which are these where it ends well.
    Read(Dev, u32, &'a [u8]),
    Write(Dev, u32, &'a [u8]),
    Sync(Dev),
    Show(&'a [u8]),
}

/// A read that fails leaves what was there.
fn read<M: Machine>(
    rt: &impl Abort,
    m: &mut M,
    dev: Dev,
    at: u32,
    bytes: &[u8],
) -> Result<(), Failed> {
    let len = bytes.len();
    let before = [99; 16];
    let mut into = before;
    assert!(rt; len <= 16);
    assert!(rt; u64::from(at) + len as u64 <= u64::from(m.size(dev)));
    let answer = m.read(dev, at, &mut into[..len]);
    let wanted = if answer.is_ok() {
        bytes
    } else {
        &before[..len]
    };
    assert!(rt; &into[..len] == wanted, "at {at}");
    answer
}

fn write<M: Machine>(
    rt: &impl Abort,
    m: &mut M,
    dev: Dev,
    at: u32,
    bytes: &[u8],
) -> Result<(), Failed> {
    assert!(rt; bytes.len() <= 16);
    assert!(rt; u64::from(at) + bytes.len() as u64 <= u64::from(m.size(dev)));
    m.write(dev, at, bytes)
}

fn make<M: Machine>(rt: &impl Abort, m: &mut M, call: Call<'_>) -> Result<(), Failed> {
    match call {
        Call::Read(dev, at, bytes) => read(rt, m, dev, at, bytes),
        Call::Write(dev, at, bytes) => write(rt, m, dev, at, bytes),
        Call::Sync(dev) => m.sync(dev),
        Call::Show(bytes) => m.show(bytes),
    }
}

/// Makes one call after the other. Each ends well or not, as its row says.
pub(crate) fn make_all<M: Machine>(rt: &impl Abort, m: &mut M, calls: &[(Call<'_>, bool)]) {
    for place in 0..calls.len() {
        let (call, is_ok) = calls[place];
        let answer = make(rt, m, call);
        assert!(rt; answer.is_ok() == is_ok, "call {place}");
    }
}

/// What is taken: a file's bytes, or why it isn't.
fn check_take<C: Cabinet>(
    rt: &impl Abort,
    alloc: Global,
    cabinet: &mut C,
    name: &str,
    limit: u32,
    taken: Result<&[u8], CabinetError>,
) {
    let is_right = match (cabinet.take(alloc, name, limit), taken) {
        (Ok(bytes), Ok(wanted)) => bytes.as_slice() == wanted,
        (Err(error), Err(wanted)) => error == wanted,
        _ => false,
    };
    assert!(rt; is_right, "at {name} {limit}");
}

/// Puts a file, which ends well or not.
fn check_put<C: Cabinet>(rt: &impl Abort, cabinet: &mut C, name: &str, bytes: &[u8], is_ok: bool) {
    let answer = cabinet.put(name, bytes);
    assert!(rt; answer.is_ok() == is_ok, "at {name}");
}

/// A call of a cabinet, and what comes of it.
#[derive(Clone, Copy)]
pub(crate) enum FileCall<'a> {
    // Up to a limit: a file's bytes, or why it isn't taken.
    Take(&'a str, u32, Result<&'a [u8], CabinetError>),
    // Of these bytes, which ends well or not.
    Put(&'a str, &'a [u8], bool),
}

/// Makes one after the other.
pub(crate) fn make_file_calls<C: Cabinet>(
    rt: &impl Abort,
    alloc: Global,
    cabinet: &mut C,
    calls: &[FileCall<'_>],
) {
    for call in calls {
        match *call {
            FileCall::Take(name, limit, taken) => {
                check_take(rt, alloc, cabinet, name, limit, taken)
            }
            FileCall::Put(name, bytes, is_ok) => check_put(rt, cabinet, name, bytes, is_ok),
        }
    }
}
