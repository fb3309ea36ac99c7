// The arguments of a command line.
use std::env::Env;
use std::{env, fmt, io};

// An argument is looked at that is no longer than this to find the one that is not UTF-8.
const LOOKED_AT: usize = 65_536;

/// Why the arguments cannot be used.
#[derive(Clone, Copy)]
pub enum BadArguments {
    /// The one at this position, counted from 1, is not UTF-8; 0 where it is the program's name or was not found.
    NotUtf8(usize),
    /// They cannot be had.
    Unreadable(io::Error),
    /// Memory is short.
    Memory,
}

impl fmt::Display for BadArguments {
    fn fmt<W: fmt::Write>(&self, f: &mut fmt::Formatter<W>) -> fmt::Result {
        match self {
            BadArguments::NotUtf8(0) => f.write_str("an argument is not UTF-8"),
            BadArguments::NotUtf8(at) => write!(f, "argument {at} is not UTF-8"),
            BadArguments::Unreadable(e) => e.fmt(f),
            BadArguments::Memory => f.write_str("memory is short"),
        }
    }
}

// Whether the argument at a position is UTF-8; None where there is none. Not inlined, so that what it looks at is on the
// stack for no longer.
#[inline(never)]
fn is_utf8(rt: &impl Env, at: usize) -> Option<bool> {
    let mut bytes = [0; LOOKED_AT];
    match rt.arg(at, &mut bytes) {
        Ok(n) => Some(str::from_utf8(&bytes[..n]).is_ok()),
        Err(env::FillError::NotPresent) => None,
        Err(env::FillError::TooLong) => Some(true),
    }
}

// The position of the first argument that is not UTF-8, counted from 1; 0 where it is the program's name, or was not
// found.
fn first_bad(rt: &impl Env) -> usize {
    for at in 0..usize::MAX {
        match is_utf8(rt, at) {
            Some(true) => {}
            Some(false) => return at,
            None => break,
        }
    }
    0
}

/// The arguments of the command line, the program's name first.
pub fn arguments(rt: &(impl Env + AllocGlobal)) -> Result<Vec<String>, BadArguments> {
    let args = match env::args(rt) {
        Ok(args) => args,
        Err(e) if e.kind() == io::ErrorKind::InvalidData => {
            return Err(BadArguments::NotUtf8(first_bad(rt)));
        }
        Err(e) => return Err(BadArguments::Unreadable(e)),
    };
    let mut all = Vec::new(rt.alloc());
    for arg in args {
        if all.push(arg).is_err() {
            return Err(BadArguments::Memory);
        }
    }
    Ok(all)
}
