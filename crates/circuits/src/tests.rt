use crate::{Circuits, Next, Wrong};
use std::io;
use std::io::Read;
use std::test::Fail;

// A text that comes in pieces of some bytes each.
#[derive(Drop)]
struct Pieces<'a> {
    rest: &'a [u8],
    most: usize,
}

impl Read for Pieces<'_> {
    fn read(&mut self, buf: &mut [u8]) -> io::Result<usize> {
        let n = self.most.min(self.rest.len()).min(buf.len());
        let (now, rest) = self.rest.split_at(n);
        buf[..n].copy_from_slice(now);
        self.rest = rest;
        Ok(n)
    }
}

// How many gates a circuit has, and on which line it ends; or how the text ends.
fn put_next(out: &mut String, next: Result<Next, Wrong>, line: usize) -> io::Result<bool> {
    match next {
        Ok(Next::Circuit(listing)) => {
            let gates = listing.places.gates.len();
            write!(out, "{gates} to {line}|")?;
            return Ok(true);
        }
        Ok(Next::Nothing) => return Ok(true),
        Ok(Next::End) => {}
        Err(Wrong::Fault(fault)) => write!(out, "fault on {}", fault.line)?,
        Err(Wrong::Misread(misread)) => write!(out, "{line}: {misread}")?,
    }
    Ok(false)
}

// The same of all circuits of a text.
fn told(rt: &impl AllocGlobal, text: &[u8], most: usize) -> io::Result<String> {
    let mut circuits = Circuits::new(rt.alloc(), Pieces { rest: text, most });
    let mut out = String::new(rt.alloc());
    for _ in 0..u64::MAX {
        let next = circuits.next(rt.alloc());
        if !put_next(&mut out, next, circuits.number())? {
            break;
        }
        circuits.more()?;
    }
    Ok(out)
}

#[test]
fn reads_circuits_in_pieces(rt: HostRuntime) -> Result<(), Fail> {
    let texts: [(&[u8], &str); 5] = [
        (b"", ""),
        (
            b"circuit a # one\ngate 0 0 nor 1 2 1 2\nend\n\ncircuit\nend",
            "1 to 3|0 to 6|",
        ),
        (b"circuit\nend\ncircuit\ngate 0 0", "0 to 2|fault on 5"),
        (b"# none\ngate", "fault on 2"),
        (
            b"circuit\nend\n\0",
            "0 to 2|3: found a NUL byte, which no text has",
        ),
    ];
    for (text, want) in texts {
        for most in [1, 7, 1000] {
            let found = told(&rt, text, most)?;
            assert!(rt; found.as_str() == want, "{found}");
        }
    }
    Ok(())
}
