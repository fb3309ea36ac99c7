use crate::{Cut, Escaped, Feed, Misread, Next};
use std::io::Read;
use std::test::Fail;
use std::{fmt, io};

// A text that comes in pieces of some bytes each.
#[derive(Drop)]
struct Pieces<'a> {
    rest: &'a [u8],
    most: usize,
}

impl Read for Pieces<'_> {
    fn read(&mut self, buf: &mut [u8]) -> io::Result<usize> {
        let n = self.most.min(self.rest.len()).min(buf.len());
        let (now, rest) = self.rest.split_at(n);
        buf[..n].copy_from_slice(now);
        self.rest = rest;
        Ok(n)
    }
}

// The next line, or the text's end or a fault, with what was read until then.
fn after_reading<R: Read + Drop>(feed: &mut Feed<R>) -> io::Result<Result<Next, Misread>> {
    for _ in 0..u64::MAX {
        match feed.next() {
            Ok(Next::Nothing) => feed.more()?,
            other => return Ok(other),
        }
    }
    Ok(Ok(Next::Nothing))
}

// A text's lines with their numbers, each before a bar, and then how it ends.
fn told(rt: &impl AllocGlobal, text: &[u8], most: usize) -> io::Result<String> {
    let mut feed = Feed::new(rt.alloc(), Pieces { rest: text, most });
    let mut out = String::new(rt.alloc());
    for _ in 0..text.len() + 1 {
        match after_reading(&mut feed)? {
            Ok(Next::Line) => {
                let line = str::from_utf8(feed.line()).unwrap_or("?");
                write!(out, "{}:{line}|", feed.number())?;
            }
            Ok(_) => {
                write!(out, "{}", feed.number())?;
                break;
            }
            Err(e) => {
                write!(out, "{}: {e}", feed.number())?;
                break;
            }
        }
    }
    Ok(out)
}

#[test]
fn reads_lines_in_pieces(rt: HostRuntime) -> Result<(), Fail> {
    let texts: [(&[u8], &str); 12] = [
        (b"", "1"),
        (b"a b\nc\n", "1:a b|2:c|3"),
        (b"a b\nc", "1:a b|2:c|3"),
        (b"\n\n", "1:|2:|3"),
        (b"a # long comment # more\n#\n# last", "1:a |2:|3:|4"),
        (b"a\r\nb\r\n", "1:a\r|2:b\r|3"),
        (b"\xef\xbb\xbfa\n\xef\xbb\xbf", "1:a|2:\u{feff}|3"),
        (b"\xef\xbba", "1:?|2"),
        (b"\xef\xbb\xbf", "1:|2"),
        (
            b"a\n# \0 is fine here\nb\0c\n",
            "1:a|2:|3: found a NUL byte, which no text has",
        ),
        (b"\0", "1: found a NUL byte, which no text has"),
        (b"a#b\nc#d\n", "1:a|2:c|3"),
    ];
    for (text, want) in texts {
        for most in [1, 2, 3, 5, 100] {
            let got = told(&rt, text, most)?;
            assert_eq!(rt; got.as_str(), want, "in pieces of {most}");
        }
    }
    Ok(())
}

// A line of a length, behind a comment of 2 MiB.
fn long(rt: &impl AllocGlobal, n: usize) -> io::Result<Vec<u8>> {
    let mut text = vec![in rt.alloc(); b'#'; 2_097_152]?;
    text.push(b'\n')?;
    let line = vec![in rt.alloc(); b'a'; n]?;
    text.extend_from_slice(&line)?;
    text.extend_from_slice(b"# comment\nb")?;
    Ok(text)
}

#[test]
fn bounds_lines(rt: HostRuntime) -> Result<(), Fail> {
    let text = long(&rt, 1_048_576)?;
    let mut feed = Feed::new(
        rt.alloc(),
        Pieces {
            rest: &text,
            most: 100_000,
        },
    );
    for (number, length) in [(1, 0), (2, 1_048_576), (3, 1)] {
        assert!(rt; after_reading(&mut feed)? == Ok(Next::Line));
        assert_eq!(rt; (feed.number(), feed.line().len()), (number, length));
    }
    assert!(rt; after_reading(&mut feed)? == Ok(Next::End));
    let text = long(&rt, 1_048_577)?;
    let mut feed = Feed::new(
        rt.alloc(),
        Pieces {
            rest: &text,
            most: 100_000,
        },
    );
    assert!(rt; after_reading(&mut feed)? == Ok(Next::Line));
    for _ in 0..2 {
        assert!(rt; after_reading(&mut feed)? == Err(Misread::TooLong));
        assert_eq!(rt; feed.number(), 2);
    }
    Ok(())
}

#[test]
fn shows_words(rt: HostRuntime) -> Result<(), Fail> {
    let name = format!(in rt.alloc(); "{}", Escaped("a\nb\tc\r\u{1b}[0m\\é x"))?;
    assert_eq!(rt; name.as_str(), "a\\nb\\tc\\r\\u{1b}[0m\\\\é x");
    let short = format!(in rt.alloc(); "{}", Cut(b"gate\x00\xff`"))?;
    assert_eq!(rt; short.as_str(), "`gate\\x00\\xff\\x60`");
    let forty = b"0123456789012345678901234567890123456789";
    let whole = format!(in rt.alloc(); "{}", Cut(forty))?;
    assert_eq!(rt;
        whole.as_str(),
        "`0123456789012345678901234567890123456789`"
    );
    let cut = format!(in rt.alloc(); "{}", Cut(b"0123456789012345678901234567890123456789a"))?;
    assert_eq!(rt;
        cut.as_str(),
        "`0123456789012345678901234567890123456789...`"
    );
    Ok(())
}
