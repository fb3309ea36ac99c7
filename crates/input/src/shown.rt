// Words and names as they are shown in a message.
use std::fmt;

// So many characters of a word are shown.
const SHOWN: usize = 40;

/// The name of a file, with backslashes, newlines and other control characters escaped as in a string.
#[derive(Clone, Copy)]
pub struct Escaped<'a>(pub &'a str);

// A character that moves the cursor, or the escape's own sign.
fn put_escaped<W: fmt::Write>(c: char, f: &mut fmt::Formatter<W>) -> fmt::Result {
    match c {
        '\n' => f.write_str("\\n"),
        '\t' => f.write_str("\\t"),
        '\r' => f.write_str("\\r"),
        '\\' => f.write_str("\\\\"),
        other if other.is_control() => write!(f, "\\u{{{:x}}}", other as u32),
        other => f.write_char(other),
    }
}

impl fmt::Display for Escaped<'_> {
    fn fmt<W: fmt::Write>(&self, f: &mut fmt::Formatter<W>) -> fmt::Result {
        for c in self.0.chars() {
            put_escaped(c, f)?;
        }
        Ok(())
    }
}

/// A word of a text, in backquotes: its first 40 bytes, with `...` behind them where it has more. Bytes that are not
/// printable ASCII stand as `\x` and two digits, as do backquotes and backslashes.
#[derive(Clone, Copy)]
pub struct Cut<'a>(pub &'a [u8]);

fn put_byte<W: fmt::Write>(b: u8, f: &mut fmt::Formatter<W>) -> fmt::Result {
    match b {
        b'`' | b'\\' => write!(f, "\\x{b:02x}"),
        b' '..=b'~' => f.write_char(b as char),
        _ => write!(f, "\\x{b:02x}"),
    }
}

impl fmt::Display for Cut<'_> {
    fn fmt<W: fmt::Write>(&self, f: &mut fmt::Formatter<W>) -> fmt::Result {
        f.write_char('`')?;
        for b in self.0.iter().take(SHOWN) {
            put_byte(*b, f)?;
        }
        if self.0.len() > SHOWN {
            f.write_str("...")?;
        }
        f.write_char('`')
    }
}
