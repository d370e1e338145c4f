ghost use Rattle.std.specs.Prelude.{◌≡◌, ◌<◌, ◌∷◌, length};
ghost use Rattle.std.specs.Iterator.{YieldsFirstRef, item_count};
ghost use Rattle.wb_base.specs.Lines.{lines_of};

use std::marker::Model;

/// The lines of some bytes, from the first to the last.
#[derive(Debug, Drop)]
pub struct LineIter<'a> {
    rest: &'a [u8],
}

impl<'a> Model for LineIter<'a> {
    ghost use Rattle.std.specs.Prelude.{List, ℕ};
    ghost use Rattle.wb_base.specs.Lines.{lines_of};

    ghost Value = { List (List ℕ) };

    ghost view = { λ s. lines_of s.rest.now };
}

impl<'a> Iterator for LineIter<'a> {
    type Item = &'a [u8];

    ghost next_gives = { YieldsFirstRef (λ s. s) };

    ghost remaining = { item_count (λ s. s) };

    fn next(&mut self) -> Option<&'a [u8]> {
        let rest = self.rest;
        if rest.is_empty() {
            return None;
        }
        let (line, rest) = split_line(rest);
        self.rest = rest;
        Some(line)
    }
}

// The first line, and what follows its LF.
fn split_line(bytes: &[u8]) -> (&[u8], &[u8])
    requires { 0 < length bytes.now }
    ensures { lines_of bytes.now ≡ result.0.now ∷ lines_of result.1.now }
{
    for (i, byte) in bytes.iter().enumerate() {
        if *byte == b'\n' {
            return (&bytes[..i], &bytes[i + 1..]);
        }
    }
    (bytes, &[])
}

/// The lines of some bytes, without their LF.
///
/// They are the pieces between bytes LF, without a last piece that is empty.
pub fn lines(bytes: &[u8]) -> LineIter<'_>
    ensures { result ≡ lines_of bytes.now }
{
    LineIter { rest: bytes }
}

/// How many lines some bytes have.
pub fn count_lines(bytes: &[u8]) -> usize
    ensures { result ≡ length (lines_of bytes.now) }
{
    lines(bytes).count()
}
