// The fields of a line.
ghost use Rattle.std.specs.Prelude.{◌≡◌, ◌==◌, Some, None, MatchOption};
ghost use Rattle.std.specs.List.{position};
ghost use Rattle.wb_base.specs.Fields.{keyword_of, behind_keyword, place_at};

use crate::number::read_number;

// Where the first space stands.
fn first_space(line: &[u8]) -> Option<usize>
    ensures { result ≡ position (λ byte. byte == 32) line.now }
{
    line.iter().position(|byte| *byte == b' ')
}

/// A line's keyword, which ends at its first space (byte 32) or with the line, and what stands behind it:
/// nothing, or a space and what follows it.
pub fn split_keyword(line: &[u8]) -> (&[u8], &[u8])
    ensures keyword { result.0.now ≡ keyword_of line.now }
    ensures behind { result.1.now ≡ behind_keyword line.now }
{
    line.split_at(first_space(line).unwrap_or(line.len()))
}

/// The place of a letter that stands in front behind a space, and what follows it.
///
/// A place counts from 1 and is written as a decimal number without leading zeros, up to the greatest u32.
pub fn read_place(bytes: &[u8]) -> Option<(u32, &[u8])>
    ensures { MatchOption result (place_at bytes.now ≡ None) (λ x. place_at bytes.now ≡ Some (x.0, x.1.now)) }
{
    let [b' ', bytes @ ..] = bytes else {
        return None;
    };
    let (value, digits) = read_number(bytes)?;
    if 0 < value && value <= u64::from(u32::MAX) {
        Some((value as u32, &bytes[digits..]))
    } else {
        None
    }
}
