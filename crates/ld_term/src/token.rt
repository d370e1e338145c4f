// The tokens of a line, one after the other.

ghost use Rattle.std.specs.Prelude.{◌≡◌, ℕ, ◌+◌, ◌≤◌, ◌==◌, List, [], length, drop, MatchOption};
ghost use Rattle.std.specs.List.{prefix_len};
ghost use Rattle.wb_base.specs.Names.{is_name_byte};
ghost use Rattle.ld_term.specs.Tokens.{byte_token, run_token, tokens_from};
ghost use Rattle.ld_term.specs.Held.{token_from, IsNamed, IsStart, IsPiece};

use wb_base::Name;

/// What a piece of a line is.
#[derive(Clone, Copy, Debug, PartialEq, Eq)]
pub(crate) enum Kind {
    Open,
    Close,
    Star,
    Equals,
    Variable,
    Name,
    Bad,
}

/// A piece of a line that is a token: its kind, the place of its first byte, and the place behind its last,
/// counted from 0.
#[derive(Clone, Copy, Debug)]
pub(crate) struct Piece {
    pub(crate) kind: Kind,
    pub(crate) start: usize,
    pub(crate) end: usize,
}

// Whether a byte stands in runs.
fn is_run_byte(byte: u8) -> bool
    ensures { result ≡ is_name_byte byte }
{
    byte.is_ascii_lowercase() || byte.is_ascii_digit()
}

// The kind of a byte that stands in no run.
fn kind_of_byte(byte: u8) -> Kind
    ensures token { (bytes : List ℕ) → (place : ℕ) → token_from result bytes place ≡ byte_token byte }
    ensures named { (bytes : List ℕ) → IsNamed result bytes }
{
    match byte {
        b'(' => Kind::Open,
        b')' => Kind::Close,
        b'*' => Kind::Star,
        b'=' => Kind::Equals,
        _ => Kind::Bad,
    }
}

// The kind of a run.
fn kind_of_run(run: &[u8], strict: bool) -> Kind
    ensures token { (place : ℕ) → token_from result run.now place ≡ run_token strict run.now place }
    ensures named { IsNamed result run.now }
{
    if run == b"x".as_slice() {
        Kind::Variable
    } else if !strict && Name::read(run).is_some() {
        Kind::Name
    } else {
        Kind::Bad
    }
}

// How many spaces stand in front.
fn spaces_in_front(bytes: &[u8]) -> usize
    ensures value { result ≡ prefix_len (λ byte. byte == 32) bytes.now }
    ensures within { result ≤ length bytes.now }
{
    for (i, byte) in bytes.iter().enumerate() {
        if *byte != b' ' {
            return i;
        }
    }
    bytes.len()
}

// The length of the run in front.
fn run_in_front(bytes: &[u8]) -> usize
    ensures value { result ≡ prefix_len is_name_byte bytes.now }
    ensures within { result ≤ length bytes.now }
{
    for (i, byte) in bytes.iter().enumerate() {
        if !is_run_byte(*byte) {
            return i;
        }
    }
    bytes.len()
}

// Where the next piece starts, or the line ends.
fn next_start(line: &[u8], from: usize, strict: bool) -> usize
    requires { from ≤ length line.now }
    ensures { IsStart strict line.now from result }
{
    if strict {
        return from;
    }
    let (_, rest) = line.split_at(from);
    from + spaces_in_front(rest)
}

// Where the run ends that starts here.
fn run_end(line: &[u8], start: usize) -> usize
    requires { start ≤ length line.now }
    ensures value { result ≡ start + prefix_len is_name_byte (drop start line.now) }
    ensures within { result ≤ length line.now }
{
    let (_, rest) = line.split_at(start);
    start + run_in_front(rest)
}

/// The first piece behind this place. `None` where only spaces are left.
pub(crate) fn next_piece(line: &[u8], from: usize, strict: bool) -> Option<Piece>
    requires { from ≤ length line.now }
    ensures { MatchOption result (tokens_from strict from line.now ≡ [])
        (λ p. IsPiece strict line.now from p.kind p.start p.end) }
{
    let start = next_start(line, from, strict);
    if start == line.len() {
        return None;
    }
    let byte = line[start];
    if is_run_byte(byte) {
        let end = run_end(line, start);
        let kind = kind_of_run(&line[start..end], strict);
        return Some(Piece { kind, start, end });
    }
    let kind = kind_of_byte(byte);
    Some(Piece {
        kind,
        start,
        end: start + 1,
    })
}
