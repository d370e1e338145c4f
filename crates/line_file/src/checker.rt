// A checker holds what is due, the bytes of a line that isn't ended, and no other bytes.
ghost use Rattle.std.specs.Prelude.{◌≡◌, ◌≤◌, ◌++◌, ◌∷◌, List, ℕ, [], Some, IfOk, OnOk, MatchOption};
ghost use Rattle.wb_base.specs.Lines.{cut};
ghost use Rattle.line_file.specs.Formats.{kept_line, checked_of};
ghost use Rattle.line_file.specs.Pieces.{Held, is_reading, was_refused, held_behind, held_of, held_from, onto_front, fed, finished, length_held, Comes, StandsFor};
ghost use Rattle.line_file.specs.Keeping.{Keeps, told, Ends};
ghost use Rattle.line_file.specs.CheckerView.{held_in};

use crate::format::{FileErr, LineFormat, Stop};
use std::alloc::{AllocError, Global};
use std::marker::Model;
use std::mem;

// What a checker holds.
#[derive(Drop)]
enum Kept<F: LineFormat> {
    // The number of the line that is due, what is due, and what was read of the line.
    Reading { line: u64, due: F, rest: Vec<u8> },
    // The first line that is refused, and why.
    Refused { line: u64, why: F::Why },
    // Memory ran out.
    Memory,
}

/// A check of a file whose bytes come in pieces. What it holds of them is the same however they are cut.
#[derive(Drop)]
pub struct Checker<F: LineFormat> {
    alloc: Global,
    kept: Kept<F>,
}

// The first whole line, and what follows its LF.
fn first_line(bytes: &[u8]) -> Option<(&[u8], &[u8])>
    ensures { MatchOption result
        (cut bytes.now ≡ ([], bytes.now))
        (λ r. cut bytes.now ≡ (r.0.now ∷ (cut r.1.now).0, (cut r.1.now).1)) }
{
    for (i, byte) in bytes.iter().enumerate() {
        if *byte == b'\n' {
            return Some((&bytes[..i], &bytes[i + 1..]));
        }
    }
    None
}

// What is due after a line that begins with the bytes held, which are let go, and ends with these.
fn end_line<F: LineFormat>(
    alloc: Global,
    due: F,
    rest: &mut Vec<u8>,
    end: &[u8],
) -> Result<F, Stop<F::Why>>
    ensures kept { Keeps result (kept_line F.format due (rest.old.items ++ end.now)) }
    ensures empty { OnOk result (rest.new.items ≡ []) }
{
    if due.is_passed() {
        return Err(Stop::Refused(F::extra()));
    }
    if rest.len() + end.len() > F::most() as usize {
        return Err(Stop::Refused(F::long()));
    }
    if rest.is_empty() {
        return due.keep(alloc, end);
    }
    rest.extend_from_slice(end)?;
    let next = due.keep(alloc, rest)?;
    rest.clear();
    Ok(next)
}

// What is held where all lines were kept, of the bytes held and these behind them.
fn hold<F: LineFormat>(alloc: Global, line: u64, due: F, mut rest: Vec<u8>, end: &[u8]) -> Kept<F>
    ensures { Comes (held_in result)
        (held_behind F.format (F.format.passed due) line due (rest.items ++ end.now)) }
{
    if due.is_passed() {
        if rest.is_empty() && end.is_empty() {
            return Kept::Reading { line, due, rest };
        }
        return Kept::Refused {
            line,
            why: F::extra(),
        };
    }
    if rest.len() + end.len() > F::most() as usize {
        return Kept::Refused {
            line,
            why: F::long(),
        };
    }
    match rest.extend_from_slice(end) {
        Ok(()) => Kept::Reading { line, due, rest },
        Err(AllocError) => Kept::Memory,
    }
}

// Reads a piece on from what is held of a line.
fn read_on<F: LineFormat>(alloc: Global, line: u64, due: F, rest: Vec<u8>, piece: &[u8]) -> Kept<F>
    ensures { Comes (held_in result) (fed F.format (is_reading line due rest.items) piece.now) }
{
    let mut number = line;
    let mut now = due;
    let mut held = rest;
    let mut left = piece;
    while let Some((end, behind)) = first_line(left) {
        now = match end_line(alloc, now, &mut held, end) {
            Ok(next) => next,
            Err(Stop::Refused(why)) => return Kept::Refused { line: number, why },
            Err(Stop::Memory) => return Kept::Memory,
        };
        number = number.saturating_add(1);
        left = behind;
    }
    hold(alloc, number, now, held, left)
}

// What a checker holds after a piece.
fn feed<F: LineFormat>(alloc: Global, kept: Kept<F>, piece: &[u8]) -> Kept<F>
    ensures held { Comes (held_in result) (fed F.format (held_in kept) piece.now) }
    ensures refused { (line : ℕ) → (why : F.Why) → held_in kept ≡ was_refused line why
        → held_in result ≡ held_in kept }
{
    match kept {
        Kept::Reading { line, due, rest } => read_on(alloc, line, due, rest, piece),
        Kept::Refused { line, why } => Kept::Refused { line, why },
        Kept::Memory => Kept::Memory,
    }
}

// What a checker answers that holds this.
fn tell<F: LineFormat>(kept: &Kept<F>) -> Result<(), FileErr<F::Why>>
    ensures { result ≡ told (held_in kept.now) }
{
    match kept {
        Kept::Reading { .. } => Ok(()),
        Kept::Refused { line, why } => Err(FileErr::Refused {
            line: *line,
            why: *why,
        }),
        Kept::Memory => Err(FileErr::Memory),
    }
}

// What the file claims whose last bytes without LF are these, or why it may not end so.
fn end_reading<F: LineFormat>(line: u64, due: F, rest: &[u8]) -> Result<F::Claim, FileErr<F::Why>>
    ensures { Ends result (finished F.format (is_reading line due rest.now)) }
{
    let long = rest.len() > F::most() as usize;
    match due.claim() {
        Some(claim) if rest.is_empty() => Ok(claim),
        Some(_) => Err(FileErr::Refused {
            line,
            why: F::extra(),
        }),
        None if long => Err(FileErr::Refused {
            line,
            why: F::long(),
        }),
        None => Err(FileErr::Refused {
            line,
            why: F::truncated(),
        }),
    }
}

// What the file claims of which this is held at its end, or its first refusal.
fn end<F: LineFormat>(kept: Kept<F>) -> Result<F::Claim, FileErr<F::Why>>
    ensures { Ends result (finished F.format (held_in kept)) }
{
    match kept {
        Kept::Reading { line, due, rest } => end_reading(line, due, &rest),
        Kept::Refused { line, why } => Err(FileErr::Refused { line, why }),
        Kept::Memory => Err(FileErr::Memory),
    }
}

impl<F: LineFormat> Model for Checker<F> {
    ghost use Rattle.std.specs.Prelude.{◌≤◌};
    ghost use Rattle.line_file.specs.Pieces.{Held, length_held};
    ghost use Rattle.line_file.specs.CheckerView.{held_in};

    ghost Value = { Held F F.Why };

    ghost view = { λ c. held_in c.kept };

    ghost invariant = { λ c. length_held (held_in c.kept) ≤ F.format.most };
}

impl<F: LineFormat> Checker<F> {
    /// A checker that hasn't read any byte.
    pub fn begin(alloc: Global) -> Result<Checker<F>, AllocError>
        ensures { IfOk result (λ c. StandsFor F.format c []) }
    {
        Ok(Checker {
            alloc,
            kept: Kept::Reading {
                line: 1,
                due: F::start(alloc)?,
                rest: Vec::new(alloc),
            },
        })
    }

    /// Reads the next bytes. It answers the file's first refusal as soon as that is early: of a whole line,
    /// of more bytes than a line may have, or of a byte behind the last line. A refusal stays, whatever
    /// follows, and so does want of memory: each is answered again.
    pub fn feed(&mut self, piece: &[u8]) -> Result<(), FileErr<F::Why>>
        // However the bytes come, what is held is what is held of all of them.
        ensures stands { (bytes : List ℕ) → StandsFor F.format self.old bytes
            → Comes self.new (held_of F.format (bytes ++ piece.now)) }
        ensures held { Comes self.new (fed F.format self.old piece.now) }
        ensures told { result ≡ told self.new }
        ensures refused { (line : ℕ) → (why : F.Why) → self.old ≡ Held.was_refused line why
            → self.new ≡ self.old }
        ensures out { self.old ≡ Held.ran_out → self.new ≡ Held.ran_out }
    {
        let kept = mem::replace(&mut self.kept, Kept::Memory);
        self.kept = feed(self.alloc, kept, piece);
        tell(&self.kept)
    }

    /// What the file claims that ends here, or its first refusal.
    pub fn finish(self) -> Result<F::Claim, FileErr<F::Why>>
        ensures held { Ends result (finished F.format self) }
        ensures file { (bytes : List ℕ) → StandsFor F.format self bytes
            → Ends result (Some (checked_of F.format bytes)) }
    {
        end(self.kept)
    }

    /// How many bytes it holds of a line that isn't ended: at most as many as a line may have.
    pub fn held(&self) -> usize
        ensures value { result ≡ length_held self.now }
        ensures within { length_held self.now ≤ F.format.most }
    {
        match &self.kept {
            Kept::Reading { rest, .. } => rest.len(),
            Kept::Refused { .. } | Kept::Memory => 0,
        }
    }
}
