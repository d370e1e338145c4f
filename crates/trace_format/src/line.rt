// The lines of a trace file, each by itself.
ghost use Rattle.std.specs.Prelude.{◌≡◌, ◌≤◌, Ok, IfOk};
ghost use Rattle.std.specs.Bool.{Decides};
ghost use Rattle.ld_term.specs.Written.{written_height, HasNoName};
ghost use Rattle.ld_term.specs.TreeTexts.{written};
ghost use Rattle.wb_base.specs.Fields.{place_at};
ghost use Rattle.braid_word.specs.Notation.{field_word};
ghost use Rattle.trace_format.specs.TraceLines.{Gives, Reads, ReadsTerm, strict_result, keyword_by, kind_named, kind_of, field_term, only_place, two_places, only_letter, place_and_letter, verdict_by, line_of, line_text, IsLine};
ghost use Rattle.trace_format.specs.Said.{Said as Says, said_by, IsNameless};

use crate::verdict::Verdict;
use braid_word::{Letter, MAX_INDEX, Word, WordErr, read_strict_word, read_word_field};
use ld_term::{TermErr, Tree, read_strict};
use std::alloc::Global;
use thiserror::Error;
use wb_base::{read_place, split_keyword};

/// A step of a trace file, with places counted from 1 in the word before it.
#[derive(Clone, Copy, Debug, PartialEq, Eq)]
pub enum StepLine {
    /// The letters at these two places are a handle, and are reduced.
    Handle(u32, u32),
    /// The letters at this place and the next commute, and change places.
    Commute(u32),
    /// The letters at this place and the next two are one side of a braid relation, and become the other.
    Swap(u32),
    /// The letters at this place and the next are inverse to each other, and go.
    Delete(u32),
    /// This letter, and behind it its inverse, come to stand at this place and the next.
    Insert(u32, Letter),
}

/// The first word of a line.
#[derive(Clone, Copy, Debug, PartialEq, Eq)]
pub enum Keyword {
    /// `braid-trace`
    Start,
    /// `left`
    Left,
    /// `right`
    Right,
    /// `left-term`
    LeftTerm,
    /// `right-term`
    RightTerm,
    /// `h`
    Handle,
    /// `c`
    Commute,
    /// `s`
    Swap,
    /// `d`
    Delete,
    /// `i`
    Insert,
    /// `verdict`
    Verdict,
    /// `witness`
    Witness,
    /// `end`
    Finish,
}

/// What a line is, by its keyword.
#[derive(Clone, Copy, Debug, PartialEq, Eq)]
pub enum Kind {
    /// `braid-trace`, the first line.
    Start,
    /// `left`, with the left word.
    Left,
    /// `right`, with the right word.
    Right,
    /// `left-term`, with the left term.
    LeftTerm,
    /// `right-term`, with the right term.
    RightTerm,
    /// `h`, `c`, `s`, `d` or `i`, with a step.
    Step,
    /// `verdict`, with the verdict.
    Verdict,
    /// `witness`, with the witness.
    Witness,
    /// `end`, the last line.
    Finish,
}

/// What a line says.
#[derive(Debug, Drop)]
pub enum Line {
    /// A trace file of version 1 begins.
    Start,
    /// The left word.
    Left(Word),
    /// The right word.
    Right(Word),
    /// The left term.
    LeftTerm(Tree),
    /// The right term.
    RightTerm(Tree),
    /// A step.
    Step(StepLine),
    /// The verdict.
    Verdict(Verdict),
    /// The witness.
    Witness(Word),
    /// The file ends.
    Finish,
}

/// Why a line says nothing.
#[derive(Debug, Drop, Error)]
pub enum LineErr {
    /// Its first word is no keyword.
    #[error("no keyword")]
    Unknown,
    /// What follows the keyword hasn't the form of such a line.
    #[error("not of the form")]
    Form,
    /// A word has more than 100,000 letters, and each of them can be read; or a term has more than 100,000
    /// products or a height above 255.
    #[error("too long")]
    Long,
    /// Memory ran out.
    #[error("out of memory")]
    Memory,
}

// The keyword that the first word of a line is.
fn keyword_by(word: &[u8]) -> Option<Keyword>
    ensures { result ≡ keyword_by word.now }
{
    if word == b"h".as_slice() {
        Some(Keyword::Handle)
    } else if word == b"c".as_slice() {
        Some(Keyword::Commute)
    } else if word == b"s".as_slice() {
        Some(Keyword::Swap)
    } else if word == b"d".as_slice() {
        Some(Keyword::Delete)
    } else if word == b"i".as_slice() {
        Some(Keyword::Insert)
    } else if word == b"braid-trace".as_slice() {
        Some(Keyword::Start)
    } else if word == b"left".as_slice() {
        Some(Keyword::Left)
    } else if word == b"right".as_slice() {
        Some(Keyword::Right)
    } else if word == b"left-term".as_slice() {
        Some(Keyword::LeftTerm)
    } else if word == b"right-term".as_slice() {
        Some(Keyword::RightTerm)
    } else if word == b"verdict".as_slice() {
        Some(Keyword::Verdict)
    } else if word == b"witness".as_slice() {
        Some(Keyword::Witness)
    } else if word == b"end".as_slice() {
        Some(Keyword::Finish)
    } else {
        None
    }
}

// The kind of line that a keyword names.
fn kind_named(word: Keyword) -> Kind
    ensures { result ≡ kind_named word }
{
    match word {
        Keyword::Start => Kind::Start,
        Keyword::Left => Kind::Left,
        Keyword::Right => Kind::Right,
        Keyword::LeftTerm => Kind::LeftTerm,
        Keyword::RightTerm => Kind::RightTerm,
        Keyword::Handle | Keyword::Commute | Keyword::Swap | Keyword::Delete | Keyword::Insert =>
            Kind::Step,
        Keyword::Verdict => Kind::Verdict,
        Keyword::Witness => Kind::Witness,
        Keyword::Finish => Kind::Finish,
    }
}

/// What a line is, by its keyword, which ends at its first space (byte 32) or with the line.
///
/// `None` where that is none of `braid-trace`, `left`, `right`, `left-term`, `right-term`, `h`, `c`, `s`,
/// `d`, `i`, `verdict`, `witness` and `end`, in these letters.
pub fn kind_of(line: &[u8]) -> Option<Kind>
    ensures { result ≡ kind_of line.now }
{
    let (word, _) = split_keyword(line);
    Some(kind_named(keyword_by(word)?))
}

// The word behind a keyword.
fn read_field(alloc: Global, behind: &[u8]) -> Result<Word, LineErr>
    ensures { Gives result (strict_result (field_word behind.now)) }
{
    match read_word_field(alloc, behind) {
        Ok(word) => Ok(word),
        Err(WordErr::TooLong { .. }) => Err(LineErr::Long),
        Err(WordErr::Memory) => Err(LineErr::Memory),
        Err(WordErr::BadLetter { .. } | WordErr::BadIndex { .. }) => Err(LineErr::Form),
    }
}

// Whether a term is no higher than this.
fn is_within(tree: &Tree, height: u16) -> bool
    ensures { Decides result (written_height (written tree.now) ≤ height) }
{
    match tree {
        Tree::X | Tree::Named { .. } => true,
        Tree::Product(left, right) => height > 0
            && is_within(left, height - 1)
            && is_within(right, height - 1),
    }
}

// The term behind a keyword, in its strict text. Its height is the greatest index of its braid word.
fn read_term_field(alloc: Global, behind: &[u8]) -> Result<Tree, LineErr>
    ensures term { ReadsTerm result (field_term behind.now) }
    ensures nameless { IfOk result (λ tree. HasNoName (written tree)) }
{
    let [_, bytes @ ..] = behind else {
        return Err(LineErr::Form);
    };
    match read_strict(alloc, bytes) {
        Ok(tree) => {
            if is_within(&tree, MAX_INDEX) {
                Ok(tree)
            } else {
                Err(LineErr::Long)
            }
        }
        Err(TermErr::TooDeep { .. } | TermErr::TooMany { .. }) => Err(LineErr::Long),
        Err(TermErr::Form { .. }) => Err(LineErr::Form),
        Err(TermErr::Memory) => Err(LineErr::Memory),
    }
}

// A place behind a space, with nothing behind it.
fn read_only_place(behind: &[u8]) -> Result<u32, LineErr>
    ensures { result ≡ only_place (place_at behind.now) }
{
    match read_place(behind) {
        Some((place, [])) => Ok(place),
        _ => Err(LineErr::Form),
    }
}

// The step on a handle: two places, with nothing behind them.
fn read_handle(behind: &[u8]) -> Result<StepLine, LineErr>
    ensures { result ≡ two_places (place_at behind.now) }
{
    let Some((start, behind)) = read_place(behind) else {
        return Err(LineErr::Form);
    };
    Ok(StepLine::Handle(start, read_only_place(behind)?))
}

// A letter behind a space, with nothing behind it.
fn read_only_letter(alloc: Global, behind: &[u8]) -> Result<Letter, LineErr>
    ensures { Gives result (only_letter behind.now) }
{
    let [b' ', bytes @ ..] = behind else {
        return Err(LineErr::Form);
    };
    match read_strict_word(alloc, bytes) {
        Ok(word) => match word.letters() {
            [letter] => Ok(*letter),
            _ => Err(LineErr::Form),
        },
        Err(WordErr::Memory) => Err(LineErr::Memory),
        Err(_) => Err(LineErr::Form),
    }
}

// The step that inserts a letter and its inverse: a place and the letter, with nothing behind them.
fn read_insertion(alloc: Global, behind: &[u8]) -> Result<StepLine, LineErr>
    ensures { Gives result (place_and_letter (place_at behind.now)) }
{
    let Some((place, behind)) = read_place(behind) else {
        return Err(LineErr::Form);
    };
    Ok(StepLine::Insert(place, read_only_letter(alloc, behind)?))
}

// The verdict behind its keyword.
fn read_verdict(behind: &[u8]) -> Result<Verdict, LineErr>
    ensures { result ≡ verdict_by behind.now }
{
    if behind == b" less".as_slice() {
        Ok(Verdict::Less)
    } else if behind == b" equal".as_slice() {
        Ok(Verdict::Equal)
    } else if behind == b" greater".as_slice() {
        Ok(Verdict::Greater)
    } else {
        Err(LineErr::Form)
    }
}

// Reads a line by its keyword.
#[tactic(auto, unfolding(crate::specs::TraceLines::line_of))]
fn read_by_keyword(alloc: Global, line: &[u8]) -> Result<Line, LineErr>
    ensures line { Reads result (line_of line.now) }
    ensures nameless { IfOk result IsNameless }
{
    let (word, behind) = split_keyword(line);
    match keyword_by(word) {
        None => Err(LineErr::Unknown),
        Some(Keyword::Start) if behind == b" 1".as_slice() => Ok(Line::Start),
        Some(Keyword::Left) => Ok(Line::Left(read_field(alloc, behind)?)),
        Some(Keyword::Right) => Ok(Line::Right(read_field(alloc, behind)?)),
        Some(Keyword::LeftTerm) => Ok(Line::LeftTerm(read_term_field(alloc, behind)?)),
        Some(Keyword::RightTerm) => Ok(Line::RightTerm(read_term_field(alloc, behind)?)),
        Some(Keyword::Handle) => Ok(Line::Step(read_handle(behind)?)),
        Some(Keyword::Commute) => Ok(Line::Step(StepLine::Commute(read_only_place(behind)?))),
        Some(Keyword::Swap) => Ok(Line::Step(StepLine::Swap(read_only_place(behind)?))),
        Some(Keyword::Delete) => Ok(Line::Step(StepLine::Delete(read_only_place(behind)?))),
        Some(Keyword::Insert) => Ok(Line::Step(read_insertion(alloc, behind)?)),
        Some(Keyword::Verdict) => Ok(Line::Verdict(read_verdict(behind)?)),
        Some(Keyword::Witness) => Ok(Line::Witness(read_field(alloc, behind)?)),
        Some(Keyword::Finish) if behind.is_empty() => Ok(Line::Finish),
        Some(Keyword::Start | Keyword::Finish) => Err(LineErr::Form),
    }
}

/// Reads a line of a trace file of version 1, which is given without its LF.
///
/// `Unknown` where it has no keyword, `Long` where its word has more than 100,000 letters that can all be
/// read, or its term more than 100,000 products or a height above 255, and `Form` for any other fault, as a
/// letter with an index above 255. The format is this project's.
pub fn read_line(alloc: Global, line: &[u8]) -> Result<Line, LineErr>
    // What is read is spelled so.
    ensures text { IfOk result (λ l. (line.now ≡ line_text (said_by l)) × IsLine (said_by l) × IsNameless l) }

    // What is spelled so is read, unless memory runs out.
    ensures only { (l : Says) → IsLine l → line.now ≡ line_text l → Reads result (Ok l) }

    // Why it is refused.
    ensures exact { Reads result (line_of line.now) }
{
    read_by_keyword(alloc, line)
}
