// Command lines, and the commands that they are.
ghost use Rattle.std.specs.Prelude.{◌≡◌, ◌≤◌, ◌==◌, ◌∷◌, ◌↔◌, [], not, IsTrue, Ok, MatchOption, IfOk, IfSome, Err, IsErr, position};
ghost use Rattle.std.specs.List.{slice_split};
ghost use Rattle.braid_word.specs.Notation.{word_of};
ghost use Rattle.handle_reduce.specs.declared.TheConstants.{MAX_BOUND};
ghost use Rattle.session_run.specs.CommandLines.{fields_of, name_of, small_number, turn_of, only_name, named_by, plain_of, head_of, opened_by, begin_by, command_of, HasSmallNumbers, Gives};

use braid_word::{Word, WordErr, read_word};
use handle_reduce::MAX_BOUND;
use std::alloc::Global;
use thiserror::Error;
use wb_base::{Name, read_within};

/// A command of a session. Its numbers have to be at most 100,000, as those that are read are.
#[derive(Debug, Drop)]
pub enum Command {
    /// Opens a job: the run of the quotient of two words, within these limits.
    Begin {
        /// The name of the job.
        name: Name,
        /// The most reductions of its run.
        handles: u32,
        /// The most letters of the words of its run.
        length: u32,
        /// The left word.
        left: Word,
        /// The right word.
        right: Word,
    },
    /// Turns a job.
    Turn {
        /// The name of the job.
        name: Name,
        /// How many turns more.
        count: u32,
    },
    /// Asks for the state of a job.
    Show(Name),
    /// Asks for the trace file of a job.
    Take(Name),
    /// Closes a job.
    Close(Name),
    /// Asks for the states of all jobs.
    List,
}

/// Why a line isn't read.
#[derive(Debug, Drop, Error)]
pub enum CommandErr {
    /// The line is no command.
    #[error("no command")]
    Bad,
    /// Memory ran out.
    #[error("out of memory")]
    Memory,
}

// Where the first space stands.
fn first_space(text: &[u8]) -> Option<usize>
    ensures { result ≡ position (λ byte. byte == 32) text.now }
{
    text.iter().position(|byte| *byte == b' ')
}

// Where the first byte stands that is no space.
fn first_other(text: &[u8]) -> Option<usize>
    ensures { result ≡ position (λ byte. not (byte == 32)) text.now }
{
    text.iter().position(|byte| *byte != b' ')
}

// The first field of a text, and what follows it.
fn split_field(text: &[u8]) -> Option<(&[u8], &[u8])>
    ensures { MatchOption result (fields_of text.now ≡ [])
        (λ p. fields_of text.now ≡ p.0.now ∷ fields_of p.1.now) }
{
    let text = &text[first_other(text)?..];
    match first_space(text) {
        Some(end) => Some((&text[..end], &text[end + 1..])),
        None => Some((text, &[])),
    }
}

// The name that a field is.
fn read_name(field: &[u8]) -> Option<Name>
    ensures { result ≡ name_of field.now }
{
    Name::read(field)
}

// The number that a field is, up to 100,000.
fn read_small(field: &[u8]) -> Option<u32>
    ensures number { result ≡ small_number field.now }
    ensures small { IfSome result (λ n. n ≤ MAX_BOUND) }
{
    read_within(field, 0, MAX_BOUND)
}

// Whether a text has no field.
fn has_no_field(text: &[u8]) -> bool
    ensures { IsTrue result ↔ (fields_of text.now ≡ []) }
{
    split_field(text).is_none()
}

// The command whose fields behind `turn` are those of a text.
fn read_turn(text: &[u8]) -> Option<Command>
    ensures exact { result ≡ turn_of (fields_of text.now) }
    ensures numbers { IfSome result HasSmallNumbers }
{
    let (name, text) = split_field(text)?;
    let (count, text) = split_field(text)?;
    if !has_no_field(text) {
        return None;
    }
    Some(Command::Turn {
        name: read_name(name)?,
        count: read_small(count)?,
    })
}

// The name that is the one field of a text.
fn read_only_name(text: &[u8]) -> Option<Name>
    ensures { result ≡ only_name (fields_of text.now) }
{
    let (name, text) = split_field(text)?;
    if !has_no_field(text) {
        return None;
    }
    read_name(name)
}

// The command of this word on the one name of a text.
fn read_named(word: &[u8], text: &[u8]) -> Option<Command>
    ensures exact { result ≡ named_by word.now (only_name (fields_of text.now)) }
    ensures numbers { IfSome result HasSmallNumbers }
{
    let name = read_only_name(text)?;
    if word == b"show".as_slice() {
        Some(Command::Show(name))
    } else if word == b"take".as_slice() {
        Some(Command::Take(name))
    } else if word == b"close".as_slice() {
        Some(Command::Close(name))
    } else {
        None
    }
}

// The command of a line without a bar.
fn read_plain(line: &[u8]) -> Option<Command>
    ensures exact { result ≡ plain_of (fields_of line.now) }
    ensures numbers { IfSome result HasSmallNumbers }
{
    let (word, text) = split_field(line)?;
    if word == b"turn".as_slice() {
        return read_turn(text);
    }
    if word == b"list".as_slice() {
        return has_no_field(text).then_some(Command::List);
    }
    read_named(word, text)
}

// The three fields behind `open`.
fn read_opened(text: &[u8]) -> Option<(Name, u32, u32)>
    ensures exact { result ≡ opened_by (fields_of text.now) }
    ensures numbers { IfSome result (λ head. (head.1 ≤ MAX_BOUND) × (head.2 ≤ MAX_BOUND)) }
{
    let (name, text) = split_field(text)?;
    let (handles, text) = split_field(text)?;
    let (limit, text) = split_field(text)?;
    if !has_no_field(text) {
        return None;
    }
    Some((read_name(name)?, read_small(handles)?, read_small(limit)?))
}

// What stands before the first bar of a line that opens a job.
fn read_head(text: &[u8]) -> Option<(Name, u32, u32)>
    ensures exact { result ≡ head_of (fields_of text.now) }
    ensures numbers { IfSome result (λ head. (head.1 ≤ MAX_BOUND) × (head.2 ≤ MAX_BOUND)) }
{
    let (word, text) = split_field(text)?;
    if word == b"open".as_slice() {
        return read_opened(text);
    }
    None
}

// The command of a line with two bars, by what stands before the first, between them and behind the
// second.
fn read_begin(alloc: Global, head: &[u8], left: &[u8], right: &[u8]) -> Result<Command, CommandErr>
    ensures numbers { IfOk result HasSmallNumbers }
    ensures exact { Gives result
        (begin_by (head_of (fields_of head.now)) (word_of left.now) (word_of right.now)) }
{
    let Some((name, handles, length)) = read_head(head) else {
        return Err(CommandErr::Bad);
    };
    let left = read_part(alloc, left)?;
    let right = read_part(alloc, right)?;
    Ok(Command::Begin {
        name,
        handles,
        length,
        left,
        right,
    })
}

// The word that a part of a line is.
fn read_part(alloc: Global, part: &[u8]) -> Result<Word, CommandErr>
    ensures word { IfOk result (λ w. word_of part.now ≡ Ok w) }
    ensures bad { result ≡ Err CommandErr.Bad → IsErr (word_of part.now) }
{
    match read_word(alloc, part) {
        Ok(word) => Ok(word),
        Err(WordErr::Memory) => Err(CommandErr::Memory),
        Err(_) => Err(CommandErr::Bad),
    }
}

// Where the first bar stands.
fn first_bar(text: &[u8]) -> Option<usize>
    ensures { result ≡ position (λ byte. byte == 124) text.now }
{
    text.iter().position(|byte| *byte == b'|')
}

// What stands before the first bar of a text, and what follows it.
fn split_bar(text: &[u8]) -> Option<(&[u8], &[u8])>
    ensures { MatchOption result (slice_split (λ byte. byte == 124) text.now ≡ text.now ∷ [])
        (λ p. slice_split (λ byte. byte == 124) text.now
        ≡ p.0.now ∷ slice_split (λ byte. byte == 124) p.1.now) }
{
    let at = first_bar(text)?;
    Some((&text[..at], &text[at + 1..]))
}

/// Reads a command line, which is given without its LF.
///
/// `Bad` where the line is no command, as where a word in it can't be read. The format is this project's.
#[tactic(auto, unfolding(crate::specs::CommandLines::command_of))]
pub fn read_command(alloc: Global, line: &[u8]) -> Result<Command, CommandErr>
    ensures exact { Gives result (command_of line.now) }
    ensures numbers { IfOk result HasSmallNumbers }
{
    let Some((head, rest)) = split_bar(line) else {
        return match read_plain(line) {
            Some(command) => Ok(command),
            None => Err(CommandErr::Bad),
        };
    };
    let Some((left, right)) = split_bar(rest) else {
        return Err(CommandErr::Bad);
    };
    match split_bar(right) {
        None => read_begin(alloc, head, left, right),
        Some(_) => Err(CommandErr::Bad),
    }
}
