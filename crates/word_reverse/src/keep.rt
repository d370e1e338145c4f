// One line of a reverse file, by the line that is due.
ghost use Rattle.std.specs.Prelude.{Ok};
ghost use Rattle.word_reverse.specs.Checking.{kept_short, kept_step, kept_left, kept_right};
ghost use Rattle.word_reverse.specs.Keeping.{Keeps, replay_of, state_of};
ghost use Rattle.word_reverse.specs.ReverseLines.{place_behind, word_behind};
ghost use Rattle.word_reverse.specs.States as state;

use crate::due::{Due, Replay};
use crate::fraction::{Fraction, ReverseWhy};
use crate::line::{read_place_behind, read_word_behind};
use crate::present::Present;
use braid_word::Word;
use line_file::Stop;
use std::alloc::Global;
use wb_base::split_keyword;

// The start.
fn keep_start(line: &[u8]) -> Result<Due, Stop<ReverseWhy>>
    ensures { Keeps result (kept_short state.start line.now) }
{
    if line == b"reverse-trace 1".as_slice() {
        Ok(Due::Word)
    } else {
        Err(Stop::Refused(ReverseWhy::Header))
    }
}

// The word, at which the steps begin.
fn keep_word(alloc: Global, line: &[u8]) -> Result<Due, Stop<ReverseWhy>>
    ensures { Keeps result (kept_short state.word line.now) }
{
    let (keyword, behind) = split_keyword(line);
    if keyword != b"word".as_slice() {
        return Err(Stop::Refused(ReverseWhy::Header));
    }
    let word = read_word_behind(alloc, behind)?;
    let present = Present::make(alloc, word.letters())?;
    Ok(Due::Step(Replay { word, present }))
}

// A step, by what stands behind its keyword.
fn keep_step(replay: Replay, behind: &[u8]) -> Result<Due, Stop<ReverseWhy>>
    ensures { Keeps result (kept_step (replay_of replay) (place_behind behind.now)) }
{
    let Some(place) = read_place_behind(behind) else {
        return Err(Stop::Refused(ReverseWhy::Form));
    };
    match replay.present.step(place) {
        Ok(present) => Ok(Due::Step(Replay {
            word: replay.word,
            present,
        })),
        Err(why) => Err(Stop::Refused(why)),
    }
}

// The left word, with which the fraction begins.
fn begin_fraction(replay: Replay, left: Word) -> Result<Due, Stop<ReverseWhy>>
    ensures { Keeps result (kept_left (replay_of replay) (Ok left)) }
{
    if !replay.present.has_front(left.letters()) {
        return Err(Stop::Refused(ReverseWhy::Fraction));
    }
    Ok(Due::Right(replay, left))
}

// The left word, by what stands behind its keyword.
fn keep_left(alloc: Global, replay: Replay, behind: &[u8]) -> Result<Due, Stop<ReverseWhy>>
    ensures { Keeps result (kept_left (replay_of replay) (word_behind behind.now)) }
{
    begin_fraction(replay, read_word_behind(alloc, behind)?)
}

// A step, or the left word.
fn keep_step_or_left(alloc: Global, replay: Replay, line: &[u8]) -> Result<Due, Stop<ReverseWhy>>
    ensures { Keeps result (kept_short (state.step (replay_of replay)) line.now) }
{
    let (keyword, behind) = split_keyword(line);
    if keyword == b"r".as_slice() {
        keep_step(replay, behind)
    } else if keyword == b"left".as_slice() {
        keep_left(alloc, replay, behind)
    } else {
        Err(Stop::Refused(ReverseWhy::Form))
    }
}

// The right word, with which the fraction ends.
fn end_fraction(replay: Replay, left: Word, right: Word) -> Result<Due, Stop<ReverseWhy>>
    ensures { Keeps result (kept_right (replay_of replay) left (Ok right)) }
{
    if !replay.present.is_split(left.letters(), right.letters()) {
        return Err(Stop::Refused(ReverseWhy::Fraction));
    }
    Ok(Due::Finish(Fraction::new(replay.word, left, right)))
}

// The right word, behind this left one.
fn keep_right(
    alloc: Global,
    replay: Replay,
    left: Word,
    line: &[u8],
) -> Result<Due, Stop<ReverseWhy>>
    ensures { Keeps result (kept_short (state.right (replay_of replay) left) line.now) }
{
    let (keyword, behind) = split_keyword(line);
    if keyword != b"right".as_slice() {
        return Err(Stop::Refused(ReverseWhy::Form));
    }
    end_fraction(replay, left, read_word_behind(alloc, behind)?)
}

// The end.
fn keep_finish(fraction: Fraction, line: &[u8]) -> Result<Due, Stop<ReverseWhy>>
    ensures { Keeps result (kept_short (state.finish fraction) line.now) }
{
    if line == b"end".as_slice() {
        Ok(Due::Passed(fraction))
    } else {
        Err(Stop::Refused(ReverseWhy::Form))
    }
}

/// What is due after a line that isn't too long, which is given without its LF.
pub fn keep(alloc: Global, due: Due, line: &[u8]) -> Result<Due, Stop<ReverseWhy>>
    ensures { Keeps result (kept_short (state_of due) line.now) }
{
    match due {
        Due::Passed(_) => Err(Stop::Refused(ReverseWhy::Extra)),
        Due::Start => keep_start(line),
        Due::Word => keep_word(alloc, line),
        Due::Step(replay) => keep_step_or_left(alloc, replay, line),
        Due::Right(replay, left) => keep_right(alloc, replay, left, line),
        Due::Finish(fraction) => keep_finish(fraction, line),
    }
}
