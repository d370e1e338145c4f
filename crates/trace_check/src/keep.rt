// One line of a trace file, by the line that is due.
ghost use Rattle.std.specs.Prelude.{◌≡◌, ◌<◌, length, Some, Ok, IfOk};
ghost use Rattle.std.specs.Bool.{Decides};
ghost use Rattle.braid_word.specs.Sign.{sign_of};
ghost use Rattle.trace_format.specs.Verdicts.{verdict_of};
ghost use Rattle.ld_term.specs.Written.{HasNoName};
ghost use Rattle.ld_term.specs.StrictTexts.{as_term};
ghost use Rattle.ld_term.specs.TreeTexts.{written};
ghost use Rattle.term_graph.specs.TermLists.{term_at};
ghost use Rattle.term_eval.specs.Braids.{braid};
ghost use Rattle.trace_format.specs.Said.{said_by};
ghost use Rattle.trace_format.specs.TraceLines.{IsShortTerm, IsLine, IsStepLine};
ghost use Rattle.trace_check.specs.Checking.{begun_with, kept_short, kept_step, moved, stepped, stepped_to, shown};
ghost use Rattle.trace_check.specs.Keeping.{Keeps, StepsTo, replay_of, replay_to, state_of, stop_of};
ghost use Rattle.trace_check.specs.States as state;
ghost use Rattle.trace_format.specs.declared.line.LineErr.TheVariants.{Memory};

use crate::checked::{Checked, Why};
use crate::due::Due;
use crate::present::Present;
use crate::replay::Replay;
use braid_word::{Letter, MAX_LETTERS, Word, quotient, sign_of};
use ld_term::Tree;
use std::alloc::{AllocError, Global};
use term_eval::{EvalErr, eval};
use term_graph::{GraphErr, Names, NodeId, TermGraph};
use trace_format::{Kind, Line, LineErr, StepLine, Verdict, kind_of, read_line, verdict_of};

/// Why a line isn't kept.
#[derive(Debug, Drop)]
pub enum Stop {
    /// It is refused for this cause.
    Refused(Why),
    /// Memory ran out.
    Memory,
}

impl From<LineErr> for Stop {
    ghost from_gives = { λ error stop. stop ≡ stop_of error };

    fn from(error: LineErr) -> Stop {
        match error {
            LineErr::Memory => Stop::Memory,
            LineErr::Long => Stop::Refused(Why::Long),
            LineErr::Unknown | LineErr::Form => Stop::Refused(Why::Form),
        }
    }
}

impl From<AllocError> for Stop {
    ghost from_gives = { λ _ stop. stop ≡ stop_of Memory };

    fn from(_: AllocError) -> Stop {
        Stop::Memory
    }
}

// The start.
fn keep_start(line: &[u8]) -> Result<Due, Stop>
    ensures { Keeps result (kept_short state.start line.now) }
{
    if line == b"braid-trace 1".as_slice() {
        Ok(Due::Left)
    } else {
        Err(Stop::Refused(Why::Header))
    }
}

// A term of a trace file in a graph of its own, which has room for one that is so small.
fn graph_of(alloc: Global, tree: &Tree) -> Result<(TermGraph, NodeId), AllocError>
    requires nameless { HasNoName (written tree.now) }
    requires small { IsShortTerm (as_term (written tree.now)) }
    ensures { IfOk result
        (λ made. (made.1 < length made.0) × (term_at made.0 made.1 ≡ as_term (written tree.now))) }
{
    let mut graph = TermGraph::new(alloc)?;
    match graph.insert(tree, &Names::new(alloc)) {
        Ok(number) => Ok((graph, number)),
        Err(GraphErr::Memory) => Err(AllocError),
        Err(GraphErr::TooDeep) => unreachable!(),
        Err(GraphErr::Full) => unreachable!(),
    }
}

// The braid word of a term of a trace file.
fn braid_of(alloc: Global, tree: &Tree) -> Result<Word, Stop>
    requires nameless { HasNoName (written tree.now) }
    requires small { IsShortTerm (as_term (written tree.now)) }
    ensures { StepsTo result (stepped_to (braid (as_term (written tree.now)))) }
{
    let (graph, number) = graph_of(alloc, tree)?;
    match eval(alloc, &graph, number, MAX_LETTERS as u32) {
        Ok(word) => Ok(word),
        Err(EvalErr::TooLong { .. }) => Err(Stop::Refused(Why::Long)),
        Err(EvalErr::Index) => unreachable!(),
        Err(EvalErr::Memory) => Err(Stop::Memory),
    }
}

// The left word, or the left term.
fn keep_left(alloc: Global, line: &[u8]) -> Result<Due, Stop>
    ensures { Keeps result (kept_short state.left line.now) }
{
    let Some(Kind::Left | Kind::LeftTerm) = kind_of(line) else {
        return Err(Stop::Refused(Why::Header));
    };
    match read_line(alloc, line)? {
        Line::Left(word) => Ok(Due::Right(word)),
        Line::LeftTerm(term) => Ok(Due::RightTerm(braid_of(alloc, &term)?)),
        _ => Err(Stop::Refused(Why::Form)),
    }
}

// Both words: the replay begins at their quotient.
fn begin(alloc: Global, left: Word, right: Word) -> Result<Due, Stop>
    ensures { Keeps result (begun_with left right) }
{
    let quotient = quotient(alloc, left.letters(), right.letters())?;
    if quotient.letters().len() > MAX_LETTERS {
        return Err(Stop::Refused(Why::Long));
    }
    Ok(Due::Step(Replay {
        left,
        right,
        present: Present::make(alloc, quotient.letters())?,
        steps: 0,
    }))
}

// The right word, behind the left one.
fn keep_right(alloc: Global, left: Word, line: &[u8]) -> Result<Due, Stop>
    ensures { Keeps result (kept_short (state.right left) line.now) }
{
    let Some(Kind::Right) = kind_of(line) else {
        return Err(Stop::Refused(Why::Header));
    };
    match read_line(alloc, line)? {
        Line::Right(word) => begin(alloc, left, word),
        _ => Err(Stop::Refused(Why::Form)),
    }
}

// The right term, behind a left one with this braid word.
fn keep_right_term(alloc: Global, left: Word, line: &[u8]) -> Result<Due, Stop>
    ensures { Keeps result (kept_short (state.right_term left) line.now) }
{
    let Some(Kind::RightTerm) = kind_of(line) else {
        return Err(Stop::Refused(Why::Header));
    };
    match read_line(alloc, line)? {
        Line::RightTerm(term) => begin(alloc, left, braid_of(alloc, &term)?),
        _ => Err(Stop::Refused(Why::Form)),
    }
}

// A step of the replay.
fn keep_move(replay: Replay, step: StepLine) -> Result<Due, Stop>
    requires { IsStepLine step }
    ensures { Keeps result (moved (replay_of replay) (stepped replay.present step)) }
{
    match replay.present.step(step) {
        Ok(present) => Ok(Due::Step(Replay {
            left: replay.left,
            right: replay.right,
            present,
            steps: replay.steps.saturating_add(1),
        })),
        Err(why) => Err(Stop::Refused(why)),
    }
}

// A step, or the verdict, as the line says it.
fn keep_said(replay: Replay, said: Line) -> Result<Due, Stop>
    requires { IsLine (said_by said) }
    ensures { Keeps result (kept_step (replay_of replay) (Ok (said_by said))) }
{
    match said {
        Line::Step(step) => keep_move(replay, step),
        Line::Verdict(verdict) => Ok(Due::Witness(replay, verdict)),
        _ => Err(Stop::Refused(Why::Form)),
    }
}

// A step, or the verdict.
fn keep_step(alloc: Global, replay: Replay, line: &[u8]) -> Result<Due, Stop>
    ensures { Keeps result (kept_short (state.step (replay_of replay)) line.now) }
{
    match read_line(alloc, line) {
        Ok(said) => keep_said(replay, said),
        Err(LineErr::Memory) => Err(Stop::Memory),
        Err(_) => Err(Stop::Refused(Why::Form)),
    }
}

// Whether the sign of a word goes with a verdict.
fn has_sign_of(word: &[Letter], verdict: Verdict) -> bool
    ensures { Decides result (verdict_of (sign_of word.now) ≡ Some verdict) }
{
    verdict_of(sign_of(word)) == Some(verdict)
}

// The witness of a verdict, by its word.
fn show(replay: Replay, verdict: Verdict, word: Word) -> Result<Due, Stop>
    ensures { Keeps result (shown (replay_of replay) verdict word) }
{
    if !replay.present.is(word.letters()) {
        return Err(Stop::Refused(Why::Witness));
    }
    if !has_sign_of(word.letters(), verdict) {
        return Err(Stop::Refused(Why::Sign));
    }
    Ok(Due::Finish(Checked::new(replay.left, replay.right, verdict, word, replay.steps)))
}

// The witness of a verdict.
fn keep_witness(alloc: Global, replay: Replay, verdict: Verdict, line: &[u8]) -> Result<Due, Stop>
    ensures { Keeps result (kept_short (state.witness (replay_of replay) verdict) line.now) }
{
    let Some(Kind::Witness) = kind_of(line) else {
        return Err(Stop::Refused(Why::Form));
    };
    match read_line(alloc, line)? {
        Line::Witness(word) => show(replay, verdict, word),
        _ => Err(Stop::Refused(Why::Form)),
    }
}

// The end.
fn keep_finish(checked: Checked, line: &[u8]) -> Result<Due, Stop>
    ensures { Keeps result (kept_short (state.finish (replay_to checked) checked.verdict) line.now) }
{
    if line == b"end".as_slice() {
        Ok(Due::Passed(checked))
    } else {
        Err(Stop::Refused(Why::Form))
    }
}

/// What is due after a line that isn't too long, which is given without its LF.
pub fn keep(alloc: Global, due: Due, line: &[u8]) -> Result<Due, Stop>
    ensures { Keeps result (kept_short (state_of due) line.now) }
{
    match due {
        Due::Passed(_) => Err(Stop::Refused(Why::Extra)),
        Due::Start => keep_start(line),
        Due::Left => keep_left(alloc, line),
        Due::Right(left) => keep_right(alloc, left, line),
        Due::RightTerm(left) => keep_right_term(alloc, left, line),
        Due::Step(replay) => keep_step(alloc, replay, line),
        Due::Witness(replay, verdict) => keep_witness(alloc, replay, verdict, line),
        Due::Finish(checked) => keep_finish(checked, line),
    }
}
