// The command `bench N LEN COUNT SEED H L`.
ghost use Rattle.std.specs.Prelude.{◌≡◌, ◌+◌, ◌≤◌, length, IfOk};
ghost use Rattle.wb_base.specs.Streams.{HasCause, Puts};
ghost use Rattle.braid_word.specs.Words.{quotient};
ghost use Rattle.handle_reduce.specs.declared.TheConstants.{MAX_BOUND};
ghost use Rattle.handle_reduce.specs.Runs.{run_after};
ghost use Rattle.wb_words.specs.Bench.{bench_meaning, bench_of, counted_end, counted_run, counted_verdict, letter_at, limits_of, limits_text, made_run, made_word, next_state, none_counted, state_after, tallied, tally_answer, tally_text, verdicts_text};
ghost use Rattle.wb_words.specs.Benching.{AreBenchNumbers, IsBoundedPairs, IsWithin};
ghost use Rattle.wb_command.specs.declared.TheConstants.{MAX_STRANDS};
ghost use Rattle.wb_words.specs.declared.TheConstants.{MAX_COUNT, MAX_SIZE};

use crate::{MAX_COUNT, MAX_SIZE};
use braid_word::{Account, Letter, Word};
use handle_reduce::{MAX_BOUND, Progress, Reducer};
use std::alloc::{AllocError, Global};
use std::marker::Model;
use trace_format::{Verdict, verdict_of};
use wb_base::{Failed, Sink, Status, put_numbered_line};
use wb_command::{Args, Comes, MAX_STRANDS, Task, Written};

/// The pairs of words that `bench` makes: on so many strands, each of so many letters, with the limits of
/// their runs.
#[derive(Clone, Copy, Debug, PartialEq, Eq)]
pub struct Pairs {
    /// The number of strands.
    pub strands: u32,
    /// How many letters each word has.
    pub size: u32,
    /// The most handle reductions of a run.
    pub handles: u32,
    /// The most letters of the words of a run.
    pub limit: u32,
}

/// `bench N LEN COUNT SEED H L`: counts how the runs of pairs of random words end.
#[derive(Debug, Drop)]
pub struct Bench {
    pairs: Pairs,
    count: u32,
    seed: u64,
}

impl Model for Bench {
    ghost use Rattle.wb_words.specs.Bench.{BenchNumbers};
    ghost use Rattle.wb_words.specs.Benching.{AreBenchNumbers};

    ghost Value = { BenchNumbers };

    ghost view = { λ s. record { pairs = s.pairs; count = s.count; seed = s.seed } };

    ghost invariant = { λ s. AreBenchNumbers (record { pairs = s.pairs; count = s.count; seed = s.seed }) };
}

impl Bench {
    /// The command with how each pair is made and reduced, how many pairs, and the state from which the first
    /// letter is made.
    pub fn new(pairs: Pairs, count: u32, seed: u64) -> Bench
        requires { AreBenchNumbers (record { pairs = pairs; count = count; seed = seed }) }
        ensures { result ≡ record { pairs = pairs; count = count; seed = seed } }
    {
        Bench { pairs, count, seed }
    }

    // The command with these numbers, and the limits of a run that the last words are.
    fn read_limits(
        words: &mut Args<'_>,
        strands: u32,
        size: u32,
        count: u32,
        seed: u64,
    ) -> Option<Bench>
        requires few { 2 ≤ strands }
        requires strands { strands ≤ MAX_STRANDS }
        requires size { size ≤ MAX_SIZE }
        requires count { count ≤ MAX_COUNT }
        ensures { result ≡ limits_of strands size count seed words.old }
    {
        let handles = words.number(0, MAX_BOUND)?;
        let limit = words.number(0, MAX_BOUND)?;
        let pairs = Pairs {
            strands,
            size,
            handles,
            limit,
        };
        if words.is_at_end() {
            Some(Bench { pairs, count, seed })
        } else {
            None
        }
    }

    /// The command with the numbers that the words are, if they are six such.
    pub fn read(words: &mut Args<'_>) -> Option<Bench>
        ensures { result ≡ bench_of words.old }
    {
        let strands = words.number(2, MAX_STRANDS)?;
        let size = words.number(0, MAX_SIZE)?;
        let count = words.number(1, MAX_COUNT)?;
        let seed = words.long_number()?;
        Bench::read_limits(words, strands, size, count, seed)
    }
}

/// How many runs ended in each way, and how many reductions they made in all.
#[derive(Clone, Copy, Debug)]
pub struct Tally {
    /// Runs with the verdict less.
    pub less: u64,
    /// Runs with the verdict equal.
    pub equal: u64,
    /// Runs with the verdict greater.
    pub greater: u64,
    /// Runs that reduced as many handles as they may.
    pub handles_met: u64,
    /// Runs that met a word with more letters than it may have.
    pub length_met: u64,
    /// The reductions of all runs.
    pub handles: u64,
}

/// The tally of so many pairs.
#[derive(Debug, Drop)]
pub struct Tallied {
    /// How many pairs.
    pub count: u32,
    /// How their runs ended.
    pub tally: Tally,
}

// The state after a state.
fn next_state(state: u64) -> u64
    ensures { result ≡ next_state state }
{
    state
        .wrapping_mul(6_364_136_223_846_793_005)
        .wrapping_add(1_442_695_040_888_963_407)
}

// The letter that is read from a state.
fn letter_at(strands: u32, state: u64) -> Letter
    requires low { 2 ≤ strands }
    requires high { strands ≤ MAX_STRANDS }
    ensures { result ≡ letter_at strands state }
{
    let half = state >> 32;
    let index = 1 + (half / 2) % u64::from(strands - 1);
    Letter::new(index as u16, half % 2 == 1)
}

// A word of so many letters, read from the states after one, and the last of these.
fn make_word(alloc: Global, strands: u32, size: u32, state: u64) -> Result<(Word, u64), AllocError>
    requires low { 2 ≤ strands }
    requires high { strands ≤ MAX_STRANDS }
    ensures word { IfOk result (λ made. made.0 ≡ made_word strands size state) }
    ensures length { IfOk result (λ made. length made.0 ≡ size) }
    ensures state { IfOk result (λ made. made.1 ≡ state_after size state) }
{
    let mut word = Word::new(alloc);
    let mut state = state;
    for _ in 0..size {
        state = next_state(state);
        word.push(letter_at(strands, state))?;
    }
    Ok((word, state))
}

impl Tally {
    // Counts a run that made so many reductions and ended so.
    fn count(&mut self, steps: u32, progress: Progress)
        requires steps { steps ≤ MAX_BOUND }
        requires room { IsWithin 999 self.old }
        ensures { self.new ≡ counted_end progress (record self.old { handles = self.old.handles + steps }) }
    {
        self.handles += u64::from(steps);
        match progress {
            Progress::Done(sign) => self.count_verdict(verdict_of(sign)),
            Progress::HandlesMet => self.handles_met += 1,
            Progress::LengthMet => self.length_met += 1,
            Progress::Running => (),
        }
    }

    // Counts the verdict of a run, which has one.
    fn count_verdict(&mut self, verdict: Option<Verdict>)
        requires less { self.old.less ≤ 999 }
        requires equal { self.old.equal ≤ 999 }
        requires greater { self.old.greater ≤ 999 }
        ensures { self.new ≡ counted_verdict verdict self.old }
    {
        match verdict {
            Some(Verdict::Less) => self.less += 1,
            Some(Verdict::Equal) => self.equal += 1,
            Some(Verdict::Greater) => self.greater += 1,
            None => (),
        }
    }
}

// The run of the quotient of two words, all its turns.
fn run_of(
    alloc: Global,
    left: &[Letter],
    right: &[Letter],
    pairs: Pairs,
) -> Result<Reducer, AllocError>
    requires left { length left.now ≤ MAX_SIZE }
    requires right { length right.now ≤ MAX_SIZE }
    requires bounded { IsBoundedPairs pairs }
    ensures run { IfOk result (λ r. r.run ≡ run_after
        (quotient left.now right.now) pairs.handles pairs.limit pairs.handles) }
    ensures steps { IfOk result (λ r. length r.run.steps ≤ MAX_BOUND) }
{
    let mut reducer = Reducer::of_quotient(alloc, left, right, pairs.handles, pairs.limit)?;
    reducer.turn(pairs.handles);
    Ok(reducer)
}

// Counts the run of a pair that is made from a state on, and gives the state after it.
fn count_pair(alloc: Global, pairs: Pairs, state: u64, tally: &mut Tally) -> Result<u64, AllocError>
    requires bounded { IsBoundedPairs pairs }
    requires room { IsWithin 999 tally.old }
    ensures state { IfOk result (λ last. last ≡ state_after pairs.size (state_after pairs.size state)) }
    ensures tally { IfOk result (λ _. (tally.new ≡ counted_run (made_run pairs state) tally.old)
        × (length (made_run pairs state).steps ≤ MAX_BOUND)) }
{
    let (left, state) = make_word(alloc, pairs.strands, pairs.size, state)?;
    let (right, state) = make_word(alloc, pairs.strands, pairs.size, state)?;
    let reducer = run_of(alloc, left.letters(), right.letters(), pairs)?;
    tally.count(reducer.steps_done(), reducer.progress());
    Ok(state)
}

// Counts the runs of so many pairs that are made from a state on.
fn tally_pairs(alloc: Global, pairs: Pairs, count: u32, seed: u64) -> Result<Tally, AllocError>
    requires bounded { IsBoundedPairs pairs }
    requires count { count ≤ MAX_COUNT }
    ensures { IfOk result (λ t. t ≡ tallied pairs count seed none_counted) }
{
    let mut tally = Tally {
        less: 0,
        equal: 0,
        greater: 0,
        handles_met: 0,
        length_met: 0,
        handles: 0,
    };
    let mut state = seed;
    for _ in 0..count {
        state = count_pair(alloc, pairs, state, &mut tally)?;
    }
    Ok(tally)
}

// Gives the lines of the verdicts.
fn put_verdicts<K: Sink>(sink: &mut K, tally: &Tally) -> Result<(), Failed>
    ensures took { Puts (K.taken sink.old) (K.taken sink.new) result (verdicts_text tally.now) }
    ensures cause { HasCause (K.faults sink.old) (K.faults sink.new) result }
{
    put_numbered_line(sink, b"less ", tally.less)?;
    put_numbered_line(sink, b"equal ", tally.equal)?;
    put_numbered_line(sink, b"greater ", tally.greater)
}

// Gives the lines of the limits that were met, and of the reductions.
fn put_limits<K: Sink>(sink: &mut K, tally: &Tally) -> Result<(), Failed>
    ensures took { Puts (K.taken sink.old) (K.taken sink.new) result (limits_text tally.now) }
    ensures cause { HasCause (K.faults sink.old) (K.faults sink.new) result }
{
    put_numbered_line(sink, b"handles-met ", tally.handles_met)?;
    put_numbered_line(sink, b"length-met ", tally.length_met)?;
    put_numbered_line(sink, b"handles ", tally.handles)
}

// Gives the lines of a tally of so many pairs.
fn put_tally<K: Sink>(sink: &mut K, count: u32, tally: &Tally) -> Result<(), Failed>
    ensures took { Puts (K.taken sink.old) (K.taken sink.new) result (tally_text count tally.now) }
    ensures cause { HasCause (K.faults sink.old) (K.faults sink.new) result }
{
    put_numbered_line(sink, b"pairs ", u64::from(count))?;
    put_verdicts(sink, tally)?;
    put_limits(sink, tally)
}

impl Written for Tallied {
    ghost answer = { tally_answer };

    fn status(&self) -> Status {
        Status::Done
    }

    fn put<K: Sink>(&self, sink: &mut K) -> Result<(), Failed> {
        put_tally(sink, self.count, &self.tally)
    }
}

impl Task for Bench {
    type Done = Tallied;

    ghost meaning = { bench_meaning };

    fn reads(&self) -> bool {
        false
    }

    fn law_sound(&self) {}

    fn perform(&self, alloc: Global, _input: &[u8]) -> Result<Comes<Tallied>, AllocError> {
        let count = self.count;
        let tally = tally_pairs(alloc, self.pairs, count, self.seed)?;
        Ok(Comes::Done(Tallied { count, tally }))
    }
}
