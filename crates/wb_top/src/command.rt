// The commands of the program by their names, and their runs.
ghost use Rattle.std.specs.Prelude.{◌≡◌, ◌≢◌, map, string_bytes};
ghost use Rattle.wb_command.specs.Args.{last_read};
ghost use Rattle.wb_command.specs.Meaning.{HasRun, IsSound};
ghost use Rattle.wb_top.specs.Commands.{command_of, meaning_of, reverse_command_of, table_command_of, term_command_of, word_command_of};

use crate::session::Session;
use std::alloc::Global;
use wb_base::{Sink, Source, Status};
use wb_command::{Args, Served, Streamed, Task, run_streamed, run_task};
use wb_compare::{Check, Compare, CompareTerms, Same};
use wb_reverse::{Reverse, ReverseCheck};
use wb_terms::{Derive, Eval, Expand, Laver, Row, Valuation};
use wb_words::{Act, Bench, Gcd, Normal};

/// A command of the program.
#[derive(Drop)]
pub enum Command<'a> {
    /// Compares two words.
    Compare(Compare),
    /// Compares the braids of two terms.
    Terms(CompareTerms),
    /// Checks a trace file.
    Check,
    /// Gives the normal form of a word.
    Normal(Normal),
    /// Tells whether two words are equivalent.
    Same(Same),
    /// Gives the image of a generator of the free group under a word.
    Act(Act),
    /// Gives the greatest common left divisor of two positive words.
    Gcd(Gcd),
    /// Gives a word as a fraction.
    Reverse(Reverse),
    /// Checks a reverse file.
    ReverseCheck,
    /// Gives the braid word of a term.
    Eval(Eval),
    /// Gives the value of a term in a Laver table.
    Value(Valuation),
    /// Gives the listing of a term that is expanded.
    Expand(Expand<'a>),
    /// Gives the listing of a derived term.
    Derive,
    /// Gives a Laver table.
    Laver(Laver),
    /// Gives a row of a Laver table.
    Row(Row),
    /// Answers command lines, one by one.
    Session,
    /// Counts how the runs of pairs of words end.
    Bench(Bench),
}

// A command without arguments, where no word is left.
fn bare<'a>(words: &Args<'a>, command: Command<'a>) -> Option<Command<'a>>
    ensures { result ≡ last_read words.now command.entry }
{
    if words.is_at_end() {
        Some(command)
    } else {
        None
    }
}

// The command of a name, from `laver` on.
fn read_table_command<'a>(name: &str, words: &mut Args<'a>) -> Option<Command<'a>>
    ensures { result ≡ table_command_of name.now words.old }
{
    if name == "laver" {
        Some(Command::Laver(Laver::read(words)?))
    } else if name == "row" {
        Some(Command::Row(Row::read(words)?))
    } else if name == "session" {
        bare(words, Command::Session)
    } else if name == "bench" {
        Some(Command::Bench(Bench::read(words)?))
    } else {
        None
    }
}

// From `eval` on.
fn read_term_command<'a>(name: &str, words: &mut Args<'a>) -> Option<Command<'a>>
    ensures { result ≡ term_command_of name.now words.old }
{
    if name == "eval" {
        Some(Command::Eval(Eval::read(words)?))
    } else if name == "value" {
        Some(Command::Value(Valuation::read(words)?))
    } else if name == "expand" {
        Some(Command::Expand(Expand::read(words)?))
    } else if name == "derive" {
        bare(words, Command::Derive)
    } else {
        read_table_command(name, words)
    }
}

// From `reverse` on.
fn read_reverse_command<'a>(name: &str, words: &mut Args<'a>) -> Option<Command<'a>>
    ensures { result ≡ reverse_command_of name.now words.old }
{
    if name == "reverse" {
        Some(Command::Reverse(Reverse::read(words)?))
    } else if name == "reverse-check" {
        bare(words, Command::ReverseCheck)
    } else {
        read_term_command(name, words)
    }
}

// From `normal` on.
fn read_word_command<'a>(name: &str, words: &mut Args<'a>) -> Option<Command<'a>>
    ensures { result ≡ word_command_of name.now words.old }
{
    if name == "normal" {
        Some(Command::Normal(Normal::read(words)?))
    } else if name == "same" {
        Some(Command::Same(Same::read(words)?))
    } else if name == "act" {
        Some(Command::Act(Act::read(words)?))
    } else if name == "gcd" {
        Some(Command::Gcd(Gcd::read(words)?))
    } else {
        read_reverse_command(name, words)
    }
}

/// The command that the words after the program's name are.
pub fn read_command(words: &[String]) -> Option<Command<'_>>
    ensures { result ≡ command_of (map string_bytes words.now) }
{
    let (name, words) = words.split_first()?;
    let mut words = Args::new(words);
    let name = name.as_str();
    if name == "compare" {
        Some(Command::Compare(Compare::read(&mut words)?))
    } else if name == "terms" {
        Some(Command::Terms(CompareTerms::read(&mut words)?))
    } else if name == "check" {
        bare(&words, Command::Check)
    } else {
        read_word_command(name, &mut words)
    }
}

impl<'a> Command<'a> {
    /// An input has one answer of the command at most, and what this says of the input holds.
    pub fn law_sound(&self)
        ensures { IsSound (meaning_of self.now) }
    {
        match self {
            Command::Compare(task) => task.law_sound(),
            Command::Terms(task) => task.law_sound(),
            Command::Check => Check.law_streamed(),
            Command::Normal(task) => task.law_sound(),
            Command::Same(task) => task.law_sound(),
            Command::Act(task) => task.law_sound(),
            Command::Gcd(task) => task.law_sound(),
            Command::Reverse(task) => task.law_sound(),
            Command::ReverseCheck => ReverseCheck.law_streamed(),
            Command::Eval(task) => task.law_sound(),
            Command::Value(task) => task.law_sound(),
            Command::Expand(task) => task.law_sound(),
            Command::Derive => Derive.law_sound(),
            Command::Laver(task) => task.law_sound(),
            Command::Row(task) => task.law_sound(),
            Command::Session => Session.law_served(),
            Command::Bench(task) => task.law_sound(),
        }
    }
}

/// Runs a command: reads its input, if it has one, and writes its answer.
pub(crate) fn run_command<S: Source, K: Sink>(
    alloc: Global,
    command: &Command<'_>,
    source: &mut S,
    sink: &mut K,
) -> Status
    ensures ran { HasRun (meaning_of command.now) source.old source.new sink.old sink.new
        (record {
          left = S.left source.old;
          reads = S.faults source.old;
          calls = S.calls source.old;
          taken = K.taken sink.old;
          waiting = K.waiting sink.old;
          writes = K.faults sink.old;
        })
        (record {
          left = S.left source.new;
          reads = S.faults source.new;
          calls = S.calls source.new;
          taken = K.taken sink.new;
          waiting = K.waiting sink.new;
          writes = K.faults sink.new;
        })
        result }
    ensures words { result ≢ Status.Words }
{
    match command {
        Command::Compare(task) => run_task(alloc, task, source, sink),
        Command::Terms(task) => run_task(alloc, task, source, sink),
        Command::Check => run_streamed(alloc, &Check, source, sink),
        Command::Normal(task) => run_task(alloc, task, source, sink),
        Command::Same(task) => run_task(alloc, task, source, sink),
        Command::Act(task) => run_task(alloc, task, source, sink),
        Command::Gcd(task) => run_task(alloc, task, source, sink),
        Command::Reverse(task) => run_task(alloc, task, source, sink),
        Command::ReverseCheck => run_streamed(alloc, &ReverseCheck, source, sink),
        Command::Eval(task) => run_task(alloc, task, source, sink),
        Command::Value(task) => run_task(alloc, task, source, sink),
        Command::Expand(task) => run_task(alloc, task, source, sink),
        Command::Derive => run_task(alloc, &Derive, source, sink),
        Command::Laver(task) => run_task(alloc, task, source, sink),
        Command::Row(task) => run_task(alloc, task, source, sink),
        Command::Session => Session.serve(alloc, source, sink),
        Command::Bench(task) => run_task(alloc, task, source, sink),
    }
}
