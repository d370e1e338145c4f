// The command `value n`.
ghost use Rattle.std.specs.Prelude.{◌≡◌, ◌<◌, ◌≤◌, length, IfOk};
ghost use Rattle.laver_table.specs.declared.TheConstants.{MAX_EXPONENT};
ghost use Rattle.term_graph.specs.TermLists.{term_at};
ghost use Rattle.term_eval.specs.Values.{value_of};
ghost use Rattle.wb_command.specs.Refusals.{comes_answer};
ghost use Rattle.wb_terms.specs.Value.{number_answer, valued, value_meaning, value_of_words};

use laver_table::{MAX_EXPONENT, Table};
use std::alloc::{AllocError, Global};
use std::marker::{Brand, Model};
use std::sync::ledger::{Blank, Ledger};
use term_graph::{NodeId, TermGraph, read_terms};
use wb_base::{Failed, Sink, Status, Steps, put_numbered_line};
use wb_command::{Args, Comes, Task, Written, refuse};

/// `value n`: gives the value of a term in the Laver table of size 2^n.
#[derive(Debug, Drop)]
pub struct Valuation {
    exponent: u32,
}

impl Model for Valuation {
    ghost use Rattle.std.specs.Prelude.{ℕ, ◌≤◌};
    ghost use Rattle.laver_table.specs.declared.TheConstants.{MAX_EXPONENT};

    ghost Value = { ℕ };

    ghost view = { λ s. s.exponent };

    ghost invariant = { λ s. s.exponent ≤ MAX_EXPONENT };
}

impl Valuation {
    /// The command with the exponent of the table's size.
    pub fn new(exponent: u32) -> Valuation
        requires { exponent ≤ MAX_EXPONENT }
        ensures { result ≡ exponent }
    {
        Valuation { exponent }
    }

    /// The command with the number that the words are, if they are one.
    pub fn read(words: &mut Args<'_>) -> Option<Valuation>
        ensures { result ≡ value_of_words words.old }
    {
        let exponent = words.number(0, MAX_EXPONENT)?;
        if words.is_at_end() {
            Some(Valuation { exponent })
        } else {
            None
        }
    }
}

/// The value of a term.
#[derive(Debug, Drop)]
pub struct TermValue {
    value: u32,
}

impl Model for TermValue {
    ghost use Rattle.std.specs.Prelude.{ℕ};

    ghost Value = { ℕ };

    ghost view = { λ s. s.value };
}

impl Written for TermValue {
    ghost answer = { number_answer };

    fn status(&self) -> Status {
        Status::Done
    }

    fn put<K: Sink>(&self, sink: &mut K) -> Result<(), Failed> {
        put_numbered_line(sink, b"", u64::from(self.value))
    }
}

// The value of a term in a table, with the counter of a ledger.
fn value_counted<L: Ledger>(
    alloc: Global,
    graph: &TermGraph,
    node: NodeId,
    table: &Table,
    blank: Blank,
) -> Result<u32, AllocError>
    requires number { node < length graph.now }
    requires name { blank.name ≡ L.name }
    requires parts { blank.parts ≡ L.parts }
    requires shared { 0 < blank.parts }
    ensures { IfOk result (λ v. v ≡ value_of table.now (term_at graph.now node)) }
{
    let mut steps = Steps::<L>::new(blank);
    term_eval::value(alloc, graph, node, table, &mut steps)
}

// The value of a term in the Laver table of size 2 to this exponent.
fn value_of_term(
    alloc: Global,
    graph: &TermGraph,
    node: NodeId,
    exponent: u32,
) -> Result<Comes<TermValue>, AllocError>
    requires number { node < length graph.now }
    requires exponent { exponent ≤ MAX_EXPONENT }
    ensures { IfOk result (λ outcome. valued exponent (term_at graph.now node)
        ≡ comes_answer number_answer outcome) }
{
    let table = Table::build(alloc, exponent)?;
    let value = value_counted::<Brand>(alloc, graph, node, &table, Blank::new(1))?;
    Ok(Comes::Done(TermValue { value }))
}

impl Task for Valuation {
    type Done = TermValue;

    ghost meaning = { value_meaning };

    fn reads(&self) -> bool {
        true
    }

    fn law_sound(&self) {}

    fn perform(&self, alloc: Global, input: &[u8]) -> Result<Comes<TermValue>, AllocError> {
        match read_terms(alloc, input, 1) {
            Ok(file) => value_of_term(alloc, &file.graph, file.first, self.exponent),
            Err(error) => refuse(error),
        }
    }
}
