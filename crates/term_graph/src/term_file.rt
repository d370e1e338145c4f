ghost use Rattle.std.specs.Prelude.{◌≡◌, ℕ, ◌⊎◌, ◌↔◌, ◌+◌, ◌≤◌, ◌<◌, [], List, length, true, false, All, None, Some, is_some, IfOk, IfErr, IsErrOf, OnOk};
ghost use Rattle.std.specs.Map.{keys_of};
ghost use Rattle.ld_term.specs.TreeTexts.{written};
ghost use Rattle.wb_base.specs.Lines.{lines_of};
ghost use Rattle.term_graph.specs.Requests.{first_unknown};
ghost use Rattle.term_graph.specs.TermFiles.{Line, definition, closing, IsLineFault, IsSound, IsTermFile, IsFileRefusal};
ghost use Rattle.term_graph.specs.Readings.{Holds, fault_at, IsEntered, IsLimit, Defines, Closes};
ghost use Rattle.term_graph.specs.declared.file_error.DefsErr.{DefsErr};
ghost use Rattle.term_graph.specs.declared.file_error.DefsErr.TheVariants.{Memory};

use crate::error::GraphErr;
use crate::file_error::DefsErr;
use crate::graph::TermGraph;
use crate::names::Names;
use crate::node::NodeId;
use ld_term::{Definition, TermErr, Tree, read_definition, read_term};
use std::alloc::{AllocError, Global};
use wb_base::{count_lines, lines};

/// The terms of a term file, in a graph of their own.
#[derive(Drop)]
pub struct TermFile {
    /// The products of all lines.
    pub graph: TermGraph,
    /// The term of the last line; where two terms were asked for, that of the line before it.
    pub first: NodeId,
    /// The term of the last line, where two terms were asked for.
    pub second: Option<NodeId>,
}

/// Why a product was refused.
#[derive(Clone, Copy, Debug)]
pub(crate) enum Limit {
    Height,
    Nodes,
}

/// What is kept of the lines that were read: the graph of their products, the names that they define, and
/// whether a product was refused.
///
/// Behind a refused product the lines are read for their faults alone, and each name has the number of x.
#[derive(Drop)]
pub(crate) struct Reading {
    graph: TermGraph,
    names: Names,
    limit: Option<Limit>,
}

// The place of the leftmost name of a term that isn't among the names.
fn first_unknown(term: &Tree, names: &Names) -> Option<usize>
    ensures { result ≡ first_unknown (keys_of names.now) (written term.now) }
{
    match term {
        Tree::X => None,
        Tree::Named { name, place } => match names.find(name) {
            Some(_) => None,
            None => Some(*place),
        },
        Tree::Product(left, right) => match first_unknown(left, names) {
            Some(place) => Some(place),
            None => first_unknown(right, names),
        },
    }
}

// Why line k isn't read.
fn fault_at(k: u64, error: TermErr) -> DefsErr
    ensures { result ≡ fault_at k error }
{
    match error {
        TermErr::Form { place } => DefsErr::Form { line: k, place },
        TermErr::TooDeep { height } => DefsErr::TooDeep { line: k, height },
        TermErr::TooMany { products } => DefsErr::TooMany { line: k, products },
        TermErr::Memory => DefsErr::Memory,
    }
}

// The definition that line k is, under the names that are known.
fn definition_at(alloc: Global, line: &[u8], k: u64, names: &Names) -> Result<Definition, DefsErr>
    ensures sound { IfOk result
        (λ d. IsSound k (keys_of names.now) (record { defines = true; bytes = line.now })
        (definition d.name d.place (written d.term))) }
    ensures refused { IfErr result
        (λ e. (e ≡ Memory)
        ⊎ IsLineFault k (keys_of names.now) (record { defines = true; bytes = line.now }) e) }
{
    let definition = match read_definition(alloc, line) {
        Ok(definition) => definition,
        Err(error) => return Err(fault_at(k, error)),
    };
    if names.find(&definition.name).is_some() {
        return Err(DefsErr::Twice {
            line: k,
            place: definition.place as u64,
        });
    }
    match first_unknown(&definition.term, names) {
        None => Ok(definition),
        Some(place) => Err(DefsErr::Unknown {
            line: k,
            place: place as u64,
        }),
    }
}

// The term that line k is, under the names that are known.
fn term_at(alloc: Global, line: &[u8], k: u64, names: &Names) -> Result<Tree, DefsErr>
    ensures sound { IfOk result
        (λ tree. IsSound k (keys_of names.now) (record { defines = false; bytes = line.now })
        (closing (written tree))) }
    ensures refused { IfErr result
        (λ e. (e ≡ Memory)
        ⊎ IsLineFault k (keys_of names.now) (record { defines = false; bytes = line.now }) e) }
{
    let term = match read_term(alloc, line) {
        Ok(term) => term,
        Err(error) => return Err(fault_at(k, error)),
    };
    match first_unknown(&term, names) {
        None => Ok(term),
        Some(place) => Err(DefsErr::Unknown {
            line: k,
            place: place as u64,
        }),
    }
}

impl Reading {
    // Nothing was read.
    fn new(alloc: Global) -> Result<Reading, AllocError>
        ensures { IfOk result (λ reading. Holds reading [] []) }
    {
        Ok(Reading {
            graph: TermGraph::new(alloc)?,
            names: Names::new(alloc),
            limit: None,
        })
    }

    // The number of a term, where no product is refused; else that of x.
    fn enter(&mut self, term: &Tree) -> Result<NodeId, AllocError>
        requires known { first_unknown (keys_of self.old.names) (written term.now) ≡ None }
        requires numbers { All (λ own. own.1 < length self.old.graph) self.old.names }
        ensures entered { IfOk result
            (λ n. IsEntered self.old.graph self.old.names self.old.limit (written term.now) self.new.graph
            self.new.limit n) }
        ensures names { self.new.names ≡ self.old.names }
    {
        if self.limit.is_some() {
            return Ok(self.graph.var());
        }
        match self.graph.insert(term, &self.names) {
            Ok(number) => Ok(number),
            Err(GraphErr::TooDeep) => {
                self.limit = Some(Limit::Height);
                Ok(self.graph.var())
            }
            Err(GraphErr::Full) => {
                self.limit = Some(Limit::Nodes);
                Ok(self.graph.var())
            }
            Err(GraphErr::Memory) => Err(AllocError),
        }
    }

    // Reads line k, which is to define a name.
    fn define(&mut self, alloc: Global, line: &[u8], k: u64) -> Result<(), DefsErr>
        requires { (read : List Line) × (numbers : List ℕ) × Holds self.old read numbers }
        ensures sound { OnOk result ((r : Line) × Defines k line.now self.old self.new r) }
        ensures refused { IfErr result
            (λ e. (e ≡ Memory)
            ⊎ IsLineFault k (keys_of self.old.names) (record { defines = true; bytes = line.now }) e) }
    {
        let definition = definition_at(alloc, line, k, &self.names)?;
        let number = self.enter(&definition.term)?;
        // The name isn't there, so that memory alone may be wanting.
        match self.names.define(definition.name, number) {
            Ok(()) => Ok(()),
            Err(_) => Err(DefsErr::Memory),
        }
    }

    // Reads line k, which is to be a term.
    fn close(&mut self, alloc: Global, line: &[u8], k: u64) -> Result<NodeId, DefsErr>
        requires { (read : List Line) × (numbers : List ℕ) × Holds self.old read numbers }
        ensures sound { IfOk result (λ n. (r : Line) × Closes k line.now self.old self.new r n) }
        ensures refused { IfErr result
            (λ e. (e ≡ Memory)
            ⊎ IsLineFault k (keys_of self.old.names) (record { defines = false; bytes = line.now }) e) }
    {
        let term = term_at(alloc, line, k, &self.names)?;
        Ok(self.enter(&term)?)
    }

    // The file whose lines were all read, where no product was refused.
    fn finish(self, first: NodeId, second: Option<NodeId>) -> Result<TermFile, DefsErr>
        ensures file { IfOk result
            (λ file. (self.limit ≡ None) × (file.graph ≡ self.graph) × (file.first ≡ first)
            × (file.second ≡ second)) }
        ensures refused { IfErr result (IsLimit self.limit) }
    {
        match self.limit {
            None => Ok(TermFile {
                graph: self.graph,
                first,
                second,
            }),
            Some(Limit::Height) => Err(DefsErr::Height),
            Some(Limit::Nodes) => Err(DefsErr::Nodes),
        }
    }
}

/// The terms of a file of definitions and then one or two terms, as many as are asked for.
///
/// Lines count from 1; a last line without LF counts. A file with fewer lines than terms is refused for the
/// first line that is missing; otherwise the first line with a fault decides. Where no line has one, the
/// products of all lines are asked of a new graph, line by line, in postorder, left part first; the first
/// that is refused decides. The format is this project's own.
pub fn read_terms(alloc: Global, bytes: &[u8], terms: u32) -> Result<TermFile, DefsErr>
    requires some { 1 ≤ terms }
    requires few { terms ≤ 2 }
    ensures file { IfOk result
        (λ file. IsTermFile terms (lines_of bytes.now) file.graph file.first file.second) }
    ensures second { IfOk result (λ file. (is_some file.second ≡ true) ↔ (terms ≡ 2)) }
    ensures refused { IfErr result (λ e. (e ≡ Memory) ⊎ IsFileRefusal terms (lines_of bytes.now) e) }
    ensures exact { (e : DefsErr) → IsFileRefusal terms (lines_of bytes.now) e
        → IsErrOf result e ⊎ IsErrOf result Memory }
{
    let count = count_lines(bytes);
    let Some(definitions) = count.checked_sub(terms as usize) else {
        return Err(DefsErr::Lines {
            line: count as u64 + 1,
        });
    };
    let mut rest = lines(bytes);
    let mut reading = Reading::new(alloc)?;
    for k in 0..definitions {
        let Some(line) = rest.next() else {
            unreachable!();
        };
        reading.define(alloc, line, k as u64 + 1)?;
    }
    let Some(line) = rest.next() else {
        unreachable!();
    };
    let first = reading.close(alloc, line, definitions as u64 + 1)?;
    let Some(line) = rest.next() else {
        return reading.finish(first, None);
    };
    let second = reading.close(alloc, line, definitions as u64 + 2)?;
    reading.finish(first, Some(second))
}
