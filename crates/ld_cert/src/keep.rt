// One line of a certificate file, by the line that is due.
ghost use Rattle.std.specs.Prelude.{◌≡◌, ◌<◌, length, codes, None, Some, Ok, Err, MatchOption, MatchResult, IfOk};
ghost use Rattle.std.specs.Str.{bytes_eq};
ghost use Rattle.ld_term.specs.Written.{HasNoName};
ghost use Rattle.ld_term.specs.StrictTexts.{as_term};
ghost use Rattle.ld_term.specs.TreeTexts.{written};
ghost use Rattle.term_graph.specs.TermLists.{term_at};
ghost use Rattle.term_graph.specs.Requests.{IsFront};
ghost use Rattle.term_expand.specs.Expansions.{IsAddress};
ghost use Rattle.ld_cert.specs.Checking.{behind_front, text_behind, term_behind, address_behind, made_by, expanded_by, exponent_in, kept_no, kept_end, kept_short};
ghost use Rattle.ld_cert.specs.States as state;
ghost use Rattle.ld_cert.specs.Keeping.{IsBoth, IsPresent, HasNumbers, Keeps, Reads, Gives, terms_of, pair_of, state_of};

use crate::checked::{LdAnswer, LdChecked, LdWhy};
use crate::difference::are_alike;
use crate::due::{Both, Due, Present};
use laver_table::MAX_EXPONENT;
use ld_term::{TermErr, Tree, read_strict};
use line_file::Stop;
use std::alloc::Global;
use term_expand::{ExpandErr, expand, is_address};
use term_graph::{GraphErr, Names, NodeId, TermGraph};
use wb_base::{read_within, split_keyword};

// ---- Parts of a line ----

// What stands behind a keyword and a space.
fn text_behind<'a>(keyword: &[u8], line: &'a [u8]) -> Result<&'a [u8], LdWhy>
    ensures { MatchResult result
        (λ text. text_behind keyword.now line.now ≡ Ok text.now)
        (λ why. text_behind keyword.now line.now ≡ Err why) }
{
    let (word, behind) = split_keyword(line);
    if word != keyword {
        return Err(LdWhy::Header);
    }
    match behind.split_first() {
        None => Err(LdWhy::Form),
        Some((_, text)) => Ok(text),
    }
}

// The term behind a keyword, in its strict text.
fn term_behind(alloc: Global, keyword: &[u8], line: &[u8]) -> Result<Tree, Stop<LdWhy>>
    ensures term { Reads result (term_behind keyword.now line.now) }
    ensures nameless { IfOk result (λ tree. HasNoName (written tree)) }
{
    let text = match text_behind(keyword, line) {
        Ok(text) => text,
        Err(why) => return Err(Stop::Refused(why)),
    };
    match read_strict(alloc, text) {
        Ok(tree) => Ok(tree),
        Err(TermErr::Form { .. }) => Err(Stop::Refused(LdWhy::Form)),
        Err(TermErr::TooDeep { .. } | TermErr::TooMany { .. }) => Err(Stop::Refused(LdWhy::Long)),
        Err(TermErr::Memory) => Err(Stop::Memory),
    }
}

// The address behind a front, with which the line begins.
fn address_behind<'a>(front: &[u8], line: &'a [u8]) -> Option<&'a [u8]>
    ensures { MatchOption result (address_behind front.now line.now ≡ None)
        (λ address. (address_behind front.now line.now ≡ Some address.now) × IsAddress address.now) }
{
    let address = line.strip_prefix(front)?;
    if is_address(address) {
        Some(address)
    } else {
        None
    }
}

// The exponent of a no.
fn exponent_behind(line: &[u8]) -> Option<u32>
    ensures { result ≡ exponent_in (behind_front (codes "no ") line.now) }
{
    let text = line.strip_prefix(b"no ".as_slice())?;
    read_within(text, 0, MAX_EXPONENT)
}

// ---- Requests ----

// The number of a term in a graph, which is asked for its products.
fn make(alloc: Global, graph: &mut TermGraph, tree: &Tree) -> Result<NodeId, Stop<LdWhy>>
    requires nameless { HasNoName (written tree.now) }
    ensures made { Gives graph.new result (made_by graph.old (Ok (as_term (written tree.now)))) }
    ensures kept { IsFront graph.old graph.new }
{
    match graph.insert(tree, &Names::new(alloc)) {
        Ok(number) => Ok(number),
        Err(GraphErr::TooDeep) => Err(Stop::Refused(LdWhy::Large)),
        Err(GraphErr::Full) => Err(Stop::Refused(LdWhy::Large)),
        Err(GraphErr::Memory) => Err(Stop::Memory),
    }
}

// The number of the expansion of a term at an address.
fn expand_at(
    alloc: Global,
    graph: &mut TermGraph,
    node: NodeId,
    address: &[u8],
) -> Result<NodeId, Stop<LdWhy>>
    requires number { node < length graph.old }
    requires address { IsAddress address.now }
    ensures made { Gives graph.new result (expanded_by graph.old address.now (term_at graph.old node)) }
    ensures kept { IsFront graph.old graph.new }
{
    match expand(alloc, graph, node, address) {
        Ok(number) => Ok(number),
        Err(ExpandErr::NoPlace | ExpandErr::NotExpandable) => Err(Stop::Refused(LdWhy::Place)),
        Err(ExpandErr::TooDeep | ExpandErr::Full) => Err(Stop::Refused(LdWhy::Large)),
        Err(ExpandErr::Memory) => Err(Stop::Memory),
    }
}

// ---- One line ----

// The start.
fn keep_start(line: &[u8]) -> Result<Due, Stop<LdWhy>>
    ensures { Keeps result (kept_short state.start line.now) }
{
    if line == b"ld-certificate 1".as_slice() {
        Ok(Due::Left)
    } else {
        Err(Stop::Refused(LdWhy::Header))
    }
}

// The left term, in a new graph.
fn keep_left(alloc: Global, line: &[u8]) -> Result<Due, Stop<LdWhy>>
    ensures { Keeps result (kept_short state.left line.now) }
{
    let tree = term_behind(alloc, b"left", line)?;
    let mut graph = TermGraph::new(alloc)?;
    let left = make(alloc, &mut graph, &tree)?;
    Ok(Due::Right(graph, left))
}

// The right term, behind the left one.
fn keep_right(
    alloc: Global,
    mut graph: TermGraph,
    left: NodeId,
    line: &[u8],
) -> Result<Due, Stop<LdWhy>>
    requires { left < length graph }
    ensures { Keeps result (kept_short (state.right graph (term_at graph left)) line.now) }
{
    let tree = term_behind(alloc, b"right", line)?;
    let right = make(alloc, &mut graph, &tree)?;
    Ok(Due::Answer(Both { graph, left, right }))
}

// A no.
fn keep_no(alloc: Global, both: Both, line: &[u8]) -> Result<Due, Stop<LdWhy>>
    requires { IsBoth both }
    ensures { Keeps result (kept_no (terms_of both) (exponent_in (behind_front (codes "no ") line.now))) }
{
    let Some(n) = exponent_behind(line) else {
        return Err(Stop::Refused(LdWhy::Form));
    };
    if are_alike(alloc, &both.graph, both.left, both.right, n)? {
        return Err(Stop::Refused(LdWhy::Alike));
    }
    Ok(Due::Finish(LdChecked::new(LdAnswer::No(n), both.graph, both.left, both.right)))
}

// The answer.
fn keep_answer(alloc: Global, both: Both, line: &[u8]) -> Result<Due, Stop<LdWhy>>
    requires { IsBoth both }
    ensures { Keeps result (kept_short (state.answer (terms_of both)) line.now) }
{
    if line == b"yes".as_slice() {
        return Ok(Due::LeftStep(Present {
            left: both.left,
            right: both.right,
            both,
        }));
    }
    keep_no(alloc, both, line)
}

// The end of a yes.
fn keep_end(present: Present, line: &[u8]) -> Result<Due, Stop<LdWhy>>
    requires { IsPresent present }
    ensures { Keeps result (kept_end (pair_of present) (bytes_eq line.now (codes "end"))) }
{
    if line != b"end".as_slice() {
        return Err(Stop::Refused(LdWhy::Form));
    }
    let both = present.both;
    if !both.graph.equal(present.left, present.right) {
        return Err(Stop::Refused(LdWhy::Differ));
    }
    Ok(Due::Passed(LdChecked::new(LdAnswer::Yes, both.graph, both.left, both.right)))
}

// An expansion of the right term, or the end.
fn keep_right_step(alloc: Global, mut present: Present, line: &[u8]) -> Result<Due, Stop<LdWhy>>
    requires { IsPresent present }
    ensures { Keeps result (kept_short (state.right_step (pair_of present)) line.now) }
{
    let Some(address) = address_behind(b"r .", line) else {
        return keep_end(present, line);
    };
    present.right = expand_at(alloc, &mut present.both.graph, present.right, address)?;
    Ok(Due::RightStep(present))
}

// An expansion of either term, or the end.
fn keep_left_step(alloc: Global, mut present: Present, line: &[u8]) -> Result<Due, Stop<LdWhy>>
    requires { IsPresent present }
    ensures { Keeps result (kept_short (state.left_step (pair_of present)) line.now) }
{
    let Some(address) = address_behind(b"l .", line) else {
        return keep_right_step(alloc, present, line);
    };
    present.left = expand_at(alloc, &mut present.both.graph, present.left, address)?;
    Ok(Due::LeftStep(present))
}

// The end behind a no.
fn keep_finish(checked: LdChecked, line: &[u8]) -> Result<Due, Stop<LdWhy>>
    ensures { Keeps result (kept_short (state.finish checked) line.now) }
{
    if line == b"end".as_slice() {
        Ok(Due::Passed(checked))
    } else {
        Err(Stop::Refused(LdWhy::Form))
    }
}

/// What is due after a line that isn't too long, which is given without its LF.
pub fn keep(alloc: Global, due: Due, line: &[u8]) -> Result<Due, Stop<LdWhy>>
    requires { HasNumbers due }
    ensures { Keeps result (kept_short (state_of due) line.now) }
{
    match due {
        Due::Passed(_) => Err(Stop::Refused(LdWhy::Extra)),
        Due::Start => keep_start(line),
        Due::Left => keep_left(alloc, line),
        Due::Right(graph, left) => keep_right(alloc, graph, left, line),
        Due::Answer(both) => keep_answer(alloc, both, line),
        Due::LeftStep(present) => keep_left_step(alloc, present, line),
        Due::RightStep(present) => keep_right_step(alloc, present, line),
        Due::Finish(checked) => keep_finish(checked, line),
    }
}
