// Inputs that are term files.
ghost use Rattle.std.specs.Prelude.{◌≡◌, ◌≢◌, IfOk};
ghost use Rattle.term_graph.specs.declared.file_error.DefsErr.TheVariants.{Memory};
ghost use Rattle.wb_command.specs.Refusals.{comes_answer};
ghost use Rattle.wb_command.specs.TermInputs.{file_refused};

use crate::fault::Fault;
use crate::refusal::{Comes, Refusal, Written};
use std::alloc::AllocError;
use term_graph::DefsErr;

/// What a command comes to on an input that isn't read as a term file, for this error.
pub fn refuse<D: Written + Drop>(error: DefsErr) -> Result<Comes<D>, AllocError>
    ensures { IfOk result (λ outcome. (error ≢ Memory)
        × (file_refused error ≡ comes_answer D.answer outcome)) }
{
    let refusal = match error {
        DefsErr::Lines { line } => Refusal::BadInput(Fault::Lines(line)),
        DefsErr::Form { line, place } => Refusal::BadInput(Fault::Term(line, place)),
        DefsErr::TooDeep { line, height } => Refusal::BadInput(Fault::Deep(line, height)),
        DefsErr::TooMany { line, products } => Refusal::BadInput(Fault::Many(line, products)),
        DefsErr::Twice { line, place } => Refusal::BadInput(Fault::Twice(line, place)),
        DefsErr::Unknown { line, place } => Refusal::BadInput(Fault::Unknown(line, place)),
        DefsErr::Height => Refusal::HeightMet,
        DefsErr::Nodes => Refusal::NodesMet,
        DefsErr::Memory => return Err(AllocError),
    };
    Ok(Comes::Stopped(refusal))
}
