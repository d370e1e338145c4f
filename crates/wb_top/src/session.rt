// The command `session`.
ghost use Rattle.wb_top.specs.Session.{session_meaning};

use session_run::serve;
use std::alloc::Global;
use wb_base::{Sink, Source, Status};
use wb_command::Served;

/// `session`: answers command lines, one by one.
#[derive(Clone, Copy, Debug, PartialEq, Eq)]
pub struct Session;

impl Served for Session {
    ghost meaning = { λ command. session_meaning };

    fn law_served(&self) {}

    fn serve<S: Source, K: Sink>(&self, alloc: Global, source: &mut S, sink: &mut K) -> Status {
        serve(alloc, source, sink)
    }
}
