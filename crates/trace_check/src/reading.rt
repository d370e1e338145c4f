// Trace files as files of lines.
ghost use Rattle.trace_check.specs.Checking.{trace_file};
ghost use Rattle.trace_check.specs.Keeping.{state_of};

use crate::MAX_LINE;
use crate::checked::{Checked, Why};
use crate::due::Due;
use crate::keep::{Stop, keep};
use line_file::{LineFormat, Stop as LineStop};
use std::alloc::{AllocError, Global};
use std::marker::Model;

/// What is due in a trace file, by what was read of it.
#[derive(Debug, Drop)]
pub struct Reading {
    due: Due,
}

impl Model for Reading {
    ghost use Rattle.trace_check.specs.Keeping.{state_of};
    ghost use Rattle.trace_check.specs.States.{State};

    ghost Value = { State };

    ghost view = { λ r. state_of r.due };
}

impl LineFormat for Reading {
    type Why = Why;

    type Claim = Checked;

    ghost format = { trace_file };

    fn start(_alloc: Global) -> Result<Reading, AllocError> {
        Ok(Reading { due: Due::Start })
    }

    fn keep(self, alloc: Global, line: &[u8]) -> Result<Reading, LineStop<Why>> {
        match keep(alloc, self.due, line) {
            Ok(due) => Ok(Reading { due }),
            Err(Stop::Refused(why)) => Err(LineStop::Refused(why)),
            Err(Stop::Memory) => Err(LineStop::Memory),
        }
    }

    fn is_passed(&self) -> bool {
        matches!(self.due, Due::Passed(_))
    }

    fn claim(self) -> Option<Checked> {
        match self.due {
            Due::Passed(checked) => Some(checked),
            _ => None,
        }
    }

    fn most() -> u32 {
        MAX_LINE as u32
    }

    fn extra() -> Why {
        Why::Extra
    }

    fn long() -> Why {
        Why::Long
    }

    fn truncated() -> Why {
        Why::Truncated
    }
}
