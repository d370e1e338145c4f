// Certificate files as files of lines.
ghost use Rattle.ld_cert.specs.Checking.{certificate_file};
ghost use Rattle.ld_cert.specs.Keeping.{state_of};

use crate::MAX_LINE;
use crate::checked::{LdChecked, LdWhy};
use crate::due::Due;
use crate::keep::keep;
use line_file::{LineFormat, Stop};
use std::alloc::{AllocError, Global};
use std::marker::Model;

/// What is due in a certificate file, by what was read of it.
#[derive(Drop)]
pub struct Reading {
    due: Due,
}

impl Model for Reading {
    ghost use Rattle.ld_cert.specs.States.{State};
    ghost use Rattle.ld_cert.specs.StateCodes.{coded_state};

    ghost Value = { State };

    ghost coded = { coded_state };

    ghost use Rattle.ld_cert.specs.Keeping.{state_of, HasNumbers};

    ghost view = { λ r. state_of r.due };

    ghost invariant = { λ r. HasNumbers r.due };
}

impl LineFormat for Reading {
    type Why = LdWhy;

    type Claim = LdChecked;

    ghost format = { certificate_file };

    fn start(_alloc: Global) -> Result<Reading, AllocError> {
        Ok(Reading { due: Due::Start })
    }

    fn keep(self, alloc: Global, line: &[u8]) -> Result<Reading, Stop<LdWhy>> {
        Ok(Reading {
            due: keep(alloc, self.due, line)?,
        })
    }

    fn is_passed(&self) -> bool {
        matches!(self.due, Due::Passed(_))
    }

    fn claim(self) -> Option<LdChecked> {
        match self.due {
            Due::Passed(checked) => Some(checked),
            _ => None,
        }
    }

    fn most() -> u32 {
        MAX_LINE as u32
    }

    fn extra() -> LdWhy {
        LdWhy::Extra
    }

    fn long() -> LdWhy {
        LdWhy::Long
    }

    fn truncated() -> LdWhy {
        LdWhy::Truncated
    }
}
