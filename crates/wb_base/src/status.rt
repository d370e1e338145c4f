ghost use Rattle.std.specs.Prelude.{◌≡◌};
ghost use Rattle.wb_base.specs.Status.{code_of};

/// How the program ends. The numbers are its exit codes.
#[derive(Clone, Copy, Debug, PartialEq, Eq)]
pub enum Status {
    /// The defined answer was written.
    Done = 0,
    /// A trace file was refused.
    Refused = 1,
    /// The words of the command line are no command.
    Words = 2,
    /// The input isn't of the command's form.
    Input = 3,
    /// A limit was met.
    Limit = 4,
    /// The source met a fault.
    ReadFault = 5,
    /// The sink met a fault.
    WriteFault = 6,
    /// Memory ran out.
    Memory = 7,
}

impl Status {
    /// The exit code, from 0 to 7.
    pub fn code(self) -> u8
        ensures { result ≡ code_of self }
    {
        self as u8
    }
}
