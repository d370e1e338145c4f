ghost use Rattle.std.specs.Prelude.{◌≡◌};
ghost use Rattle.trace_format.specs.Verdicts.{verdict_of};

use braid_word::Sign;

/// How the braids of two words compare in the Dehornoy order.
#[derive(Clone, Copy, Debug, PartialEq, Eq)]
pub enum Verdict {
    /// The first is less than the second.
    Less,
    /// They are equal.
    Equal,
    /// The first is greater than the second.
    Greater,
}

/// The verdict on two words u and v where a word of this sign represents the braid of u^-1 v.
///
/// `None` where the sign is mixed, which goes with no verdict. After Dehornoy, Braid groups and left
/// distributive operations.
pub fn verdict_of(sign: Sign) -> Option<Verdict>
    ensures { result ≡ verdict_of sign }
{
    match sign {
        Sign::Positive(_) => Some(Verdict::Less),
        Sign::Empty => Some(Verdict::Equal),
        Sign::Negative(_) => Some(Verdict::Greater),
        Sign::Mixed(_) => None,
    }
}
