// Laws of what the program answers.
ghost use Rattle.std.specs.Prelude.{◌≡◌, ℕ, List, map, string_bytes};
ghost use Rattle.wb_base.specs.Status.{Answer};
ghost use Rattle.wb_command.specs.Meaning.{HasAnswer};
ghost use Rattle.wb_compare.specs.Limits.{Limits};
ghost use Rattle.wb_compare.specs.Compare.{compare_meaning};
ghost use Rattle.wb_top.specs.Program.{means};

use crate::command::read_command;

/// Some words and an input have one answer at most, and `compare` has one to each input.
///
/// That it has one rests on this: the run of a quotient is over after as many turns as it may reduce
/// handles, and its sign isn't mixed.
pub fn law_one_answer(words: &[String], input: &[u8])
    ensures one { (a b : Answer) → HasAnswer (means (map string_bytes words.now)) input.now a
        → HasAnswer (means (map string_bytes words.now)) input.now b → a ≡ b }
    ensures compares { (limits : Limits) → (a : Answer) × (compare_meaning limits).answers input.now a }
{
    let Some(command) = read_command(words) else {
        return;
    };
    command.law_sound();
}
