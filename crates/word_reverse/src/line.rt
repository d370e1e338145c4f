// What stands behind the keyword of a line of a reverse file: a word or a place.
ghost use Rattle.std.specs.Prelude.{◌≡◌, IfOk, IfSome};
ghost use Rattle.wb_base.specs.Fields.{IsPlace};
ghost use Rattle.braid_word.specs.Notation.{IsReadable};
ghost use Rattle.line_file.specs.Keeping.{Keeps};
ghost use Rattle.word_reverse.specs.ReverseLines.{word_behind, place_behind};

use crate::fraction::ReverseWhy;
use braid_word::{Word, WordErr, read_word_field};
use line_file::Stop;
use std::alloc::Global;
use wb_base::read_place;

// The word there.
pub(crate) fn read_word_behind(alloc: Global, behind: &[u8]) -> Result<Word, Stop<ReverseWhy>>
    ensures word { Keeps result (word_behind behind.now) }
    ensures readable { IfOk result IsReadable }
{
    match read_word_field(alloc, behind) {
        Ok(word) => Ok(word),
        Err(WordErr::TooLong { .. }) => Err(Stop::Refused(ReverseWhy::Long)),
        Err(WordErr::Memory) => Err(Stop::Memory),
        Err(WordErr::BadLetter { .. } | WordErr::BadIndex { .. }) => Err(Stop::Refused(
            ReverseWhy::Form,
        )),
    }
}

// The place there, with nothing behind it.
pub(crate) fn read_place_behind(behind: &[u8]) -> Option<u32>
    ensures place { result ≡ place_behind behind.now }
    ensures within { IfSome result IsPlace }
{
    match read_place(behind) {
        Some((place, [])) => Some(place),
        _ => None,
    }
}
