ghost use Rattle.std.specs.Prelude.{◌≡◌, List, length};
ghost use Rattle.braid_word.specs.Words.{Letter};
ghost use Rattle.perm_braid.specs.SimpleWords.{IsWordOf, IsSimple, arranged};

use crate::perm::Perm;

/// Each simple braid has exactly one word by its least left descents; it is a simple word, and ends in the
/// braid's arrangement.
///
/// The law is the contract. After Epstein and others, Word Processing in Groups, chapter 9.
pub fn law_word(braid: &Perm)
    ensures exists { (w : List Letter) × IsWordOf (length braid.now) braid.now w }
    ensures unique { (u v : List Letter) → IsWordOf (length braid.now) braid.now u
        → IsWordOf (length braid.now) braid.now v → u ≡ v }
    ensures simple { (w : List Letter) → IsWordOf (length braid.now) braid.now w
        → IsSimple (length braid.now) w }
    ensures arranged { (w : List Letter) → IsWordOf (length braid.now) braid.now w
        → arranged (length braid.now) w ≡ braid.now }
{
    let _strands = braid.strands();
}
