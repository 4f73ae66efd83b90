ghost use Rattle.std.specs.Prelude.{◌≡◌, true, false};
ghost use Rattle.pq_model.specs.Classes.{AllObservedFit};
ghost use Rattle.pq_model.specs.Word.{Word, is_word, word_is_before};
ghost use Rattle.pq_letters.specs.Words.{least_word, letters_are_before, letters_of};

use crate::letters::Letters;

/// Where each packet of a word is replaced by the least packet of its letter, the word is one of observations still, has the
/// same letters and is no greater; and of two words of least packets that lead as far, the one with the lesser letters is the
/// lesser one. So classes that are numbered by least words of letters are numbered by least words of packets. It does nothing
/// when it runs: a caller that follows words by their letters may call it to know this.
pub fn least_packets_spell_letters(letters: &Letters)
    ensures letters { (w : Word) → AllObservedFit w → letters_of letters.now (least_word letters.now w) ≡ letters_of letters.now w }
    ensures word { (w : Word) → AllObservedFit w → is_word w ≡ true → is_word (least_word letters.now w) ≡ true }
    ensures least { (w : Word) → AllObservedFit w → word_is_before w (least_word letters.now w) ≡ false }
    ensures order { (v w : Word) → AllObservedFit v → AllObservedFit w
        → letters_are_before (letters_of letters.now v) (letters_of letters.now w) ≡ true
        → word_is_before (least_word letters.now v) (least_word letters.now w) ≡ true }
{
    let _ = letters.count();
}
