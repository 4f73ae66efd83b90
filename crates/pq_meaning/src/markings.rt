//! No marking of words that tells apart what queries tell apart has fewer marks than there are tags.
ghost use Rattle.std.specs.Prelude.{ℕ};
ghost use Rattle.pq_model.specs.Word.{Word};
ghost use Rattle.pq_meaning.specs.Markings.{HasClassPerMark, HasMarkPerClass, IsCarriedOn, KeepsHeld, KeepsParity, TagsMark, TellsApart};

/// A marking of words of packets by numbers: words with equal marks have lengths of equal parity, are held by the same
/// instances, and have equal marks again after each same observation.
pub trait Marking {
    // For each instance, by its number, the words that it holds.
    ghost languages: { ℕ → Word → Type 0 };

    // The mark of each word.
    ghost mark: { Word → ℕ };

    ghost parity: { KeepsParity mark };

    ghost held: { KeepsHeld languages mark };

    ghost carried: { IsCarriedOn mark };
}

/// Law. A marking gives different marks to words that aren't the same (after Myhill and Nerode), so it has at least as many
/// marks as there are classes of words.
pub fn tags_are_fewest<M: Marking>()
    ensures apart { TellsApart M.languages M.mark }
    ensures fewest { HasMarkPerClass M.languages M.mark }
    ensures below { HasClassPerMark M.languages M.mark }
{}

/// Law. The tags of the words of queries are such a marking, with as many marks as there are classes.
pub fn tags_are_marks()
    ensures { TagsMark }
{}
