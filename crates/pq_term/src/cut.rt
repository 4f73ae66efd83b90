//! A text cut at its first separator.
ghost use Rattle.std.specs.Prelude.{◌≡◌, ◌<◌, ◌∷◌, length, position, option_copied, IfSome, ◌==◌};
ghost use Rattle.pq_term.specs.Groups.{before_separator, behind_separator, parts, parts_in};

/// The place of the first separator.
fn separator_place(separator: u8, text: &[u8]) -> Option<usize>
    ensures { result ≡ position (λ b. b == separator) text.now }
{
    text.iter().position(|byte| *byte == separator)
}

/// What is before the first separator, or all where there is none; and what is after it, where there is
/// one. So the parts that all separators cut the text into are the first part and the parts of what is after.
#[tactic(auto, using(crate::proofs::Cuts::part_ended, crate::proofs::Cuts::part_alone))]
pub fn cut_at(separator: u8, text: &[u8]) -> (&[u8], Option<&[u8]>)
    ensures before { result.0.now ≡ before_separator separator text.now }
    ensures behind { option_copied result.1 ≡ behind_separator separator text.now }
    ensures parts { parts separator text.now ≡ result.0.now ∷ parts_in separator (option_copied result.1) }
    ensures shorter { IfSome result.1 (λ rest. length rest.now < length text.now) }
{
    match separator_place(separator, text) {
        Some(place) => (&text[..place], Some(&text[place + 1..])),
        None => (text, None),
    }
}
