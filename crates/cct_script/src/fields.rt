//! The fields of a line, which single spaces part.
ghost use Rattle.std.specs.Prelude.{◌≡◌, ◌≢◌, [], ◌∷◌, length, MatchOption};
ghost use Rattle.std.specs.List.{slice_split};
ghost use Rattle.cct_model_lines.specs.Grammar.{is_space, alone};
ghost use Rattle.cct_script.specs.Fields.{fields_after};

use crate::bytes::place_of;

/// The first field of a line, and what is after its space, if there is one.
pub(crate) fn first_field(line: &[u8]) -> (&[u8], Option<&[u8]>)
    ensures { slice_split is_space line.now ≡ result.0.now ∷ fields_after result.1 }
{
    match place_of(line, b' ') {
        Some(at) => (&line[..at], Some(&line[at + 1..])),
        None => (line, None),
    }
}

/// What a word says that stands alone on its line.
#[tactic(auto, using(crate::proofs::Forms::not_alone))]
pub(crate) fn alone<T: Drop>(said: T, rest: Option<&[u8]>) -> Option<T>
    ensures { result ≡ alone said (fields_after rest.entry) }
{
    match rest {
        None => Some(said),
        Some(_) => None,
    }
}

/// The one field after a word.
#[tactic(auto, using(crate::proofs::Splits::split_not_empty))]
pub(crate) fn one(rest: Option<&[u8]>) -> Option<&[u8]>
    ensures { MatchOption result (length (fields_after rest.entry) ≢ 1)
        (λ field. fields_after rest.entry ≡ field.now ∷ []) }
{
    let (first, rest) = first_field(rest?);
    match rest {
        None => Some(first),
        Some(_) => None,
    }
}

/// The two fields after a word.
pub(crate) fn two(rest: Option<&[u8]>) -> Option<(&[u8], &[u8])>
    ensures { MatchOption result (length (fields_after rest.entry) ≢ 2)
        (λ fields. fields_after rest.entry ≡ fields.0.now ∷ fields.1.now ∷ []) }
{
    let (first, rest) = first_field(rest?);
    let second = one(rest)?;
    Some((first, second))
}

/// The three fields after a word.
pub(crate) fn three(rest: Option<&[u8]>) -> Option<(&[u8], &[u8], &[u8])>
    ensures { MatchOption result (length (fields_after rest.entry) ≢ 3)
        (λ fields. fields_after rest.entry ≡ fields.0.now ∷ fields.1.now ∷ fields.2.now ∷ []) }
{
    let (first, rest) = first_field(rest?);
    let (second, third) = two(rest)?;
    Some((first, second, third))
}

/// The four fields after a word.
pub(crate) fn four(rest: Option<&[u8]>) -> Option<(&[u8], &[u8], &[u8], &[u8])>
    ensures { MatchOption result (length (fields_after rest.entry) ≢ 4)
        (λ fields. fields_after rest.entry ≡ fields.0.now ∷ fields.1.now ∷ fields.2.now ∷ fields.3.now ∷ []) }
{
    let (first, rest) = first_field(rest?);
    let (second, third, fourth) = three(rest)?;
    Some((first, second, third, fourth))
}

/// The five fields after a word.
pub(crate) fn five(rest: Option<&[u8]>) -> Option<(&[u8], &[u8], &[u8], &[u8], &[u8])>
    ensures { MatchOption result (length (fields_after rest.entry) ≢ 5)
        (λ fields. fields_after rest.entry ≡
        fields.0.now ∷ fields.1.now ∷ fields.2.now ∷ fields.3.now ∷ fields.4.now ∷ []) }
{
    let (first, rest) = first_field(rest?);
    let (second, third, fourth, fifth) = four(rest)?;
    Some((first, second, third, fourth, fifth))
}
