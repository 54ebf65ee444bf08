//! What was given for the arguments of a subcommand.
ghost use Rattle.std.specs.Prelude.{◌≡◌, ◌≤◌, ◌^◌, ◌∷◌, [], IfNone, IfSome, IsSomeAnd, Some, codes};
ghost use Rattle.std.specs.Prelude.{length, map, option_map};
ghost use Rattle.clap.specs.Words.{all_of, found_of, first_of, one_of, rows_of};
ghost use Rattle.command_line.specs.Job.{IsFlag, IsGiven, class_word, number_in};
ghost use Rattle.command_line.specs.Values.{IsNumberBelow, IsOfKind, IsOfKindIfGiven};

use crate::words::WordKind;
use clap::ArgMatches;
use torus::Class;

/// The word that was given for an argument.
pub(crate) fn word<'a>(given: &ArgMatches<'a>, id: &str) -> Option<&'a str>
    ensures word { option_map (λ s. s.now) result ≡ first_of id.now (rows_of (found_of given.now)) }
    ensures none { IfNone result
        (IsOfKind WordKind.Path id.now (rows_of (found_of given.now)) → ⊥) }
{
    given.get_str(id)
}

/// The two words that were given for an option, where it is given; `None` where it has not two.
#[tactic(auto, using(crate::proofs::Rows::all_values_rows))]
pub(crate) fn two_words<'a>(given: &ArgMatches<'a>, id: &str) -> Option<Option<(&'a str, &'a str)>>
    ensures words { IfSome result (λ pair. all_of id.now (rows_of (found_of given.now))
        ≡ option_map (λ p. p.0.now ∷ p.1.now ∷ []) pair) }
    ensures none { IfNone result
        (IsOfKindIfGiven WordKind.RunTexts id.now (rows_of (found_of given.now)) → ⊥) }
{
    match given.get_strs(id) {
        None => Some(None),
        Some(words) => Some(Some(pair(words)?)),
    }
}

/// Two words, where there are no more and no fewer.
fn pair<'a>(words: &[&'a str]) -> Option<(&'a str, &'a str)>
    ensures words { IfSome result
        (λ pair. map (λ word. word.now) words.now ≡ pair.0.now ∷ pair.1.now ∷ []) }
    ensures none { IfNone result (length words.now ≡ 2 → ⊥) }
{
    match words {
        [first, second] => Some((*first, *second)),
        _ => None,
    }
}

/// The number that was given for an argument, from the least to the most that is allowed.
pub(crate) fn number(given: &ArgMatches<'_>, id: &str, least: u32, most: u32) -> Option<u32>
    ensures given { IfSome result
        (λ n. number_in id.now (rows_of (found_of given.now)) ≡ Some n) }
    ensures within { IfSome result (λ n. (least ≤ n) × (n ≤ most)) }
    ensures none { IfNone result
        (IsOfKind (WordKind.Number least most) id.now (rows_of (found_of given.now)) → ⊥) }
{
    let number = any_number(given, id)?;
    if number < least || number > most {
        return None;
    }
    Some(number)
}

/// The number of 32 bits that was given for an argument.
fn any_number(given: &ArgMatches<'_>, id: &str) -> Option<u32>
    ensures number { IfSome result (λ n. number_in id.now (rows_of (found_of given.now)) ≡ Some n) }
    ensures none { IfNone result
        (IsSomeAnd (one_of id.now (rows_of (found_of given.now))) (IsNumberBelow (2 ^ 32)) → ⊥) }
{
    given.get_one::<u32>(id)
}

/// The number of 64 bits that was given for an argument.
pub(crate) fn long_number(given: &ArgMatches<'_>, id: &str) -> Option<u64>
    ensures number { IfSome result (λ n. number_in id.now (rows_of (found_of given.now)) ≡ Some n) }
    ensures none { IfNone result
        (IsOfKind WordKind.Long id.now (rows_of (found_of given.now)) → ⊥) }
{
    given.get_one::<u64>(id)
}

/// The number of 64 bits that was given for an argument, where there is one.
pub(crate) fn long_number_if_given(given: &ArgMatches<'_>, id: &str) -> Option<Option<u64>>
    ensures number { IfSome result (λ n. number_in id.now (rows_of (found_of given.now)) ≡ n) }
    ensures none { IfNone result
        (IsOfKindIfGiven WordKind.Long id.now (rows_of (found_of given.now)) → ⊥) }
{
    if given.contains_id(id) {
        Some(Some(long_number(given, id)?))
    } else {
        Some(None)
    }
}

/// The number that was given for an option, from 1 to the most that is allowed, where there is one.
pub(crate) fn number_if_given(given: &ArgMatches<'_>, id: &str, most: u32) -> Option<Option<u32>>
    ensures given { IfSome result (λ n. number_in id.now (rows_of (found_of given.now)) ≡ n) }
    ensures within { IfSome result (λ n. IfSome n (λ n. (1 ≤ n) × (n ≤ most))) }
    ensures none { IfNone result
        (IsOfKindIfGiven (WordKind.Number 1 most) id.now (rows_of (found_of given.now)) → ⊥) }
{
    if given.contains_id(id) {
        Some(Some(number(given, id, 1, most)?))
    } else {
        Some(None)
    }
}

/// Whether the flag of this name is given.
pub(crate) fn flag_of(given: &ArgMatches<'_>, id: &str) -> Option<bool>
    ensures flag { IfSome result (λ is. IsFlag id.now is (rows_of (found_of given.now))) }
    ensures none { IfNone result
        (IsOfKind WordKind.Flag id.now (rows_of (found_of given.now)) → ⊥) }
{
    given.get_one::<bool>(id)
}

/// Whether the flag of this name is given, and not where the subcommand has none.
pub(crate) fn is_given(given: &ArgMatches<'_>, id: &str) -> bool
    ensures { IsGiven id.now result (rows_of (found_of given.now)) }
{
    given.get_one::<bool>(id).unwrap_or(false)
}

/// The class of the packets of a route: that of replies where the words say so.
pub(crate) fn class(given: &ArgMatches<'_>) -> Option<Class>
    ensures class { IfSome result
        (λ class. one_of (codes "reply") (rows_of (found_of given.now)) ≡ Some (class_word class)) }
    ensures none { IfNone result
        (IsOfKind WordKind.Flag (codes "reply") (rows_of (found_of given.now)) → ⊥) }
{
    if flag_of(given, "reply")? {
        Some(Class::Reply)
    } else {
        Some(Class::Request)
    }
}
