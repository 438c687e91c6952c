// The patterns among the words of a tool.
ghost use Rattle.std.specs.Prelude.{◌≡◌, ◌++◌, IfOk, IfErr, option_map, option_to_list, true};
ghost use Rattle.dc_run.specs.Inside.{IsUnbuilt, comes_before};
ghost use Rattle.dc_run.specs.Starting.{are_patterns, in_order, sought};

use crate::outcome::{End, PatternAt, end_of_pattern};
use dc_cli::PlacedWord;
use dc_layer::Pattern;
use std::alloc::Global;

/// The patterns of two words that may be given. Of two that are refused the one decides that comes first among the words.
pub fn both_patterns(
    alloc: Global,
    one: &Option<PlacedWord>,
    other: &Option<PlacedWord>,
) -> Result<(Option<Pattern>, Option<Pattern>), End>
    ensures built { IfOk result (λ both. (both.0 ≡ option_map sought one.now) × (both.1 ≡ option_map sought other.now)) }
    ensures patterns { IfOk result (λ both. are_patterns (in_order one.now other.now) ≡ true) }
    ensures unbuilt { IfErr result (IsUnbuilt (in_order one.now other.now)) }
{
    if comes_first(other, one) {
        let (later, pattern) = patterns_of(alloc, other, one)?;
        Ok((pattern, later))
    } else {
        patterns_of(alloc, one, other)
    }
}

// The patterns of two words that may be given, of which the one is built before the other.
fn patterns_of(
    alloc: Global,
    one: &Option<PlacedWord>,
    other: &Option<PlacedWord>,
) -> Result<(Option<Pattern>, Option<Pattern>), End>
    ensures built { IfOk result (λ both. (both.0 ≡ option_map sought one.now) × (both.1 ≡ option_map sought other.now)) }
    ensures patterns { IfOk result (λ both. are_patterns (option_to_list one.now ++ option_to_list other.now) ≡ true) }
    ensures unbuilt { IfErr result (IsUnbuilt (option_to_list one.now ++ option_to_list other.now)) }
{
    let pattern = pattern_of(alloc, one)?;
    let later = pattern_of(alloc, other)?;
    Ok((pattern, later))
}

// Whether both words are given, and the one stands before the other.
fn comes_first(one: &Option<PlacedWord>, other: &Option<PlacedWord>) -> bool
    ensures { result ≡ comes_before one.now other.now }
{
    match (one, other) {
        (Some(one), Some(other)) => one.place < other.place,
        _ => false,
    }
}

// The pattern of a word that may be given.
fn pattern_of(alloc: Global, word: &Option<PlacedWord>) -> Result<Option<Pattern>, End>
    ensures built { IfOk result (λ pattern. pattern ≡ option_map sought word.now) }
    ensures patterns { IfOk result (λ pattern. are_patterns (option_to_list word.now) ≡ true) }
    ensures unbuilt { IfErr result (IsUnbuilt (option_to_list word.now)) }
{
    match word {
        None => Ok(None),
        Some(given) => match Pattern::build(alloc, given.word.bytes(), false) {
            Ok(pattern) => Ok(Some(pattern)),
            Err(error) => Err(end_of_pattern(PatternAt::Word(given.place), error)),
        },
    }
}
