//! The slots of a match: those that a search keeps for its groups, and all of them.
ghost use Rattle.std.specs.Prelude.{◌≡◌, ◌*◌, [], ◌∷◌, ℕ, Some, IfOk, length};
ghost use Rattle.regex_lite_syntax.specs.Tree.Properties.{captures_len};
ghost use Rattle.regex_lite.specs.Expression.{OfTree};
ghost use Rattle.regex_lite.specs.Slots.{all_slots, kept_slots};

use crate::string::regex::Regex;
use std::alloc::{AllocError, Global};

impl Regex {
    /// The number of slots of the groups: two for each.
    pub(super) fn slots(&self) -> usize
        ensures { OfTree self.now (λ tree. result ≡ 2 * captures_len tree) }
    {
        2 * self.compiled.graph.capture_names().len()
    }

    /// The number of slots that a search for the groups keeps. If the whole match is the only
    /// group, its span suffices: the search keeps no slots, and is as fast as one for the match.
    pub(super) fn kept_slots(&self) -> usize
        ensures { OfTree self.now (λ tree. result ≡ kept_slots (captures_len tree)) }
    {
        kept_of(self.slots())
    }
}

/// The number of slots that a search keeps for groups with this many slots: none if they are those
/// of the whole match alone.
pub(super) fn kept_of(slots: usize) -> usize
    ensures { (groups : ℕ) → slots ≡ 2 * groups → result ≡ kept_slots groups }
{
    if slots == 2 { 0 } else { slots }
}

/// Room for the slots of the whole match, if a search keeps none for its groups.
pub(super) fn whole_slots(alloc: Global, kept: usize) -> Result<Vec<Option<usize>>, AllocError>
    ensures { IfOk result (λ whole. kept ≡ 0 → length whole.items ≡ 2) }
{
    let count = if kept == 0 { 2 } else { 0 };
    vec![in alloc; None; count]
}

/// The slots of all groups of a match with this span, of which a search kept these. If it kept
/// none, the slots of the whole match go to the memory that was allocated before the search.
pub(super) fn slots_with(
    kept: Vec<Option<usize>>,
    mut whole: Vec<Option<usize>>,
    span: (usize, usize),
) -> Vec<Option<usize>>
    requires { kept.items ≡ [] → length whole.items ≡ 2 }
    ensures { result.items ≡ all_slots kept.items span }
{
    if !kept.is_empty() {
        return kept;
    }
    whole[0] = Some(span.0);
    whole[1] = Some(span.1);
    whole
}

/// The slots of all groups of a match, of which a search kept these: the two of the whole match if
/// it kept none.
pub(super) fn or_whole<'s>(
    kept: &'s [Option<usize>],
    whole: &'s [Option<usize>],
) -> &'s [Option<usize>]
    ensures { (span : ℕ × ℕ) → whole.now ≡ Some span.0 ∷ Some span.1 ∷ []
        → result.now ≡ all_slots kept.now span }
{
    if kept.is_empty() { whole } else { kept }
}

/// The slots of all groups of a match with this span, of which a search kept these.
pub(super) fn all_slots(
    mut kept: Vec<Option<usize>>,
    span: (usize, usize),
) -> Result<Vec<Option<usize>>, AllocError>
    ensures { IfOk result (λ slots. slots.items ≡ all_slots kept.items span) }
{
    if kept.is_empty() {
        kept.reserve_exact(2)?;
        kept.extend_from_slice(&[Some(span.0), Some(span.1)])?;
    }
    Ok(kept)
}
