//! The greatest number of characters that a path reads. Without loops it is bounded, and a stuck
//! search goes back no further than that.
ghost use Rattle.std.specs.Prelude.{◌≡◌, ◌+◌, ◌-◌, ◌≤◌, ◌<◌, ℕ, List, All, IfSome, true, false};
ghost use Rattle.std.specs.Prelude.{Some, chars, length, map, slice_get};
ghost use Rattle.regex_lite_meta.specs.LazyDfa.Automaton.{ReadsAtMost};
ghost use Rattle.regex_lite_meta.specs.LazyDfa.Parts.{IsInPart, IsPartOf};
ghost use Rattle.regex_lite_engine.specs.declared.nfa.place.Place as code;
ghost use Rattle.regex_lite_engine.specs.Graph.Parts.{row_of};
ghost use Rattle.regex_lite_engine.specs.Graph.Places.{reading_count, reading_of};
ghost use Rattle.regex_lite_engine.specs.Graph.Stored.{LeadsBelow, place_of};
ghost use Rattle.regex_lite_engine.specs.Search.Here.{IsHere};

use crate::lazy_dfa::part::PlaceRange;
use regex_lite_engine::nfa::place::Place;
use regex_lite_engine::search::here::{Here, byte_len};

/// An upper bound of the number of places that read a character; a class may be empty.
pub(super) fn reading_in(places: &[Place]) -> usize
    ensures { reading_of (map place_of places.now) ≤ result }
{
    let mut reading = 0;
    'places: for q in 0..places.len() {
        if reads(&places[q]) {
            reading += 1;
        }
    }
    reading
}

/// Whether the place reads a character.
fn reads(place: &Place) -> bool
    ensures { result ≡ false → reading_count (place_of place.now) ≡ 0 }
{
    matches!(place, Place::Char { .. } | Place::Class { .. })
}

/// The greatest number of characters that a path reads, if a search may go back no further. The
/// part has `reading` places that read a character. It is known only for a single pattern, since
/// the lazy DFA of several patterns may be given up, and a search that began anew can't give up.
pub(super) fn reach_for(
    patterns: usize,
    places: &[Place],
    part: PlaceRange,
    reading: usize,
) -> Option<usize>
    requires inside { part.end ≤ length places.now }
    requires reading { reading_of (row_of (map place_of places.now) part.low (part.end - part.low))
        ≤ reading }
    ensures { (entries : List ℕ) → IsPartOf (map place_of places.now) entries part
        → IfSome result (ReadsAtMost (map place_of places.now) entries) }
{
    if patterns == 1 && lead_down(places, part) {
        Some(reading)
    } else {
        None
    }
}

/// Whether all arrows of the part's places lead to lower numbers, as they do if there are no loops.
fn lead_down(places: &[Place], part: PlaceRange) -> bool
    requires inside { part.end ≤ length places.now }
    ensures { result ≡ true → (q : ℕ) (place : code.Place) → IsInPart part q
        → slice_get places.now q ≡ Some place → LeadsBelow q (place_of place) }
{
    'numbers: for q in part.low..part.end {
        if !leads_below(&places[q], q) {
            return false;
        }
    }
    true
}

/// Whether all arrows of the place lead to numbers below this one.
#[tactic(auto, using(crate::proofs::lazy_dfa::ReachLemmas::one_of_below))]
fn leads_below(place: &Place, number: usize) -> bool
    ensures { result ≡ true → LeadsBelow number (place_of place.now) }
{
    match place {
        Place::Empty { to } => (*to as usize) < number,
        Place::Char { to, .. } => (*to as usize) < number,
        Place::Class { to, .. } => (*to as usize) < number,
        Place::Look { to, .. } => (*to as usize) < number,
        Place::Slot { to, .. } => (*to as usize) < number,
        Place::Choice { first, second } => {
            (*first as usize) < number && (*second as usize) < number
        }
        Place::Branches(entries) => are_below(entries, number),
        Place::Match => true,
    }
}

/// Whether all these are below the number.
fn are_below(entries: &[u32], number: usize) -> bool
    ensures { result ≡ true → All (λ entry. entry < number) entries.now }
{
    'entries: for k in 0..entries.len() {
        if entries[k] as usize >= number {
            return false;
        }
    }
    true
}

/// The position `characters` characters before this one, if it lies after the offset `after`.
pub(super) fn back(haystack: &str, from: Here, characters: usize, after: usize) -> Option<Here>
    requires { (p : ℕ) × IsHere (chars haystack.now) p from }
    ensures here { (p : ℕ) → IsHere (chars haystack.now) p from → IfSome result (λ here.
        (r : ℕ) × IsHere (chars haystack.now) r here × (r + characters ≡ p)) }
    ensures later { IfSome result (λ here. after < here.at) }
{
    let mut here = from;
    'steps: for k in 0..characters {
        if here.at <= after {
            return None;
        }
        let Some(earlier) = before(haystack, here) else {
            return None;
        };
        here = earlier;
    }
    if here.at <= after {
        return None;
    }
    Some(here)
}

/// The position one character earlier. `None` at the haystack's start.
fn before(haystack: &str, here: Here) -> Option<Here>
    requires { (p : ℕ) × IsHere (chars haystack.now) p here }
    ensures { (p : ℕ) → IsHere (chars haystack.now) p here → IfSome result (λ before.
        (r : ℕ) × IsHere (chars haystack.now) r before × (r + 1 ≡ p)) }
{
    let c = here.before?;
    Some(Here::at(haystack, here.at - byte_len(c)))
}
