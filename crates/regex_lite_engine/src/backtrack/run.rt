//! A whole search, from start to start.
ghost use Rattle.std.specs.Prelude.{◌≡◌, ◌<◌, IfSome, chars, length, true};
ghost use Rattle.regex_lite_engine.specs.Backtrack.Searching.{IsFresh};
ghost use Rattle.regex_lite_engine.specs.Graph.Renumbered.{arrows_of};
ghost use Rattle.regex_lite_engine.specs.Graph.Stored.{places_of};
ghost use Rattle.regex_lite_engine.specs.Search.Bounds.{IsBounded, StaysCounted, characters_left};
ghost use Rattle.regex_lite_engine.specs.Search.Offsets.{position_at};
ghost use Rattle.regex_lite_engine.specs.Search.NumberedOutcomes.{IsNumberedOutcome, best_at};
ghost use Rattle.regex_lite_engine.specs.Search.Counting.{CanCount};
ghost use Rattle.regex_lite_engine.specs.Search.Here.{IsHere};

use crate::backtrack::walk::Backtracker;
use crate::search::here::Here;
use crate::search::one_pattern::OnePattern;

/// Tries each start in turn, up to the first from which there is a match. Returns the match's span;
/// its slots are those of the walk. If COUNTED, the steps are counted.
pub fn run<const COUNTED: bool>(
    walk: &mut Backtracker,
    pattern: &OnePattern<'_>,
    haystack: &str,
    first: Here,
) -> Option<(usize, usize)>
    requires here { IsHere (chars haystack.now) (position_at haystack.now first.at) first }
    requires fresh { IsFresh (places_of pattern.now.table.now) haystack.now first.at walk.old }
    requires counts { CanCount (places_of pattern.now.table.now) 1
        (characters_left (chars haystack.now) (position_at haystack.now first.at)) }
    ensures found { IsNumberedOutcome (places_of pattern.now.table.now) (chars haystack.now)
        pattern.now.entry (position_at haystack.now first.at)
        (best_at result walk.new.stack.row) }
    ensures bounded { IsBounded (length (places_of pattern.now.table.now))
        (arrows_of (places_of pattern.now.table.now)) (chars haystack.now)
        (position_at haystack.now first.at) walk.new.steps.tried walk.new.steps.entered
        walk.new.steps.looked }
    ensures counts { StaysCounted walk.old.steps walk.new.steps }
    ensures entry { COUNTED ≡ true → IfSome result (λ _. 0 < walk.new.steps.entered) }
    ensures width { length walk.new.stack.row ≡ length walk.old.stack.row }
    ensures room { walk.new.stack.room ≡ walk.old.stack.room }
    ensures pairs { walk.new.visited.room ≡ walk.old.visited.room }
{
    let mut here = first;
    'starts: loop {
        if let Some(end) = walk.explore::<COUNTED>(
            pattern.table,
            pattern.entry,
            haystack,
            here.at,
        ) {
            return Some((here.at, end));
        }
        let Some(next) = pattern.start_after(haystack, here) else {
            return None;
        };
        here = next;
    }
}
