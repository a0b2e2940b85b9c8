//! Building lazy DFAs with empty caches.
ghost use Rattle.std.specs.Prelude.{◌∷◌, [], IfSome};
ghost use Rattle.regex_lite_meta.specs.LazyDfa.Spans.{IsDfaFor};
ghost use Rattle.regex_lite_engine.specs.Graph.Stored.{places_of};
ghost use Rattle.regex_lite_engine.specs.Graph.StoredList.{table_of_list};
ghost use Rattle.regex_lite_engine.specs.Search.Starts.{AreAllStarts};

use crate::lazy_dfa::automaton::LazyDfa;
use crate::lazy_dfa::capacity::Capacity;
use crate::lazy_dfa::classes::Classes;
use crate::lazy_dfa::part::PlaceRange;
use crate::lazy_dfa::reach::{reach_for, reading_in};
use crate::strategy::spare_for;
use regex_lite_engine::nfa::list::GraphList;
use regex_lite_engine::search::all_of_list::AllOfList;
use regex_lite_engine::search::one_pattern::OnePattern;
use regex_lite_engine::search::patterns::Patterns;
use std::alloc::Global;

impl LazyDfa {
    /// A lazy DFA for these patterns, each of which starts everywhere. Its cache is empty, and its
    /// classes are those of the places that searches for the patterns can reach. `None` if there
    /// are too many classes or memory runs out: then transitions are computed each time.
    pub(crate) fn for_patterns<P: Patterns>(alloc: Global, all: &P) -> Option<LazyDfa>
        requires { AreAllStarts (P.table all.now) (P.entries all.now) (P.starts all.now) }
        ensures { IfSome result (IsDfaFor (P.table all.now) (P.entries all.now)) }
    {
        let patterns = all.len();
        let part = PlaceRange::of(all)?;
        let places = all.table().all();
        let own = &places[part.low..part.end];
        let classes = Classes::of(own)?;
        let reading = reading_in(own);
        let reach = reach_for(patterns, places, part, reading);
        let room = Capacity::of(reading, patterns, &classes);
        match LazyDfa::new(alloc, classes, room, spare_for(patterns), reach) {
            Ok(made) => Some(made),
            Err(_) => None,
        }
    }

    /// A lazy DFA for this pattern.
    #[inline(never)]
    pub(crate) fn for_one(alloc: Global, pattern: &OnePattern<'_>) -> Option<LazyDfa>
        ensures { IfSome result
            (IsDfaFor (places_of pattern.now.table.now) (pattern.now.entry ∷ [])) }
    {
        LazyDfa::for_patterns(alloc, &pattern.everywhere())
    }

    /// A lazy DFA for all patterns of this list.
    pub(crate) fn for_list(alloc: Global, list: &GraphList) -> Option<LazyDfa>
        ensures { IfSome result (IsDfaFor (table_of_list list.now) list.now.entries) }
    {
        // Each entry is a place of the graph.
        let _entries = list.entries();
        LazyDfa::for_patterns(alloc, &AllOfList { list })
    }
}
