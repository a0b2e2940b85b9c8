//! A searcher for the groups of matches, which reuses its memory.
ghost use Rattle.std.specs.Prelude.{◌≡◌, ◌≤◌, ◌/◌, ℕ, Some, IfOk, IfErr, length, take};
ghost use Rattle.regex_lite_syntax.specs.Errors.{out_of_memory};
ghost use Rattle.regex_lite_engine.specs.Search.Outcomes.{IsSpanOutcome};
ghost use Rattle.regex_lite_meta.specs.Searching.{FindsSpan};
ghost use Rattle.regex_lite.specs.Expression.{OfTree};
ghost use Rattle.regex_lite.specs.Groups.{spans_of};

use crate::string::held::HeldRegex;
use crate::string::locations::CaptureLocations;
use regex_lite_meta::SlotSearcher;
use regex_lite_syntax::Error;
use std::marker::Model;

/// A regex, and the memory of the searches for the slots of its matches.
#[derive(Drop)]
pub(super) struct GroupSearcher<'r> {
    regex: HeldRegex<'r>,
    inner: SlotSearcher,
}

impl<'r> Model for GroupSearcher<'r> {
    ghost use Rattle.regex_lite.specs.Scanning.{RegexSearching};
    ghost use Rattle.regex_lite_meta.specs.Searching.{FindsSlotsOf, found_slots};

    ghost Value = { RegexSearching };

    ghost view = { λ searcher. record {
      regex = searcher.regex.pattern;
      slots = found_slots searcher.inner;
    } };

    ghost invariant = { λ searcher. FindsSlotsOf searcher.regex.graph searcher.inner };
}

impl<'r> GroupSearcher<'r> {
    /// A searcher of this regex, for matches with `slots` slots.
    pub fn new(regex: HeldRegex<'r>, slots: usize) -> Result<GroupSearcher<'r>, Error>
        ensures regex { IfOk result (λ searcher. searcher.regex ≡ regex.entry.pattern) }
        ensures slots { IfOk result (λ searcher. length searcher.slots ≡ slots) }
        ensures refused { IfErr result (λ error. error ≡ out_of_memory) }
    {
        let inner = SlotSearcher::new(regex.alloc(), regex.graph(), slots)?;
        Ok(GroupSearcher { regex, inner })
    }

    /// Finds the groups of the match with this span, and writes them to the locations.
    ///
    /// Conditions: a search from some offset finds a match with this span. The locations have no
    /// more groups than the searcher has slots for.
    pub fn read(&mut self, haystack: &str, span: (usize, usize), locs: &mut CaptureLocations)
        requires known { OfTree self.old.regex
            (λ tree. (start : ℕ) × FindsSpan tree haystack.now start span) }
        requires room { length locs.old ≤ length self.old.slots / 2 }
        ensures found { (start : ℕ)
            → OfTree self.old.regex (λ tree. FindsSpan tree haystack.now start span)
            → OfTree self.old.regex
            (λ tree. IsSpanOutcome tree haystack.now start self.new.slots (Some span)) }
        ensures spans { locs.new ≡ take (length locs.old) (spans_of self.new.slots) }
        ensures len { length locs.new ≡ length locs.old }
        ensures regex { self.new.regex ≡ self.old.regex }
        ensures slots { length self.new.slots ≡ length self.old.slots }
    {
        self.inner.find(self.regex.graph(), haystack, span);
        locs.write(self.inner.slots());
    }
}
