//! The choice of the engine for a search. One function, [`choose`], decides it for one pattern and
//! for several, by the graph, the slots that are kept, and the number of bytes. All engines return
//! the same, so a choice affects only time.
//!
//! All constants of this choice are here, each with a measurement, in instructions. Other constants
//! are where they are used: the capacity of a lazy DFA's cache, the number of its classes and the
//! hash table of its states (`capacity`, `boundaries` and `lookup` in `lazy_dfa`) are bounded by
//! memory and by the sizes of types, and so are the widths of vectors and of sets in the crates
//! below.
ghost use Rattle.std.specs.Prelude.{◌≡◌, ◌+◌, ◌*◌, ◌<◌, ◌≤◌, ◌↔◌, IsTrue, length};

mod credit;
mod searched;
mod wanted;

pub(crate) use credit::{Credit, pays_in_one_pass};
pub(crate) use searched::Searched;
use searched::Selectivity;
pub(crate) use wanted::Wanted;

/// The number of bytes from which on a lazy DFA pays for one pattern, if no slots are kept. A
/// search of 1,000 bytes takes 0.39 to 0.63 of the instructions without one if there is no match,
/// and up to 2.9 times as many if there is a match near the start. Most shorter searches end before
/// the DFA has paid for its memory.
const LONG: usize = 1000;

/// The number of bytes from which on a lazy DFA pays if there is a search for the first character
/// of a match, if slots are kept, or for several patterns. Finding all matches of eight words took
/// 1.12 times as many instructions with it in 1,000 bytes, 1.03 times in 4,096 and 0.64 times in
/// 16,384.
const LONG_BETWEEN_MATCHES: usize = 4096;

/// The greatest number of places of a graph in which a lazy DFA finds the spans of matches with
/// slots. Its searches take 5,440 bytes there, 64 for each place. In larger graphs it can save or
/// cost: with 1,000, `([a-z]{20,80})x` took 0.05 times as many instructions and 40 words in a group
/// 0.26 times, but these words beside `(\w+)` 1.13 times and `(?s)(.{50})(.{60})` 1.49 times.
const MOST_PLACES: usize = 85;

/// The greatest number of places of the graph of several patterns in which a lazy DFA finds spans.
/// Its searches take 64 KB there. The states of larger lists often don't fit the cache: 300 words
/// and `(\w+)` took 2.2 times as many instructions.
const MOST_PLACES_OF_LIST: usize = 1024;

/// The greatest number of pairs of a place and an offset for which a one-off search uses the
/// bounded backtracker. It keeps a bit for each pair, 32 KB at most, and memory for its frames. In
/// texts of 20 bytes it takes 0.87 of the PikeVM's instructions, and 1.07 to 1.09 in 8 KB without a
/// match.
const MOST_PAIRS: usize = 262_144;

/// The greatest number of pairs for which the bounded backtracker finds the slots of a match with a
/// known span in a long text: some 200 bytes in a graph of 40 places. The stamps take 8 KB, and the
/// frames at most 128. With 2,048 pairs whole lines of a log took 2.1 times as many instructions.
const MOST_PAIRS_OF_SPAN: usize = 8192;

/// The greatest number of pairs for which the bounded backtracker finds slots in a searcher that is
/// kept for many texts, and in one for several patterns: some 300 bytes in a graph of a hundred
/// places, the lines of a log. It keeps 32 KB of stamps, and rarely touches much of the memory for
/// frames. With 2,048, lines of 150 bytes took 2.7 times as many instructions, and lines of a log
/// for a list 3.4 times.
pub(crate) const MOST_PAIRS_OF_LINE: usize = 32_768;

/// The number of positions that a one-off search scans before it builds a lazy DFA. A match near
/// the start is found sooner than a DFA is built, which takes some 2,000 instructions and two or
/// three allocations. With 16, loops of `find_at` in long texts whose matches are 20 bytes apart
/// took up to 1.44 times as many instructions as without a DFA, and with 64 up to 1.03 times. With
/// 256, a search of 1,000 bytes without a match took up to 1.5 times as many as with 64.
pub(crate) const STEPS_BEFORE_DFA: u32 = 64;

/// After this number of consecutive transitions from the start state to itself, the lazy DFA skips
/// positions at which no match can begin. With 1, words and their endings took 1.06 to 1.25 times
/// as many instructions; with 64 just as many.
pub(crate) const MOST_START_LOOPS: u32 = 8;

/// The greatest number of bytes at which no match can begin that the lazy DFA steps over instead of
/// skipping. With 0, words and their endings took 1.22 to 1.33 times as many instructions; with 16,
/// words that are ten digits apart took 1.68 times as many.
pub(crate) const NEAR: usize = 4;

/// Searches for several patterns give the lazy DFA up if more than one transition in this number of
/// bytes doesn't fit the cache. With 8, 200 words and `\w+=` took 2.4 times as many instructions,
/// since they kept it.
pub(crate) const BYTES_FOR_ONE: usize = 32;

/// Searches don't give the lazy DFA up within this number of bytes, since the start of a text may
/// be unlike the rest. With 1,024, that list took 0.35 times as many instructions, and twenty
/// others just as many.
const SPARE: usize = 8192;

/// The engine of a search.
#[derive(Clone, Copy)]
pub(crate) enum Strategy {
    /// The bounded backtracker, from each start in turn.
    DepthFirst,
    /// The PikeVM.
    OrderedSets,
    /// The PikeVM without slots, with a lazy DFA.
    LazyDfa,
    /// First a search without slots for the span of a match, then one in that span for its slots:
    /// with the bounded backtracker if there are at most `pairs` pairs of a place and an offset.
    SpanFirst { by: SpanSearch, pairs: usize },
}

impl Strategy {
    /// The greatest number of pairs for which the bounded backtracker finds the slots of a match
    /// whose span is known.
    pub(crate) fn pairs(self) -> usize {
        match self {
            Strategy::SpanFirst { pairs, .. } => pairs,
            _ => 0,
        }
    }
}

/// How a search without slots finds the span of a match.
#[derive(Clone, Copy)]
pub(crate) enum SpanSearch {
    OrderedSets,
    LazyDfa,
}

/// The engine for a search that keeps this number of slots and scans about this number of bytes.
#[inline(always)]
pub(crate) fn choose(
    searched: &Searched<'_>,
    wanted: Wanted,
    slots: usize,
    bytes: usize,
) -> Strategy
    ensures slots { result ≡ Strategy.LazyDfa → slots ≡ 0 }
    ensures bytes { result ≡ Strategy.LazyDfa → 0 < bytes }
    ensures places { result ≡ Strategy.LazyDfa → 0 < length searched.now.table.now.places }
    ensures pairs { result ≡ Strategy.DepthFirst
        → length searched.now.table.now.places * (bytes + 1) ≤ 262144 }
{
    if slots > 0 {
        if let Some(by) = searched.span_first(wanted, bytes) {
            let pairs = searched.most_pairs(bytes);
            return Strategy::SpanFirst { by, pairs };
        }
    } else if searched.pays_for_dfa(wanted, bytes) {
        return Strategy::LazyDfa;
    }
    if searched.goes_depth_first(wanted, bytes) {
        return Strategy::DepthFirst;
    }
    Strategy::OrderedSets
}

/// The number of bytes that searches for this number of patterns scan before they may give the lazy
/// DFA up. That of one pattern is never given up, since it doesn't make a transition more
/// expensive. With that of several patterns each pattern is tried at each position, and without it
/// only those that may start there.
pub(crate) fn spare_for(patterns: usize) -> usize {
    if patterns == 1 { usize::MAX } else { SPARE }
}

impl<'g> Searched<'g> {
    /// Whether a search without slots uses a lazy DFA. By measurement it doesn't pay if nothing
    /// reads a character: each match is empty then, and one transition finds it. Nor does it if
    /// there is a search for the first character of a match and nothing branches after it, or if an
    /// index excludes most patterns at most positions. But most of many searches don't touch the
    /// PikeVM's memory: if matches begin with a character of a range, finding all dates in 16 KB of
    /// a log took 0.23 times as many instructions as without the DFA, and all digits 0.61 times.
    ///
    /// A search from a later offset is mostly one of many, from match to match, and short. The
    /// bounded backtracker then takes fewer instructions than transitions: loops of `find_at` over
    /// words in 16 KB took 5.2 million instead of 7.5. If there is a search for the first
    /// character, a lazy DFA for each search costs more than it saves: eight words took 1.22 times
    /// as many.
    #[inline(always)]
    fn pays_for_dfa(&self, wanted: Wanted, bytes: usize) -> bool
        ensures bytes { IsTrue result → 0 < bytes }
        ensures places { IsTrue result → 0 < length self.now.table.now.places }
    {
        // A list may have no pattern.
        if bytes < self.long() || self.table.places() == 0 {
            return false;
        }
        match self.selectivity() {
            Selectivity::Often => !(wanted.is_later() && self.goes_depth_first(wanted, bytes)),
            Selectivity::InRange if wanted.is_each() => bytes >= LONG_BETWEEN_MATCHES,
            Selectivity::InRange | Selectivity::Rarely => {
                !wanted.is_later() && bytes >= LONG_BETWEEN_MATCHES && self.branches()
            }
            Selectivity::Unread | Selectivity::Indexed => false,
        }
    }

    /// How the span of a match is found before its slots, where that pays: in long haystacks, with
    /// a lazy DFA. For a list it takes 0.07 times as many instructions for two word endings, 0.81
    /// to 1.05 times if each match is a character, and up to 1.32 times if each is empty. A list
    /// needs no DFA for this to pay, since a search for one pattern in a known span costs less than
    /// keeping the slots of all patterns: it takes 0.35 to 0.98 times as many.
    // Not inlined, so that the memory of a searcher without it is cleared once less.
    #[inline(never)]
    fn span_first(&self, wanted: Wanted, bytes: usize) -> Option<SpanSearch> {
        if bytes < LONG_BETWEEN_MATCHES || !wanted.may_search_twice() {
            return None;
        }
        if self.is_line_by_line(bytes) {
            return Some(if self.pays_for_dfa(wanted, bytes) {
                SpanSearch::LazyDfa
            } else {
                SpanSearch::OrderedSets
            });
        }
        if self.pays_for_spans() {
            return Some(SpanSearch::LazyDfa);
        }
        if self.are_several() && wanted.is_each() {
            return Some(SpanSearch::OrderedSets);
        }
        None
    }

    /// Whether a lazy DFA that finds spans pays, if another search finds the slots. In a graph of
    /// few places the memory for both stays small. If each match begins with one of a few bytes, it
    /// pays since the search for slots stops at the match's end: a URL with three groups took 50
    /// instructions a byte instead of 113, and `\b(the|and) (\w+)\b` 52 instead of 62. If matches
    /// are rare it costs its memory: `\b(q\w+)\b` took 3.0 instead of 2.1.
    fn pays_for_spans(&self) -> bool {
        let is_small = self.table.places() <= self.most_places();
        is_small && !matches!(self.selectivity(), Selectivity::Indexed)
    }

    /// Whether a one-off search for a match uses the bounded backtracker.
    #[inline(always)]
    fn goes_depth_first(&self, wanted: Wanted, bytes: usize) -> bool
        ensures { IsTrue result → length self.now.table.now.places * (bytes + 1) ≤ 262144 }
    {
        wanted.is_one() && !self.are_several() && self.has_few_pairs(bytes)
    }

    /// Whether the pairs of a place and an offset in this number of bytes are few enough to keep a
    /// bit for each.
    #[inline(always)]
    fn has_few_pairs(&self, bytes: usize) -> bool
        ensures { IsTrue result
            ↔ (length self.now.table.now.places * (bytes + 1) ≤ 262144) }
    {
        // The length is in bytes: in characters, each search in a loop over a long haystack would
        // count them again.
        self.table.places().saturating_mul(bytes.saturating_add(1)) <= MOST_PAIRS
    }

    /// The number of bytes from which on a lazy DFA may pay.
    #[inline(always)]
    fn long(&self) -> usize
        ensures { 0 < result }
    {
        if self.are_several() {
            LONG_BETWEEN_MATCHES
        } else {
            LONG
        }
    }

    /// Whether this is one pattern in the haystacks of a searcher that a caller keeps: together
    /// they are endless, and each is short. Most have no match, so that the search without slots is
    /// all that they need. With slots from the start, lines of a log with two groups took 1.7 times
    /// as many instructions.
    fn is_line_by_line(&self, bytes: usize) -> bool {
        bytes == usize::MAX && !self.are_several()
    }

    /// The greatest number of places for which a lazy DFA finds spans.
    fn most_places(&self) -> usize {
        if self.are_several() {
            MOST_PLACES_OF_LIST
        } else {
            MOST_PLACES
        }
    }

    /// The greatest number of pairs for which the bounded backtracker finds the slots of a match
    /// whose span is known.
    fn most_pairs(&self, bytes: usize) -> usize {
        if self.are_several() || self.is_line_by_line(bytes) {
            MOST_PAIRS_OF_LINE
        } else {
            MOST_PAIRS_OF_SPAN
        }
    }
}
