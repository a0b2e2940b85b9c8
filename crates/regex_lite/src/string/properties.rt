//! Properties of a regex: its groups, and the size of the compiled pattern.
ghost use Rattle.std.specs.Prelude.{◌≡◌, ◌*◌, ◌^◌, ◌<◌, ℕ};
ghost use Rattle.regex_lite_syntax.specs.Tree.Properties.{captures_len, nullable};
ghost use Rattle.regex_lite_syntax.specs.Tree.Properties.{static_captures_len};
ghost use Rattle.regex_lite_engine.specs.Graph.PlaceCounts.{whole_places, whole_arrows};
ghost use Rattle.regex_lite.specs.CaptureNames.{names_left};
ghost use Rattle.regex_lite.specs.Expression.{AreNames, OfTree};
ghost use Rattle.regex_lite.specs.Searches.{IsStaticNumber};

use crate::string::capture_names::CaptureNames;
use crate::string::regex::Regex;

impl Regex {
    /// The number of groups of a match, including the whole match.
    ///
    /// This is one more than the greatest index of a group that remains: groups under `{0}` are
    /// numbered, but removed.
    ///
    /// ```
    /// Regex::new(alloc, "(a)(?<x>b)")?.captures_len(); // 3
    /// ```
    ///
    /// The test `examples::group_count` in tests/unit runs this example.
    pub fn captures_len(&self) -> usize
        ensures { OfTree self.now (λ tree. result ≡ captures_len tree) }
    {
        self.compiled.graph.capture_names().len()
    }

    /// The names of the groups by index, `None` for a group without a name.
    ///
    /// The whole match, which comes first, has no name, and neither have groups under `{0}`.
    ///
    /// ```
    /// let regex = Regex::new(alloc, "(a)(?<x>b)")?;
    /// let mut names = regex.capture_names();
    /// names.nth(2); // Some(Some("x"))
    /// ```
    ///
    /// The test `examples::names` in tests/unit runs this example.
    pub fn capture_names(&self) -> CaptureNames<'_>
        ensures { OfTree self.now (AreNames (names_left result)) }
    {
        CaptureNames::new(self.compiled.graph.capture_names())
    }

    /// The least number of groups that take part in every match, including the whole match, if it
    /// is known.
    ///
    /// It is `None` if a repetition that may make no pass contains a group, or if branches differ
    /// in the number of their groups that take part. More groups may take part: `(?:(a)|(b)){2}`
    /// has 2, and in a match of `ab` all three do.
    pub fn static_captures_len(&self) -> Option<usize>
        ensures known { OfTree self.now (λ tree. result ≡ static_captures_len tree) }
        ensures told { IsStaticNumber self.now result }
    {
        self.compiled.graph.static_captures_len()
    }

    /// Whether the pattern may match the empty text if its looks, such as `^` and `\b`, are assumed
    /// to hold.
    ///
    /// If this is `false`, no match is empty. If it is `true`, there may still be no empty match,
    /// as for `\b\B`.
    ///
    /// ```
    /// Regex::new(alloc, "a*")?.may_be_empty(); // true
    /// Regex::new(alloc, "a+$")?.may_be_empty(); // false
    /// ```
    ///
    /// The test `examples::emptiness` in tests/unit runs this example.
    pub fn may_be_empty(&self) -> bool
        ensures { OfTree self.now (λ tree. result ≡ nullable tree) }
    {
        !self.compiled.graph.reads()
    }

    /// The number of places (NFA states) of the compiled pattern. It is less than 2^32.
    pub fn places(&self) -> usize
        ensures counted { OfTree self.now (λ tree. result ≡ whole_places tree) }
        ensures bounded { result < 2 ^ 32 }
    {
        self.compiled.graph.places()
    }

    /// The number of arrows (transitions) of the compiled pattern. It is less than twice the number
    /// of places.
    pub fn arrows(&self) -> usize
        ensures counted { OfTree self.now (λ tree. result ≡ whole_arrows tree) }
        ensures few { (places : ℕ) → OfTree self.now (λ tree. places ≡ whole_places tree)
            → result < 2 * places }
        ensures bounded { result < 2 ^ 33 }
    {
        self.compiled.graph.arrows()
    }
}
