//! The groups of a match, generic over the type of the haystack.
ghost use Rattle.std.specs.Prelude.{◌≡◌, ◌+◌, ◌<◌, ◌≤◌, ◌∷◌, ℕ, List, Some, IfSome};
ghost use Rattle.std.specs.Prelude.{length, map, option_map, slice_range, take};
ghost use Rattle.std.specs.Rc.{rc_str_bytes};
ghost use Rattle.regex_lite.specs.Groups.{AreGroups, LiesIn, group_span, group_text};
ghost use Rattle.regex_lite.specs.Groups.{index_of, is_named, texts_from, whole_span};
ghost use Rattle.regex_lite.specs.Compiled.{groups_of, names_of};

use crate::string::locations::{CaptureLocations, span_in};
use crate::string::source::Source;
use std::marker::Model;
use std::rc::RcStr;

/// A text that can be sliced, as [`CapturesIn`] requires of a haystack.
pub trait Text: Copy {
    /// The bytes of the text.
    ghost bytes: { Self → List ℕ };

    /// The part from one offset to another.
    ///
    /// Condition: the offsets are in order, in the text and on character boundaries.
    fn part(self, start: usize, end: usize) -> Self
        requires { LiesIn (bytes self) (start, end) }
        ensures { bytes result ≡ slice_range (bytes self) start end };
}

impl Text for &str {
    ghost bytes = { λ text. text.now };

    fn part(self, start: usize, end: usize) -> Self {
        &self[start..end]
    }
}

/// The groups of a match in a haystack of this type.
///
/// A [`Captures`](crate::Captures) dereferences to one whose haystack is a `&str`.
#[derive(Drop)]
pub struct CapturesIn<T: Text> {
    pub(super) haystack: T,
    /// Slots 2k and 2k + 1 are the start and the end of group k.
    slots: Vec<Option<usize>>,
    source: Source,
}

impl<T: Text> Model for CapturesIn<T> {
    ghost use Rattle.regex_lite.specs.Groups.{Groups, AreGroups};
    ghost use Rattle.regex_lite.specs.Compiled.{groups_of};

    ghost Value = { Groups };

    ghost view = { λ caps.
        groups_of (T.bytes caps.haystack) caps.slots.items caps.source };

    ghost invariant = { λ caps. AreGroups
        (groups_of (T.bytes caps.haystack) caps.slots.items caps.source) };
}

impl<T: Text> CapturesIn<T> {
    /// The groups with these slots. The source has their names.
    pub(super) fn new(haystack: T, slots: Vec<Option<usize>>, source: Source) -> Self
        requires { AreGroups (groups_of (T.bytes haystack) slots.items source) }
        ensures { result ≡ groups_of (T.bytes haystack) slots.items source }
    {
        CapturesIn {
            haystack,
            slots,
            source,
        }
    }

    /// The slots and the source of the names.
    pub(super) fn into_parts(self) -> (Vec<Option<usize>>, Source)
        ensures names { names_of result.1 ≡ self.names }
        ensures static_captures { result.1.static_captures_len ≡ self.static_captures_len }
    {
        let CapturesIn { slots, source, .. } = self;
        (slots, source)
    }

    /// The text of the whole match, and the texts of the first N other groups that took part, in
    /// the order of their indices.
    ///
    /// Condition: `static_captures_len` of the regex says that at least N + 1 groups take part in
    /// each of its matches.
    ///
    /// ```
    /// let regex = Regex::new(alloc, "(?:(a)|(b)){2}")?;
    /// if let Some(2) = regex.static_captures_len() {
    ///     if let Some(caps) = regex.captures("ab")? {
    ///         let (whole, [first]) = caps.extract(); // "ab", "a"
    ///     }
    /// }
    /// ```
    ///
    /// The test `examples::extracted` in tests/unit runs this example.
    pub fn extract<const N: usize>(&self) -> (T, [T; N])
        requires { self.now.static_captures_len ≡ Some (N + 1) }
        ensures whole { Some (T.bytes result.0) ≡ group_text self.now 0 }
        ensures parts { map T.bytes result.1 ≡ take N (texts_from self.now 1) }
    {
        let whole = self.whole();
        let mut parts = [whole; N];
        let mut next = 1;
        for i in 0..N {
            let (text, after) = self.next_text(next);
            parts[i] = text;
            next = after;
        }
        (whole, parts)
    }

    /// The text of the whole match.
    fn whole(&self) -> T
        ensures text { Some (T.bytes result) ≡ group_text self.now 0 }
        ensures enough { IfSome self.now.static_captures_len
            (λ n. n ≤ 1 + length (texts_from self.now 1)) }
    {
        match self.span(0) {
            Some((start, end)) => self.haystack.part(start, end),
            None => unreachable!(),
        }
    }

    /// The text of the first group from this index on that took part, and the index after it.
    fn next_text(&self, from: usize) -> (T, usize)
        requires { 0 < length (texts_from self.now from) }
        ensures { texts_from self.now from ≡ T.bytes result.0 ∷ texts_from self.now result.1 }
    {
        for k in from..self.groups() {
            if let Some((start, end)) = self.span(k) {
                return (self.haystack.part(start, end), k + 1);
            }
        }
        unreachable!()
    }

    /// How many groups there are.
    pub(super) fn groups(&self) -> usize
        ensures { result ≡ length self.now.spans }
    {
        self.source.capture_names().len()
    }

    /// The span of the group with this index, if there is such a group and it took part.
    pub(super) fn span(&self, k: usize) -> Option<(usize, usize)>
        ensures span { result ≡ group_span self.now k }
        ensures inside { IfSome result (LiesIn self.now.haystack) }
    {
        span_in(self.slots.as_slice(), k)
    }

    /// The span of the whole match.
    pub(super) fn whole_span(&self) -> (usize, usize)
        ensures span { result ≡ whole_span self.now }
        ensures inside { LiesIn self.now.haystack result }
    {
        match span_in(self.slots.as_slice(), 0) {
            Some(span) => span,
            None => unreachable!(),
        }
    }

    /// The index of the group with this name.
    pub(super) fn index_of(&self, name: &str) -> Option<usize>
        ensures { result ≡ index_of self.now.names name.now }
    {
        let names = self.source.capture_names();
        for k in 0..names.len() {
            if is_named(&names[k], name) {
                return Some(k);
            }
        }
        None
    }

    /// Writes as many groups as the locations have to them.
    pub(super) fn write(&self, locs: &mut CaptureLocations)
        requires { length locs.old ≤ length self.now.spans }
        ensures spans { locs.new ≡ take (length locs.old) self.now.spans }
        ensures len { length locs.new ≡ length locs.old }
    {
        locs.write(self.slots.as_slice());
    }
}

/// Whether the group has this name.
fn is_named(own: &Option<RcStr>, name: &str) -> bool
    ensures { result ≡ is_named name.now (option_map rc_str_bytes own.now) }
{
    match own {
        Some(own) => own.as_str() == name,
        None => false,
    }
}
