//! The spans of groups, without their haystack.
ghost use Rattle.std.specs.Prelude.{◌≡◌, ◌<◌, IfOk, IfErr, length};
ghost use Rattle.regex_lite_syntax.specs.Errors.{out_of_memory};
ghost use Rattle.regex_lite.specs.Groups.{resized, span_at, spans_of};

use regex_lite_syntax::Error;
use std::alloc::Global;
use std::fmt;
use std::marker::Model;

/// The spans of the groups of a match, reusable for many searches.
///
/// [`Regex::capture_locations`](crate::Regex::capture_locations) makes them, and
/// [`Regex::captures_read`](crate::Regex::captures_read) writes to them. They hold neither haystack
/// nor names, and need no more memory once they are made.
///
/// [`RegexList::capture_locations`](crate::RegexList::capture_locations) makes locations for
/// several patterns, with room for the pattern that has the most groups, and a
/// [`RegexListSearcher`](crate::RegexListSearcher) writes to them. Then they hold the groups of the
/// pattern that was found, by their indices in that pattern.
///
/// ```
/// let regex = Regex::new(alloc, "(a)(b)?")?;
/// let mut locations = regex.capture_locations()?;
/// regex.captures_read(&mut locations, "xa")?;
/// locations.get(1); // Some((1, 2))
/// locations.get(2); // None
/// ```
///
/// The test `examples::locations` in tests/unit runs this example.
#[derive(Drop)]
pub struct CaptureLocations {
    /// Slots 2k and 2k + 1 are the start and the end of group k.
    pub(super) slots: Vec<Option<usize>>,
}

impl Model for CaptureLocations {
    ghost use Rattle.std.specs.Prelude.{◌≡◌, ◌*◌, ◌<◌, ℕ, List, Option, length};
    ghost use Rattle.regex_lite.specs.Groups.{spans_of};

    ghost Value = { List (Option (ℕ × ℕ)) };

    ghost view = { λ locations. spans_of locations.slots.items };

    ghost invariant = { λ locations. (n : ℕ) × (0 < n) × (length locations.slots.items ≡ 2 * n) };
}

impl CaptureLocations {
    /// The span of the group with this index. It is `None` if there is no such group, here or in
    /// the pattern that was found, or if the group took no part in the match that was written last.
    pub fn get(&self, i: usize) -> Option<(usize, usize)>
        ensures { result ≡ span_at self.now i }
    {
        span_in(self.slots.as_slice(), i)
    }

    /// The number of groups, including the whole match. No search changes it, even if the pattern
    /// that was found has fewer.
    pub fn len(&self) -> usize
        ensures len { result ≡ length self.now }
        ensures some { 0 < result }
    {
        self.slots.len() / 2
    }

    /// Equal locations in memory of their own.
    ///
    /// # Errors
    ///
    /// `Memory` if memory runs out.
    pub fn try_clone(&self) -> Result<CaptureLocations, Error>
        ensures ok { IfOk result (λ locations. locations ≡ self.now) }
        ensures refused { IfErr result (λ error. error ≡ out_of_memory) }
    {
        let slots = self.slots.clone()?;
        Ok(CaptureLocations { slots })
    }

    /// Writes as many of these groups as the locations have, and `None` for those that are missing.
    pub(super) fn write(&mut self, slots: &[Option<usize>])
        ensures spans { self.new ≡ resized (length self.old) (spans_of slots.now) }
        ensures len { length self.new ≡ length self.old }
    {
        let count = slots.len().min(self.slots.len());
        let (own, others) = self.slots.as_mut_slice().split_at_mut(count);
        own.copy_from_slice(&slots[..count]);
        others.fill(None);
    }
}

/// Writes the span of each group.
impl fmt::Debug for CaptureLocations {
    fn fmt<W: fmt::Write>(&self, f: &mut fmt::Formatter<W>) -> fmt::Result {
        f.debug_struct("CaptureLocations")
            .field("slots", &self.slots)
            .finish()
    }
}

/// The span of a group, of which slots 2k and 2k + 1 are the start and the end.
pub(super) fn span_in(slots: &[Option<usize>], k: usize) -> Option<(usize, usize)>
    ensures { result ≡ span_at (spans_of slots.now) k }
{
    if k >= slots.len() / 2 {
        return None;
    }
    slots[2 * k].zip(slots[2 * k + 1])
}
