//! The characters with which a match can begin, found by one walk over the tree.
ghost use Rattle.std.specs.Prelude.{◌≡◌, ◌≤◌, ◌<◌, ◌+◌, ◌*◌, [], ◌∷◌, ℕ};
ghost use Rattle.std.specs.Prelude.{IsTrue, false, true, map, slice_index};
ghost use Rattle.regex_lite_syntax.specs.Ranges.{in_ranges};
ghost use Rattle.regex_lite_syntax.specs.Sets.{just, span};
ghost use Rattle.regex_lite_syntax.specs.Tree.{look, class, repetition, concat, alternation, trees};
ghost use Rattle.regex_lite_syntax.specs.Tree.Views.{tree_of};
ghost use Rattle.regex_lite_syntax.specs.Prefilter.FirstSet.{begins_with, may_begin, stops_at};
ghost use Rattle.regex_lite_syntax.specs.Prefilter.FirstSet.{IsWider, IsUnion, IsUnionOf, HasAll};
ghost use Rattle.regex_lite_syntax.specs.Prefilter.FirstSet.{BeginsOrPasses, IsFirstSetOfTree};

mod reading;

use crate::class::{Class, ClassRange};
use crate::hir::Hir;
use crate::hir::look::Look;

/// Where a match can begin, by the next character. No match begins anywhere else.
#[derive(Drop)]
pub struct FirstSet {
    /// Whether there is a character with which a match can begin. If not, `ascii` and `others`
    /// count for nothing.
    pub any: bool,
    /// Whether it can begin with the ASCII character that has this code.
    pub(crate) ascii: [bool; 128],
    /// Whether a match can begin with a character that is not ASCII.
    pub(crate) others: bool,
    /// Whether a match can begin at the haystack's start, whatever comes next. This is separate,
    /// since a search has to begin there once and not at each character.
    pub at_start: bool,
}

impl FirstSet {
    /// Where a match of the tree can begin. Looks other than that of the start are taken to hold.
    pub(crate) fn of(hir: &Hir) -> FirstSet
        ensures { IsFirstSetOfTree (tree_of hir.now) result }
    {
        let mut starts = FirstSet::nowhere();
        if starts.add(hir) {
            return FirstSet::everywhere();
        }
        starts
    }

    /// A match can begin nowhere.
    pub(crate) fn nowhere() -> FirstSet
        ensures none { (c : ℕ) → begins_with result c ≡ false }
        ensures at_start { result.at_start ≡ false }
    {
        FirstSet {
            any: false,
            ascii: [false; 128],
            others: false,
            at_start: false,
        }
    }

    /// A match can begin anywhere.
    pub(crate) fn everywhere() -> FirstSet
        ensures all { (c : ℕ) → begins_with result c ≡ true }
        ensures at_start { result.at_start ≡ true }
    {
        FirstSet {
            any: true,
            ascii: [true; 128],
            others: true,
            at_start: true,
        }
    }

    /// Adds the characters with which a match of the tree can begin. Returns whether a match may
    /// read nothing, so that the next part can begin there too.
    #[cycle(add)]
    pub(crate) fn add(&mut self, hir: &Hir) -> bool
        ensures grown { IsWider self.old self.new }
        ensures begins { BeginsOrPasses (tree_of hir.now) self.new result }
    {
        match hir {
            Hir::Empty => true,
            Hir::Char(c) => {
                self.add_char(*c);
                false
            }
            Hir::Class(set) => {
                self.add_class(set);
                false
            }
            Hir::Look(test) => self.add_look(*test),
            Hir::Repetition { least, body, .. } => self.add(body) || *least == 0,
            Hir::Capture { body, .. } => self.add(body),
            Hir::Concat(parts) => self.add_parts(parts),
            Hir::Alternation(branches) => self.add_branches(branches),
        }
    }

    /// Adds those of these parts in a row, up to the first that reads.
    #[cycle(add)]
    fn add_parts(&mut self, parts: &[Hir]) -> bool
        ensures grown { IsWider self.old self.new }
        ensures begins { BeginsOrPasses (concat (trees (map tree_of parts.now))) self.new result }
    {
        for part in parts {
            if !self.add(part) {
                return false;
            }
        }
        true
    }

    /// Adds those of these branches.
    #[cycle(add)]
    fn add_branches(&mut self, branches: &[Hir]) -> bool
        ensures grown { IsWider self.old self.new }
        ensures begins { BeginsOrPasses (alternation (trees (map tree_of branches.now))) self.new
            result }
    {
        let mut passable = false;
        for branch in branches {
            if self.add(branch) {
                passable = true;
            }
        }
        passable
    }

    /// Adds the haystack's start, if the look holds only there.
    fn add_look(&mut self, test: Look) -> bool
        ensures grown { IsWider self.old self.new }
        ensures begins { BeginsOrPasses (look test) self.new result }
    {
        match test {
            Look::Start => {
                self.at_start = true;
                false
            }
            _ => true,
        }
    }

    /// Adds the characters of the set.
    pub(crate) fn add_class(&mut self, set: &Class)
        ensures grown { IsWider self.old self.new }
        ensures added { HasAll self.new (in_ranges set.now) }
    {
        for range in set.ranges() {
            if !range.start.is_ascii() {
                // Later ranges are not ASCII either.
                self.add_char(range.start);
                return;
            }
            self.add_range(*range);
        }
    }

    /// Adds the characters of the range.
    fn add_range(&mut self, range: ClassRange)
        ensures grown { IsWider self.old self.new }
        ensures added { HasAll self.new (span range.start range.end) }
    {
        self.any = true;
        if !range.end.is_ascii() {
            self.others = true;
        }
        let end = (range.end as usize + 1).min(128);
        for code in range.start as usize..end {
            self.ascii[code] = true;
        }
    }

    /// Adds the character.
    pub(crate) fn add_char(&mut self, c: char)
        ensures grown { IsWider self.old self.new }
        ensures added { HasAll self.new (just c) }
    {
        self.any = true;
        if c.is_ascii() {
            self.ascii[c as usize] = true;
        } else {
            self.others = true;
        }
    }

    /// Whether a match can begin between these neighbours. At the haystack's end this is always
    /// true, since a match that reads nothing may begin there.
    pub fn may_begin(&self, before: Option<char>, after: Option<char>) -> bool
        ensures { result ≡ may_begin self.now before after }
    {
        match after {
            None => true,
            Some(c) => self.begins_in(c as usize) || self.at_start && before.is_none(),
        }
    }

    /// Whether a match can begin with the character that has this code. From 128 on all are alike.
    pub(crate) fn begins_in(&self, code: usize) -> bool
        ensures { result ≡ begins_with self.now code }
    {
        if !self.any {
            return false;
        }
        if code < 128 {
            self.ascii[code]
        } else {
            self.others
        }
    }

    /// Whether a match can begin with one of the sixteen ASCII characters of this row.
    pub(crate) fn begins_in_row(&self, row: u8) -> bool
        requires { row < 8 }
        ensures { result ≡ false → (byte : ℕ) → 16 * row ≤ byte → byte < 16 * row + 16
            → stops_at self.now byte ≡ false }
    {
        let first = 16 * usize::from(row);
        let mut begins = false;
        for code in first..first + 16 {
            begins |= self.ascii[code];
        }
        begins
    }

    /// Whether it is known at once that no match begins with one of the sixteen ASCII characters
    /// from this one on.
    pub(crate) fn begins_in_none_of_row(&self, code: usize) -> bool
        requires { code < 128 }
        ensures { IsTrue result → (code + 16 ≤ 128)
            × ((c : ℕ) → code ≤ c → c < code + 16 → begins_with self.now c ≡ false) }
    {
        code % 16 == 0 && !self.begins_in_row((code / 16) as u8)
    }

    /// Adds all that the other has.
    #[inline(never)]
    pub(crate) fn add_starts(&mut self, other: &FirstSet)
        ensures { IsUnion self.old other.now self.new }
    {
        // Without a branch for each character, so that sixteen are added at once.
        let (any, more) = (self.any, other.any);
        for code in 0..128 {
            self.ascii[code] = (any & self.ascii[code]) | (more & other.ascii[code]);
        }
        self.others = (any & self.others) | (more & other.others);
        self.at_start |= other.at_start;
        self.any |= other.any;
    }

    /// The number of ASCII characters with which a match can begin.
    pub(crate) fn len(&self) -> u8
        ensures { result ≤ 128 }
    {
        // A sum of bytes, so that sixteen can be added at once.
        let mut len = 0;
        for k in 0..128 {
            len += u8::from(self.ascii[k]);
        }
        len
    }

    /// Whether the byte may be the first byte of a character with which a match can begin. What can
    /// begin at the haystack's start alone is left out.
    pub fn stops_at(&self, byte: u8) -> bool
        ensures { result ≡ stops_at self.now byte }
    {
        if !self.any {
            return false;
        }
        if byte < 0x80 {
            return self.ascii[byte as usize];
        }
        byte >= 0xC0 && self.others
    }

    /// Whether it is known at once that a match can begin with none of these four bytes: all are
    /// ASCII, and none is a character that can come first. False says nothing.
    pub fn passes(&self, a: u8, b: u8, c: u8, d: u8) -> bool
        ensures { IsTrue result → (k : ℕ) → k < 4
            → stops_at self.now (slice_index (a ∷ (b ∷ (c ∷ (d ∷ [])))) k) ≡ false }
    {
        // Without a branch for each byte.
        if !(a.is_ascii() & b.is_ascii() & c.is_ascii() & d.is_ascii()) {
            return false;
        }
        let ascii = &self.ascii;
        !(ascii[a as usize] | ascii[b as usize] | ascii[c as usize] | ascii[d as usize])
    }
}
