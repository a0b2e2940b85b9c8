//! The two characters with which a match of a pattern can begin.
ghost use Rattle.std.specs.Prelude.{◌≡◌, ◌<◌, ◌≤◌, ℕ, Bool, Option, IfSome, false, map, length};
ghost use Rattle.regex_lite_syntax.specs.Text.{Text};
ghost use Rattle.regex_lite_syntax.specs.Tree.{repetition, concat, alternation, trees};
ghost use Rattle.regex_lite_syntax.specs.Tree.Matches.{Matches};
ghost use Rattle.regex_lite_syntax.specs.Tree.Views.{tree_of};
ghost use Rattle.regex_lite_syntax.specs.declared.prefilter.prefixes.PrefixLen.TheVariants.{One};
ghost use Rattle.regex_lite_syntax.specs.Prefilter.PrefixSets.{ArePrefixSetsOfTree};
ghost use Rattle.regex_lite_syntax.specs.Prefilter.PrefixSets.{AreSecondOfTree, IsCutOff, Reads};
ghost use Rattle.regex_lite_syntax.specs.Prefilter.PrefixSets.{ReadsEach};
ghost use Rattle.regex_lite_syntax.specs.Prefilter.FirstSet.{IsFirstSetOfTree, IsWider};

use crate::hir::Hir;
use crate::prefilter::first_set::FirstSet;

/// Where a match can begin, by the next two characters. No match begins anywhere else.
#[derive(Drop)]
pub struct PrefixSets {
    /// The possible first characters.
    pub first: FirstSet,
    /// The possible second characters; `None` if a match may be shorter, or if one walk over the
    /// tree doesn't find them.
    pub second: Option<FirstSet>,
}

/// The greatest number of ASCII second characters. With more, most text would have one of them.
const MOST: u8 = 16;

/// How much a part of a pattern reads at its beginning.
#[derive(Clone, Copy)]
pub(crate) enum PrefixLen {
    /// Nothing at all.
    Nothing,
    /// One character, or several of which the second is known.
    One,
    /// Two characters or more, of which the second is known.
    More,
}

impl PrefixSets {
    /// Where a match of the tree can begin.
    pub(crate) fn of(hir: &Hir) -> PrefixSets
        ensures { ArePrefixSetsOfTree (tree_of hir.now) result }
    {
        PrefixSets::with_first(FirstSet::of(hir), hir)
    }

    /// The same, where the first characters are known.
    #[inline(never)]
    pub(crate) fn with_first(first: FirstSet, hir: &Hir) -> PrefixSets
        requires { IsFirstSetOfTree (tree_of hir.now) first }
        ensures { ArePrefixSetsOfTree (tree_of hir.now) result }
    {
        PrefixSets {
            first,
            second: FirstSet::second_of(hir),
        }
    }

    /// Whether a match that begins with the character at this offset can go on, judging by the next
    /// byte. If false, none begins with it.
    ///
    /// Conditions: the offset is at most the length.
    pub fn may_go_on(&self, bytes: &[u8], at: usize) -> bool
        requires { at ≤ length bytes.now }
        ensures { result ≡ false → IsCutOff self.now bytes.now at }
    {
        let Some(second) = &self.second else {
            return true;
        };
        // After an ASCII character the next one begins at once.
        if bytes.len() - at < 2 || !bytes[at].is_ascii() {
            return true;
        }
        second.stops_at(bytes[at + 1])
    }
}

impl FirstSet {
    /// The second characters of the matches of the tree, if each match has two and they are few.
    #[inline(never)]
    fn second_of(hir: &Hir) -> Option<FirstSet>
        ensures { IfSome result (AreSecondOfTree (tree_of hir.now)) }
    {
        if let Hir::Repetition { body, .. } = hir {
            // It may make a single pass, so there may be no second character.
            if let Hir::Char(_) | Hir::Class(_) = **body {
                return None;
            }
        }
        let mut second = FirstSet::nowhere();
        match second.add_second(hir)? {
            PrefixLen::More if second.len() <= MOST => Some(second),
            _ => None,
        }
    }

    /// Adds the second characters of the matches of the tree, and returns what a match reads at its
    /// beginning; `None` if the matches differ too much for that.
    #[cycle(add_second)]
    fn add_second(&mut self, hir: &Hir) -> Option<PrefixLen>
        ensures grown { IsWider self.old self.new }
        ensures reads { IfSome result (ReadsEach (tree_of hir.now) self.new) }
    {
        match hir {
            Hir::Empty | Hir::Look(_) => Some(PrefixLen::Nothing),
            Hir::Char(_) | Hir::Class(_) => Some(PrefixLen::One),
            Hir::Repetition { least, body, .. } => {
                if *least == 0 {
                    return None;
                }
                let head = self.add_second(body)?;
                self.add_passes(head, body)
            }
            Hir::Capture { body, .. } => self.add_second(body),
            Hir::Concat(parts) => self.add_second_of_parts(parts),
            Hir::Alternation(branches) => self.add_second_of_branches(branches),
        }
    }

    /// Adds the characters with which a pass over this body after the first one begins, and returns
    /// what all passes read together.
    fn add_passes(&mut self, head: PrefixLen, body: &Hir) -> Option<PrefixLen>
        ensures grown { IsWider self.old self.new }
        ensures reads { (least : ℕ) (most : Option ℕ) (greedy : Bool) → 0 < least
            → ReadsEach (tree_of body.now) self.old head
            → IfSome result (ReadsEach (repetition least most greedy (tree_of body.now)) self.new) }
    {
        match head {
            PrefixLen::Nothing => None,
            PrefixLen::One => {
                // A longer body isn't walked again: nested loops would be walked once more at each
                // level.
                let (Hir::Char(_) | Hir::Class(_)) = body else {
                    return None;
                };
                self.add(body);
                Some(PrefixLen::One)
            }
            PrefixLen::More => Some(PrefixLen::More),
        }
    }

    /// Adds the second characters of these parts in a row, up to the first part that reads one.
    #[cycle(add_second)]
    fn add_second_of_parts(&mut self, parts: &[Hir]) -> Option<PrefixLen>
        ensures grown { IsWider self.old self.new }
        ensures reads { IfSome result
            (ReadsEach (concat (trees (map tree_of parts.now))) self.new) }
    {
        let mut head = PrefixLen::Nothing;
        for part in parts {
            head = match head {
                PrefixLen::Nothing => self.add_second(part)?,
                PrefixLen::One => self.add_after_one(part),
                PrefixLen::More => return Some(head),
            };
        }
        Some(head)
    }

    /// Adds those of a part that follows one character, and returns what both read together.
    fn add_after_one(&mut self, part: &Hir) -> PrefixLen
        ensures grown { IsWider self.old self.new }
        ensures reads { (haystack : Text) (i k j : ℕ) → Reads self.old haystack i k One
            → Matches haystack (tree_of part.now) k j → Reads self.new haystack i j result }
    {
        if self.add(part) {
            PrefixLen::One
        } else {
            PrefixLen::More
        }
    }

    /// Adds the second characters of these branches.
    #[cycle(add_second)]
    fn add_second_of_branches(&mut self, branches: &[Hir]) -> Option<PrefixLen>
        ensures grown { IsWider self.old self.new }
        ensures reads { IfSome result
            (ReadsEach (alternation (trees (map tree_of branches.now))) self.new) }
    {
        let mut head = PrefixLen::More;
        for branch in branches {
            match self.add_second(branch)? {
                PrefixLen::Nothing => return None,
                PrefixLen::One => head = PrefixLen::One,
                PrefixLen::More => {}
            }
        }
        Some(head)
    }
}
