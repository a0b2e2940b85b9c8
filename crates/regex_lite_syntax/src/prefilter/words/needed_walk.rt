//! Words of which each match of a tree has one, found by one walk over it.
ghost use Rattle.std.specs.Prelude.{◌≡◌, ◌<◌, ℕ, Bool, IfSome, encode_utf8, length, map};
ghost use Rattle.std.specs.Prelude.{true};
ghost use Rattle.regex_lite_syntax.specs.Tree.{alternation, class, concat, repetition, trees};
ghost use Rattle.regex_lite_syntax.specs.Tree.Views.{tree_of};
ghost use Rattle.regex_lite_syntax.specs.Prefilter.Needed.{IsNeededBy};
ghost use Rattle.regex_lite_syntax.specs.Prefilter.NeededWalk.{Chooses, EndsRow, FindsBytes};
ghost use Rattle.regex_lite_syntax.specs.Prefilter.NeededWalk.{FindsLetter};
ghost use Rattle.regex_lite_syntax.specs.Prefilter.NeededWalk.{FindsPast, Leaves, as_needed};
ghost use Rattle.regex_lite_syntax.specs.Prefilter.FirstSet.{ReadsAmong, begins_with};

use crate::class::Class;
use crate::hir::Hir;
use crate::prefilter::first_set::FirstSet;
use crate::prefilter::words::branch_words::may_have_words;
use crate::prefilter::words::few_words::{FewWords, MOST};
use crate::prefilter::words::found_words::FoundWords;
use crate::prefilter::words::letter::Letter;
use crate::prefilter::words::pair::rank_of;
use crate::prefilter::words::short_word::ShortWord;
use crate::prefilter::words::spelling::letter_of;

/// A letter of a greater rank rules out too little by itself.
const COMMON: u8 = 8;

/// Behind as many letters no more parts are looked at, so that a long pattern costs little.
const LOOKED_AT: usize = 128;

/// How many branches are looked at, so that many of them, or those in others, cost little.
const BRANCHES: usize = 16;

/// The words of which one stands in each match of the parts over which the walk has gone.
#[derive(Drop)]
pub(crate) struct NeededWalk {
    /// The best of them so far: a word without letters if none is known.
    best: FewWords,
    /// The rank of the rarest letter of each, or the greatest of these.
    best_rank: u8,
    /// The letters with which these parts end.
    row: ShortWord,
    /// The rank of the rarest of these.
    row_rank: u8,
    /// How many letters more are looked at.
    left: usize,
    /// How many branches more are.
    branches: usize,
    /// The characters that may stand before the best words.
    best_lead: FirstSet,
    /// Those that may stand before the row.
    row_lead: FirstSet,
    /// Those that these parts can read.
    read: FirstSet,
}

impl NeededWalk {
    /// Words of which each match of the tree has one. None if none are known that are rare enough.
    /// None are looked for in as many of its first parts.
    pub(super) fn of(hir: &Hir, front: usize) -> Option<FoundWords>
        ensures needed { IfSome result
            (λ found. IsNeededBy (tree_of hir.now) (as_needed found.words found.lead)) }
    {
        let mut walk = NeededWalk::new(BRANCHES);
        walk.go_over(hir, front);
        if !walk.is_rare() {
            return None;
        }
        let NeededWalk {
            best,
            best_rank,
            best_lead,
            ..
        } = walk;
        Some(FoundWords {
            words: best,
            rank: best_rank,
            lead: best_lead,
        })
    }

    /// A walk that has gone over nothing, and looks at so many branches.
    fn new(branches: usize) -> NeededWalk {
        NeededWalk {
            best: FewWords::new(),
            best_rank: u8::MAX,
            row: ShortWord::new(),
            row_rank: u8::MAX,
            left: LOOKED_AT,
            branches,
            best_lead: FirstSet::nowhere(),
            row_lead: FirstSet::nowhere(),
            read: FirstSet::nowhere(),
        }
    }

    /// Goes over this tree alone, whatever it has gone over before, and takes no word from as many
    /// of its first parts.
    #[cycle(visit)]
    fn go_over(&mut self, hir: &Hir, front: usize)
        ensures { IsNeededBy (tree_of hir.now) (as_needed self.new.best self.new.best_lead) }
    {
        self.row.clear();
        self.row_rank = u8::MAX;
        self.best.set_to_one(&self.row);
        self.best_rank = u8::MAX;
        self.left = LOOKED_AT;
        self.read.set_to(&FirstSet::nowhere());
        self.row_lead.set_to(&FirstSet::nowhere());
        match hir {
            Hir::Concat(parts) => self.visit_parts(parts, front),
            _ => self.visit(hir),
        }
        self.end_row();
    }

    /// Whether the best words rule out enough.
    fn is_rare(&self) -> bool {
        let len = self.best.shortest();
        len > 1 || (len == 1 && self.best_rank <= COMMON)
    }

    /// Goes over the tree.
    #[cycle(visit)]
    fn visit(&mut self, hir: &Hir)
        ensures { FindsPast (tree_of hir.now) self.old self.new }
    {
        match hir {
            Hir::Empty | Hir::Look(_) => {}
            Hir::Char(c) => self.push_char(*c),
            Hir::Class(set) => self.visit_class(set),
            Hir::Repetition {
                least,
                most,
                body,
                ..
            } => {
                if *least > 0 {
                    self.visit_passes(*least, *most, body);
                } else {
                    self.leave(body);
                }
            }
            Hir::Capture { body, .. } => self.visit(body),
            Hir::Concat(parts) => self.visit_parts(parts, 0),
            Hir::Alternation(branches) => {
                self.choose_among(branches);
                self.leave(hir);
            }
        }
    }

    /// Goes over these parts in a row, and takes no word from as many of the first.
    #[cycle(visit)]
    fn visit_parts(&mut self, parts: &[Hir], front: usize)
        ensures { FindsPast (concat (trees (map tree_of parts.now))) self.old self.new }
    {
        for (number, part) in parts.iter().enumerate() {
            if self.left == 0 {
                self.leave_rest();
                return;
            }
            if number < front {
                self.leave(part);
            } else {
                self.visit(part);
            }
        }
    }

    /// Goes over as many passes of the tree as there are at least, as long as each adds letters to
    /// the row and it has room. It goes on behind them if there are never more passes.
    ///
    /// Condition: there is a pass at least.
    #[cycle(visit)]
    fn visit_passes(&mut self, least: u32, most: Option<u32>, body: &Hir)
        requires { 0 < least }
        ensures { (greedy : Bool)
            → FindsPast (repetition least most greedy (tree_of body.now)) self.old self.new }
    {
        'passes: for _k in 0..least {
            let len = self.row.len();
            self.visit(body);
            if self.row.len() <= len || self.row.is_full() {
                self.end_row();
                return;
            }
        }
        if most != Some(least) {
            self.end_row();
        }
    }

    /// Takes words of these branches, one of which comes next, for the best ones, if each branch
    /// has some, and they are rarer.
    #[cycle(visit)]
    fn choose_among(&mut self, branches: &[Hir])
        ensures { Chooses (alternation (trees (map tree_of branches.now))) self.old self.new }
    {
        let most = self.best_rank.min(self.row_rank);
        let Some(found) = NeededWalk::words_of(branches, most, &mut self.branches) else {
            return;
        };
        // What matches begin with isn't needed, as `Needed::of` says.
        if self.read.any || found.lead.any {
            self.best = found.words;
            self.best_rank = found.rank;
            self.best_lead.set_to(&self.read);
            self.best_lead.add_starts(&found.lead);
        }
    }

    /// Words of which each match of these branches has one, of a lower rank than this. None if some
    /// branch has none that are rare enough, or if there are too many of them, or more branches
    /// than are left to look at.
    #[cycle(visit)]
    fn words_of(branches: &[Hir], most: u8, left: &mut usize) -> Option<FoundWords>
        ensures { IfSome result
            (λ found. IsNeededBy (alternation (trees (map tree_of branches.now)))
            (as_needed found.words found.lead)) }
    {
        if branches.len() > MOST || branches.len() > *left || !may_have_words(branches) {
            return None;
        }
        let mut found = FoundWords::none();
        let mut walk = NeededWalk::new(*left);
        for branch in branches {
            walk.branches = walk.branches.saturating_sub(1);
            walk.go_over(branch, 0);
            *left = walk.branches;
            if !walk.is_rare()
                || walk.best_rank >= most
                || !found.add(&walk.best, walk.best_rank, &walk.best_lead)
            {
                return None;
            }
        }
        if !found.are_rare() {
            return None;
        }
        Some(found)
    }

    /// Goes over a character of the set.
    fn visit_class(&mut self, set: &Class)
        ensures { FindsPast (class set.now) self.old self.new }
    {
        match letter_of(set) {
            Some(letter) => self.push(letter),
            None => {
                self.read.add_class(set);
                self.end_row();
            }
        }
    }

    /// Goes over whatever the tree reads.
    fn leave(&mut self, hir: &Hir)
        ensures reads { ReadsAmong (tree_of hir.now) self.new.read }
        ensures left { Leaves self.old self.new }
    {
        self.read.add_all(hir);
        self.end_row();
    }

    /// Goes over any characters.
    fn leave_rest(&mut self)
        ensures all { (c : ℕ) → begins_with self.new.read c ≡ true }
        ensures left { Leaves self.old self.new }
    {
        self.read.set_to(&FirstSet::everywhere());
        self.end_row();
    }

    /// Goes over a character.
    fn push_char(&mut self, c: char)
        ensures { FindsBytes (encode_utf8 c) self.old self.new }
    {
        if c.is_ascii() {
            self.push(Letter::exact(c as u8));
            return;
        }
        let mut buffer = [0; 4];
        let text = c.encode_utf8(&mut buffer);
        let bytes = text.as_bytes();
        'bytes: for k in 0..bytes.len() {
            self.push(Letter::exact(bytes[k]));
        }
    }

    /// Adds a letter to the row, or to a new one if that is full.
    fn push(&mut self, letter: Letter)
        ensures { FindsLetter letter self.old self.new }
    {
        if self.row.is_full() {
            self.end_row();
        }
        self.row.push(letter);
        self.read.add_char(letter.byte as char);
        self.read.add_char(letter.other as char);
        self.row_rank = self.row_rank.min(rank_of(letter));
        self.left = self.left.saturating_sub(1);
    }

    /// Ends the row. It is the best word from now on, if its rarest letter is rarer, or if it is as
    /// rare and the row is longer.
    fn end_row(&mut self)
        ensures { EndsRow self.old self.new }
    {
        let is_longer = self.row.len() > self.best.shortest();
        if self.row_rank < self.best_rank || (self.row_rank == self.best_rank && is_longer) {
            self.best.set_to_one(&self.row);
            self.best_rank = self.row_rank;
            std::mem::swap(&mut self.best_lead, &mut self.row_lead);
        }
        self.row_lead.set_to(&self.read);
        self.row.clear();
        self.row_rank = u8::MAX;
    }
}
