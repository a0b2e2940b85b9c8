//! The places of a repetition.
ghost use Rattle.std.specs.Prelude.{◌≡◌, ◌<◌, ◌+◌, ◌-◌, ◌*◌, ◌^◌, ◌++◌, length, map, IfOk, None};
ghost use Rattle.regex_lite_syntax.specs.Tree.Views.{tree_of};
ghost use Rattle.regex_lite_syntax.specs.Tree.Properties.{nullable, greatest_index};
ghost use Rattle.regex_lite_engine.specs.Graph.Stored.{place_of};
ghost use Rattle.regex_lite_engine.specs.Graph.PlaceCounts.{places, copies, own_places};
ghost use Rattle.regex_lite_engine.specs.Graph.PlaceCounts.{bounded_places};
ghost use Rattle.regex_lite_engine.specs.Nfa.Layout.{IsAdded, layout};
ghost use Rattle.regex_lite_engine.specs.Nfa.Repetitions.{bounded_layout, choices_layout};
ghost use Rattle.regex_lite_engine.specs.Nfa.Repetitions.{copies_layout, repetition_layout};
ghost use Rattle.regex_lite_engine.specs.Nfa.Repetitions.{star_layout};

use super::Writer;
use regex_lite_syntax::Hir;
use std::alloc::AllocError;

impl Writer {
    /// Adds the places of a repetition, which lead on to `exit`, and returns the place at which it
    /// is entered.
    #[cycle(write)]
    pub(super) fn write_repetition(
        &mut self,
        body: &Hir,
        least: u32,
        most: Option<u32>,
        greedy: bool,
        exit: u32,
    ) -> Result<u32, AllocError>
        requires room { let body = tree_of body.now in length self.old
            + (copies least most * places body + own_places least most (nullable body)) < 2 ^ 32 }
        requires slots { greatest_index (tree_of body.now) < 2 ^ 31 }
        ensures written { let body = tree_of body.now in IfOk result (λ entry. IsAdded
            (map place_of self.old) (map place_of self.new) entry
            (repetition_layout greedy (layout body) least most (nullable body)
            (length self.old) exit)) }
        ensures grown { let body = tree_of body.now in IfOk result (λ _. length self.new
            ≡ length self.old + (copies least most * places body
            + own_places least most (nullable body))) }
    {
        match most {
            None if least > 0 => {
                let (_, inner) = self.write_loop(body, greedy, exit)?;
                self.write_copies(body, least - 1, inner)
            }
            None => self.write_star(body, greedy, exit),
            Some(most) => self.write_bounded(body, least, most, greedy, exit),
        }
    }

    /// A choice, and a body that leads back to it.
    ///
    /// A body that can match the empty text needs a join after the loop, which is entered by a
    /// choice between the body and the join: after a pass that reads nothing, the path comes to the
    /// choice of the loop for the first time at that position, and can leave by it. In a plain loop
    /// it would return to the choice from which it came.
    #[cycle(write)]
    fn write_star(&mut self, body: &Hir, greedy: bool, exit: u32) -> Result<u32, AllocError>
        requires room { let body = tree_of body.now in
            length self.old + (places body + own_places 0 None (nullable body)) < 2 ^ 32 }
        requires slots { greatest_index (tree_of body.now) < 2 ^ 31 }
        ensures written { let body = tree_of body.now in IfOk result (λ entry. IsAdded
            (map place_of self.old) (map place_of self.new) entry
            (repetition_layout greedy (layout body) 0 None (nullable body)
            (length self.old) exit)) }
        ensures grown { let body = tree_of body.now in IfOk result (λ _. length self.new
            ≡ length self.old + (places body + own_places 0 None (nullable body))) }
    {
        if !body.is_nullable() {
            let (choice, _) = self.write_loop(body, greedy, exit)?;
            return Ok(choice);
        }
        let join = self.add_empty(exit)?;
        let (_, inner) = self.write_loop(body, greedy, join)?;
        self.add_choice(greedy, inner, join)
    }

    /// The required copies and, if more are allowed, the optional ones and a join after them.
    /// Without any copy, a single empty place.
    #[cycle(write)]
    fn write_bounded(
        &mut self,
        body: &Hir,
        least: u32,
        most: u32,
        greedy: bool,
        exit: u32,
    ) -> Result<u32, AllocError>
        requires room { let body = tree_of body.now in length self.old
            + ((least + (most - least)) * places body + bounded_places least (most - least))
            < 2 ^ 32 }
        requires slots { greatest_index (tree_of body.now) < 2 ^ 31 }
        ensures written { let body = layout (tree_of body.now) in IfOk result (λ entry. IsAdded
            (map place_of self.old) (map place_of self.new) entry
            (bounded_layout greedy body least (most - least) (length self.old) exit)) }
        ensures grown { let body = tree_of body.now in IfOk result (λ _. length self.new
            ≡ length self.old + ((least + (most - least)) * places body
            + bounded_places least (most - least))) }
    {
        if most <= least {
            if least == 0 {
                return self.add_empty(exit);
            }
            return self.write_copies(body, least, exit);
        }
        let join = self.add_empty(exit)?;
        let choices = self.write_choices(body, most - least, greedy, join)?;
        if least > 0 {
            self.write_copies(body, least, choices)
        } else if most == 1 {
            Ok(choices)
        } else {
            self.add_empty(choices)
        }
    }

    /// `count` copies, one after another.
    #[cycle(write)]
    fn write_copies(&mut self, body: &Hir, count: u32, exit: u32) -> Result<u32, AllocError>
        requires room { length self.old + count * places (tree_of body.now) < 2 ^ 32 }
        requires slots { greatest_index (tree_of body.now) < 2 ^ 31 }
        ensures written { IfOk result (λ entry. IsAdded
            (map place_of self.old) (map place_of self.new) entry
            (copies_layout (layout (tree_of body.now)) count (length self.old) exit)) }
        ensures grown { IfOk result (λ _.
            length self.new ≡ length self.old + count * places (tree_of body.now)) }
    {
        let mut next = exit;
        for _i in 0..count {
            next = self.write(body, next)?;
        }
        Ok(next)
    }

    /// `count` copies, one after another, each after a choice that may lead to the join.
    #[cycle(write)]
    fn write_choices(
        &mut self,
        body: &Hir,
        count: u32,
        greedy: bool,
        join: u32,
    ) -> Result<u32, AllocError>
        requires room { length self.old + count * (places (tree_of body.now) + 1) < 2 ^ 32 }
        requires slots { greatest_index (tree_of body.now) < 2 ^ 31 }
        ensures written { IfOk result (λ entry. IsAdded
            (map place_of self.old) (map place_of self.new) entry
            (choices_layout greedy (layout (tree_of body.now)) count (length self.old) join)) }
        ensures grown { IfOk result (λ _.
            length self.new ≡ length self.old + count * (places (tree_of body.now) + 1)) }
    {
        let mut next = join;
        for _i in 0..count {
            let inner = self.write(body, next)?;
            next = self.add_choice(greedy, inner, join)?;
        }
        Ok(next)
    }

    /// A loop: the choice and the body, and where each is entered. The choice comes first, but is
    /// filled in only after the body has been written.
    #[cycle(write)]
    fn write_loop(&mut self, body: &Hir, greedy: bool, exit: u32) -> Result<(u32, u32), AllocError>
        requires room { length self.old + (places (tree_of body.now) + 1) < 2 ^ 32 }
        requires slots { greatest_index (tree_of body.now) < 2 ^ 31 }
        ensures choice { IfOk result (λ entries. entries.0 ≡ length self.old) }
        ensures body { IfOk result (λ entries.
            entries.1 ≡ (layout (tree_of body.now) (length self.old + 1) (length self.old)).1) }
        ensures written { let body = layout (tree_of body.now) in IfOk result (λ _.
            map place_of self.new
            ≡ map place_of self.old ++ (star_layout greedy body (length self.old) exit).0) }
        ensures grown { IfOk result (λ _.
            length self.new ≡ length self.old + (places (tree_of body.now) + 1)) }
    {
        let choice = self.add_empty(exit)?;
        let inner = self.write(body, choice)?;
        self.put_choice(choice, greedy, inner, exit);
        Ok((choice, inner))
    }
}
