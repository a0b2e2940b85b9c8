//! Rows of slots.
ghost use Rattle.std.specs.Prelude.{◌≡◌, ◌+◌, ◌-◌, ◌≤◌, ◌<◌, ◌⊎◌, [], ◌++◌, IfOk, None, length};
ghost use Rattle.std.specs.Prelude.{take, drop, replicate, slice_index_or, slice_set, vec_capacity};
ghost use Rattle.regex_lite_engine.specs.Pikevm.Cells.{padded};

use crate::pikevm::slot::Slot;
use std::alloc::{AllocError, Global};
use std::marker::Model;

/// A fixed number of rows of one width. All their memory is requested at once, and none if the
/// width is 0.
#[derive(Drop)]
pub struct Rows {
    /// The rows, one after another, up to the last that a search has reached: it needs few of them,
    /// and filling the others would cost more than a short search. The others count as blank.
    slots: Vec<Slot>,
    width: usize,
    count: usize,
}

impl Model for Rows {
    ghost use Rattle.std.specs.Prelude.{◌*◌, List, vec_capacity};
    ghost use Rattle.regex_lite_engine.specs.Search.Rows.{Row};
    ghost use Rattle.regex_lite_engine.specs.Pikevm.Cells.{rows_in, padded, AreRows};

    ghost Value = { List Row };

    ghost view = { λ rows. rows_in (padded rows.slots.items (rows.count * rows.width)) rows.width
        rows.count };

    ghost invariant = { λ rows. AreRows rows.slots.items (vec_capacity rows.slots) rows.width
        rows.count };
}

impl Rows {
    /// Rows with nothing marked.
    pub fn blank(alloc: Global, count: usize, width: usize) -> Result<Rows, AllocError>
        ensures count { IfOk result (λ rows. length rows ≡ count) }
        ensures width { IfOk result (λ rows. 0 < count
            → length (slice_index_or rows 0 []) ≡ width) }
    {
        let all = count.checked_mul(width).ok_or(AllocError)?;
        let mut slots = Vec::with_capacity(alloc, all)?;
        slots.resize(width.min(all), Slot::blank())?;
        Ok(Rows {
            slots,
            width,
            count,
        })
    }

    /// The number of rows.
    pub fn count(&self) -> usize
        ensures { result ≡ length self.now }
    {
        self.count
    }

    /// The first row.
    pub fn first(&self) -> &[Slot]
        requires { 0 < length self.now }
        ensures { result.now ≡ slice_index_or self.now 0 [] }
    {
        &self.slots[..self.width]
    }

    /// Sets a slot of the first row.
    pub fn put(&mut self, slot: u32, held: Slot)
        requires some { 0 < length self.old }
        requires inside { slot < length (slice_index_or self.old 0 []) }
        ensures { self.new
            ≡ slice_set self.old 0 (slice_set (slice_index_or self.old 0 []) slot held) }
    {
        self.slots[slot as usize] = held;
    }

    /// Copies a row over another one.
    pub fn copy(&mut self, from: usize, to: usize)
        requires from { from < length self.old }
        requires to { to < length self.old }
        requires apart { ¬ (from ≡ to) }
        ensures copied { self.new ≡ slice_set self.old to (slice_index_or self.old from []) }
        ensures width { length (slice_index_or self.old from [])
            ≡ length (slice_index_or self.old to []) }
    {
        // Most searches keep no slots, and then a copy costs nothing.
        if self.width > 0 {
            self.copy_slots(from, to);
        }
    }

    /// Like `copy`, for rows that have slots.
    // Not inlined, so that the loop of a search without slots has only the test.
    #[inline(never)]
    fn copy_slots(&mut self, from: usize, to: usize)
        requires from { from < length self.old }
        requires to { to < length self.old }
        requires apart { ¬ (from ≡ to) }
        ensures copied { self.new ≡ slice_set self.old to (slice_index_or self.old from []) }
        ensures width { length (slice_index_or self.old from [])
            ≡ length (slice_index_or self.old to []) }
    {
        let start = from * self.width;
        let place = to * self.width;
        let end = start.max(place) + self.width;
        // Two functions, so that the common one saves no more registers than it needs.
        if self.slots.len() < end {
            copy_filled(&mut self.slots, start, place, self.width, end);
        } else {
            copy_row(&mut self.slots, start, place, self.width);
        }
    }

    /// Clears a row.
    pub fn clear(&mut self, row: usize)
        requires { row < length self.old }
        ensures { self.new ≡ slice_set self.old row
            (replicate (length (slice_index_or self.old 0 [])) None) }
    {
        let start = row * self.width;
        fill_to(&mut self.slots, start + self.width);
        clear_row(&mut self.slots, start, self.width);
    }
}

/// Extends the slots with blank ones to this number, if there are fewer. There is capacity for
/// them.
#[inline(never)]
fn fill_to(slots: &mut Vec<Slot>, end: usize)
    requires { end ≤ vec_capacity slots.old }
    ensures items { slots.new.items
        ≡ padded slots.old.items end }
    ensures capacity { vec_capacity slots.old ≤ vec_capacity slots.new }
{
    if slots.len() < end {
        let _ = slots.resize(end, Slot::blank());
    }
}

/// Extends the slots to this end, and copies a row of this width.
#[inline(never)]
fn copy_filled(slots: &mut Vec<Slot>, from: usize, to: usize, width: usize, end: usize)
    requires room { end ≤ vec_capacity slots.old }
    requires from { from + width ≤ end }
    requires to { to + width ≤ end }
    requires apart { (from + width ≤ to) ⊎ (to + width ≤ from) }
    ensures copied { slots.new.items ≡ take to (padded slots.old.items end)
        ++ (take width (drop from (padded slots.old.items end))
        ++ drop (to + width) (padded slots.old.items end)) }
    ensures capacity { vec_capacity slots.old ≤ vec_capacity slots.new }
{
    fill_to(slots, end);
    copy_row(slots, from, to, width);
}

/// Copies a row of this width.
#[inline(never)]
fn copy_row(slots: &mut Vec<Slot>, from: usize, to: usize, width: usize)
    requires from { from + width ≤ length slots.old.items }
    requires to { to + width ≤ length slots.old.items }
    requires apart { (from + width ≤ to) ⊎ (to + width ≤ from) }
    ensures copied { slots.new.items ≡ take to slots.old.items
        ++ (take width (drop from slots.old.items) ++ drop (to + width) slots.old.items) }
    ensures capacity { vec_capacity slots.new ≡ vec_capacity slots.old }
{
    if from < to {
        let (head, tail) = slots.split_at_mut(to);
        tail[..width].copy_from_slice(&head[from..from + width]);
    } else {
        let (head, tail) = slots.split_at_mut(from);
        head[to..to + width].copy_from_slice(&tail[..width]);
    }
}

/// Clears a row of this width.
#[inline(never)]
fn clear_row(slots: &mut Vec<Slot>, from: usize, width: usize)
    requires { from + width ≤ length slots.old.items }
    ensures cleared { slots.new.items ≡ take from slots.old.items
        ++ (replicate width None ++ drop (from + width) slots.old.items) }
    ensures capacity { vec_capacity slots.new ≡ vec_capacity slots.old }
{
    let to = from + width;
    slots[from..to].fill(Slot::blank());
}
