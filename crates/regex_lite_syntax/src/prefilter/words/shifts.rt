//! A search for several words by shifts.
ghost use Rattle.std.specs.Prelude.{◌≡◌, ◌↔◌, ◌<◌, ◌≤◌, ◌+◌, ◌^◌, ℕ, List, IfOk, IsTrue};
ghost use Rattle.std.specs.Prelude.{MatchOption, length, slice_index};
ghost use Rattle.regex_lite_syntax.specs.Prefilter.Finders.{AreShiftsOf};
ghost use Rattle.regex_lite_syntax.specs.Prefilter.Shifts.{AreLinks, AreShifts, LeadsToAllAt};
ghost use Rattle.regex_lite_syntax.specs.Prefilter.Shifts.{NeverPasses, bucket_at, bucket_of};
ghost use Rattle.regex_lite_syntax.specs.Prefilter.Shifts.{key_of, mixed};
ghost use Rattle.regex_lite_syntax.specs.Prefilter.WordLists.{all_words};
ghost use Rattle.regex_lite_syntax.specs.Prefilter.Words.{AnyStandsAt, AreLong, IsFirstAt};
ghost use Rattle.regex_lite_syntax.specs.Prefilter.Words.{IsNextWord, StartsWith};
ghost use Rattle.regex_lite_syntax.specs.Prefilter.Words.{word_at};

mod marking;
mod shared_letter;
mod stops;

use crate::prefilter::words::letter::Letter;
use crate::prefilter::words::shifts::shared_letter::SharedLetter;
use crate::prefilter::words::standing::stands;
use crate::prefilter::words::word_list::WordList;
use std::alloc::{AllocError, Global};

/// How many keys a pair of bytes can have.
const KEYS: usize = 1024;

/// How far a search shifts at most.
const MOST_REACH: usize = 16;

/// How many letters the bucket of a word depends on at most.
const MOST_HASHED: usize = 4;

/// How far a search for words may shift, and which of them may stand where it can't.
#[derive(Drop)]
pub(super) struct Shifts {
    /// How many letters each word has at least.
    reach: usize,
    /// For each key of a pair of bytes that ends the reach, how far it may shift.
    shifts: Vec<u8>,
    /// On how many letters a bucket depends.
    hashed: usize,
    /// The first word of each bucket, as its number and one more, or 0 where there is none.
    first: Vec<u32>,
    /// The next word of the same bucket.
    next: Vec<u32>,
    /// A rare letter of all words, if there is one.
    shared: Option<SharedLetter>,
}

impl Shifts {
    /// Those of these words.
    ///
    /// Condition: each has two letters at least, and there are fewer words than a link can number.
    ///
    /// # Errors
    ///
    /// If memory runs out.
    pub(super) fn of(alloc: Global, words: &WordList) -> Result<Shifts, AllocError>
        requires few { length (all_words words.now) < 2 ^ 32 }
        requires long { AreLong (all_words words.now) }
        ensures { IfOk result (AreShiftsOf (all_words words.now)) }
    {
        let reach = shortest(words).min(MOST_REACH);
        let shifts = shifts_of(alloc, words, reach)?;
        let hashed = reach.min(MOST_HASHED);
        let mut first = vec![in alloc; 0; buckets_for(words.len())]?;
        let mut next = vec![in alloc; 0; words.len()]?;
        link_words(&mut first, &mut next, words, hashed);
        Ok(Shifts {
            reach,
            shifts,
            hashed,
            first,
            next,
            shared: SharedLetter::of(words),
        })
    }

    /// How many letters each word has at least, as far as a search shifts.
    pub(super) fn reach(&self) -> usize {
        self.reach
    }

    /// The first offset from this one on at which a word stands, and the first word that stands
    /// there.
    ///
    /// Condition: the shifts are those of the words, and the offset is at most the length.
    // Not inlined, since the loop of a search is so large that this one would lose its registers.
    #[inline(never)]
    pub(super) fn find(&self, words: &WordList, bytes: &[u8], from: usize) -> Option<(usize, usize)>
        requires from { from ≤ length bytes.now }
        requires shifts { AreShiftsOf (all_words words.now) self.now }
        ensures { IsNextWord (all_words words.now) bytes.now from result }
    {
        let mut at = from;
        let mut span = self.first_span(bytes, from);
        'stops: while let Some(stop) = self.next_stop(bytes, at, &mut span) {
            if let Some(number) = self.first_at(words, bytes, stop) {
                return Some((stop, number));
            }
            at = stop + 1;
        }
        None
    }

    /// Whether a word stands at this offset.
    ///
    /// Condition: the shifts are those of the words, and the offset is at most the length.
    // Not inlined, as `find` isn't.
    #[inline(never)]
    pub(super) fn stands_at(&self, words: &WordList, bytes: &[u8], at: usize) -> bool
        requires inside { at ≤ length bytes.now }
        requires shifts { AreShiftsOf (all_words words.now) self.now }
        ensures { IsTrue result ↔ AnyStandsAt (all_words words.now) bytes.now at }
    {
        if bytes.len() - at < self.reach {
            return false;
        }
        self.first_at(words, bytes, at).is_some()
    }

    /// The link to the first of the words that may stand there.
    #[inline(always)]
    fn first_link(&self, bytes: &[u8], at: usize) -> usize
        requires room { at + self.now.reach ≤ length bytes.now }
        requires shifts { (words : List (List Letter)) × AreShiftsOf words self.now }
        ensures { (words : List (List Letter)) → AreShiftsOf words self.now
            → LeadsToAllAt words self.now.next.items bytes.now at result }
    {
        let mut hash = 0;
        'bytes: for k in 0..self.hashed {
            hash = mixed(hash, bytes[at + k]);
        }
        self.first[bucket(hash, self.first.len())] as usize
    }

    /// The first word that stands there.
    #[inline(always)]
    fn first_at(&self, words: &WordList, bytes: &[u8], at: usize) -> Option<usize>
        requires room { at + self.now.reach ≤ length bytes.now }
        requires shifts { AreShiftsOf (all_words words.now) self.now }
        ensures { MatchOption result (¬ AnyStandsAt (all_words words.now) bytes.now at)
            (IsFirstAt (all_words words.now) bytes.now at) }
    {
        let mut link = self.first_link(bytes, at);
        'words: while link > 0 {
            let number = link - 1;
            if stands(words.word(number), bytes, at) {
                return Some(number);
            }
            link = self.next[number] as usize;
        }
        None
    }
}

/// The number of letters of the shortest word.
pub(super) fn shortest(words: &WordList) -> usize
    requires { AreLong (all_words words.now) }
    ensures two { 2 ≤ result }
    ensures least { (number : ℕ) → number < length (all_words words.now)
        → result ≤ length (word_at (all_words words.now) number) }
{
    let mut least = words.word(0).len();
    'words: for number in 1..words.len() {
        least = least.min(words.word(number).len());
    }
    least
}

/// The key of a pair of bytes. Letters have the same in both cases.
#[inline(always)]
fn key(first: u8, second: u8) -> usize
    ensures key { result ≡ key_of first second }
    ensures small { result < 1024 }
{
    (first % 32) as usize * 32 + (second % 32) as usize
}

/// The shifts for these words, each of which has as many letters as the reach.
///
/// # Errors
///
/// If memory runs out.
fn shifts_of(alloc: Global, words: &WordList, reach: usize) -> Result<Vec<u8>, AllocError>
    requires two { 2 ≤ reach }
    requires few { reach ≤ 16 }
    requires long { (number : ℕ) → number < length (all_words words.now)
        → reach ≤ length (word_at (all_words words.now) number) }
    ensures { IfOk result (λ shifts. AreShifts (all_words words.now) reach shifts.items) }
{
    let mut shifts = vec![in alloc; (reach - 1) as u8; KEYS]?;
    'words: for number in 0..words.len() {
        lower(&mut shifts, words.word(number), reach);
    }
    Ok(shifts)
}

/// Lowers the shifts for the pairs of the word.
fn lower(shifts: &mut [u8], word: &[Letter], reach: usize)
    requires two { 2 ≤ reach }
    requires few { reach ≤ 16 }
    requires long { reach ≤ length word.now }
    requires keys { length shifts.old ≡ 1024 }
    ensures lower { (key : ℕ) → slice_index shifts.new key ≤ slice_index shifts.old key }
    ensures near { NeverPasses reach shifts.new word.now }
{
    'pairs: for k in 0..reach - 1 {
        let key = key(word[k].byte, word[k + 1].byte);
        shifts[key] = shifts[key].min((reach - 2 - k) as u8);
    }
}

/// Links the words of each bucket, in the order of their numbers.
fn link_words(first: &mut [u32], next: &mut [u32], words: &WordList, hashed: usize)
    requires few { length (all_words words.now) < 2 ^ 32 }
    requires long { (number : ℕ) → number < length (all_words words.now)
        → hashed ≤ length (word_at (all_words words.now) number) }
    requires buckets { 0 < length first.old }
    requires numbers { length next.old ≡ length (all_words words.now) }
    requires none_first { (bucket : ℕ) → slice_index first.old bucket ≡ 0 }
    requires none_next { (number : ℕ) → slice_index next.old number ≡ 0 }
    ensures { AreLinks (all_words words.now) hashed first.new next.new }
{
    let mut left = words.len();
    'words: while left > 0 {
        let bucket = bucket_of_word(words.word(left - 1), hashed, first.len());
        next[left - 1] = first[bucket];
        first[bucket] = left as u32;
        left -= 1;
    }
}

/// How many buckets there are for this number of words, a power of two.
fn buckets_for(words: usize) -> usize
    requires { words < 2 ^ 32 }
    ensures { 0 < result }
{
    let mut buckets = 16;
    'buckets: while buckets < words {
        buckets *= 2;
    }
    buckets
}

/// A number that depends on the order of the bytes before this one, and on this one but for the
/// case of a letter.
#[inline(always)]
fn mixed(hash: usize, byte: u8) -> usize
    ensures { result ≡ mixed hash byte }
{
    hash.wrapping_mul(0x2F).wrapping_add((byte % 32) as usize)
}

/// The bucket of this hash.
#[inline(always)]
fn bucket(hash: usize, buckets: usize) -> usize
    requires { 0 < buckets }
    ensures bucket { result ≡ bucket_at hash buckets }
    ensures inside { result < buckets }
{
    (hash ^ (hash >> 7)) & (buckets - 1)
}

/// The bucket of the word.
fn bucket_of_word(word: &[Letter], hashed: usize, buckets: usize) -> usize
    requires some { 0 < buckets }
    requires long { hashed ≤ length word.now }
    ensures bucket { (bytes : List ℕ) → StartsWith word.now bytes
        → bucket_of hashed buckets bytes ≡ result }
    ensures inside { result < buckets }
{
    let mut hash = 0;
    'letters: for k in 0..hashed {
        hash = mixed(hash, word[k].byte);
    }
    bucket(hash, buckets)
}
