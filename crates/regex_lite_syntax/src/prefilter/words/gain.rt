//! Whether a search by shifts gains on a search for the bytes with which words begin.
use crate::hir::Hir;
use crate::prefilter::words::frequency::frequency;
use crate::prefilter::words::letter::Letter;
use crate::prefilter::words::word_list::WordList;

/// What it costs to pass over a hundred bytes of which none is looked for.
const PASSED: usize = 13;

/// Where two bytes are looked for together, one stop in this many is left.
const RULED_OUT: usize = 8;

/// As many bytes at most are compared with each byte of a haystack at once.
const FEW: usize = 2;

/// Words of at most this many letters are short.
pub(super) const SHORT: usize = 3;

/// The bytes that words have at one place.
#[derive(Drop)]
struct Column {
    /// A bit for each byte, which is set if it is there.
    seen: [u32; 8],
    count: usize,
    share: usize,
}

impl Column {
    /// One without bytes.
    fn new() -> Column {
        Column {
            seen: [0; 8],
            count: 0,
            share: 0,
        }
    }

    /// Adds the bytes that are the letter.
    fn add(&mut self, letter: Letter) {
        self.add_byte(letter.byte);
        self.add_byte(letter.other);
    }

    /// Adds the byte, if it isn't there yet.
    fn add_byte(&mut self, byte: u8) {
        let (place, bit) = ((byte / 32) as usize, 1u32 << (byte % 32));
        if self.seen[place] & bit == 0 {
            self.seen[place] |= bit;
            self.count = self.count.saturating_add(1);
            self.share = self.share.saturating_add(share_of(byte));
        }
    }
}

/// Whether shifts over this many letters cost no more than a search for the bytes with which the
/// words begin, and a look at each place where one stands. They cost more where these bytes are
/// few or rare and the words short: `cat|dog` took 2.1 times as much by shifts in English text,
/// `ab|cd` 7 times, and `GET|POST|PUT|HEAD|DELETE` 3.4 times in prose.
pub(super) fn shifts_pay(list: &WordList, reach: usize) -> bool {
    let mut first = Column::new();
    let mut second = Column::new();
    'words: for number in 0..list.len() {
        if let [one, other, ..] = list.word(number) {
            first.add(*one);
            second.add(*other);
        }
        let are_few = first.count <= FEW && second.count <= FEW;
        // More words would leave as many stops at least.
        if !are_few && pays(first.share, reach) {
            return true;
        }
    }
    first.count <= FEW && second.count <= FEW && pays(first.share / RULED_OUT, reach)
}

/// Whether shifts may pay for the words of a tree, whatever they are. They don't for branches of
/// which one is short, if the bytes with which they begin are rare.
pub(super) fn may_pay(hir: &Hir) -> bool {
    let Hir::Alternation(branches) = hir else {
        return true;
    };
    let reach = shortest_row(branches);
    if reach > SHORT {
        return true;
    }
    let mut first = Column::new();
    for branch in branches {
        let Some(byte) = first_byte(branch) else {
            return true;
        };
        first.add_byte(byte);
        if pays(first.share, reach) {
            return true;
        }
    }
    false
}

/// How many characters the shortest of these branches has that is a short row of ASCII characters,
/// or one more than are short.
fn shortest_row(branches: &[Hir]) -> usize {
    let mut least = SHORT + 1;
    for branch in branches {
        if let Hir::Concat(parts) = branch {
            if parts.len() < least && are_ascii(parts) {
                least = parts.len();
            }
        }
    }
    least
}

/// Whether each of these parts is an ASCII character.
fn are_ascii(parts: &[Hir]) -> bool {
    for part in parts {
        if ascii_byte(part).is_none() {
            return false;
        }
    }
    true
}

/// The ASCII character with which the tree begins, if it is one or a row of them.
fn first_byte(hir: &Hir) -> Option<u8> {
    match hir {
        Hir::Concat(parts) if !parts.is_empty() => ascii_byte(&parts[0]),
        _ => ascii_byte(hir),
    }
}

/// The ASCII character that the tree is.
fn ascii_byte(hir: &Hir) -> Option<u8> {
    match hir {
        Hir::Char(c) if c.is_ascii() => Some(*c as u8),
        _ => None,
    }
}

/// Whether shifts of at most this many bytes cost no more than this many stops in a thousand bytes.
fn pays(stops: usize, reach: usize) -> bool {
    cost_of_shifts(reach) <= PASSED.saturating_add(stops.saturating_mul(3) / 2)
}

/// What a hundred bytes cost by shifts of at most this many bytes.
fn cost_of_shifts(reach: usize) -> usize {
    match reach {
        0..=2 => 130,
        3 => 75,
        4 => 50,
        5 => 40,
        _ => 25,
    }
}

/// How many in a thousand bytes of a text are this one, by and large.
fn share_of(byte: u8) -> usize {
    match frequency(byte) {
        9 => 100,
        8 => 60,
        7 => 40,
        6 => 20,
        5 => 12,
        4 => 3,
        _ => 1,
    }
}
