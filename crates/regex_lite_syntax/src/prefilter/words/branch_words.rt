//! Whether parts or branches may have words of which each match has one.
use crate::hir::Hir;
use crate::prefilter::words::spelling::letter_of;

/// Whether each of these branches may have a word. Asked first, since many have none, such as those
/// of numbers.
pub(super) fn may_have_words(branches: &[Hir]) -> bool {
    for branch in branches {
        let may_have = match branch {
            Hir::Concat(parts) => any_may_have_word(parts),
            _ => may_have_word(branch),
        };
        if !may_have {
            return false;
        }
    }
    true
}

/// Whether one of these parts may have a word.
fn any_may_have_word(parts: &[Hir]) -> bool {
    for part in parts {
        if may_have_word(part) {
            return true;
        }
    }
    false
}

/// Whether the tree may have a word. It isn't looked into.
fn may_have_word(hir: &Hir) -> bool {
    match hir {
        Hir::Empty | Hir::Look(_) => false,
        Hir::Class(set) => letter_of(set).is_some(),
        Hir::Repetition { least, .. } => *least > 0,
        _ => true,
    }
}

/// Whether a word of more letters than this may stand behind as many parts of the tree. Asked
/// first, since most have none there.
pub(super) fn may_have_longer(hir: &Hir, len: usize) -> bool {
    let Hir::Concat(parts) = hir else {
        return false;
    };
    let mut row = 0usize;
    for part in parts.iter().skip(len) {
        row = match part {
            Hir::Char(_) => row.saturating_add(1),
            _ => 0,
        };
        if row > len || may_have_row(part) {
            return true;
        }
    }
    false
}

/// Whether the tree is one of several parts which may have a word.
fn may_have_row(hir: &Hir) -> bool {
    match hir {
        Hir::Capture { .. } | Hir::Concat(_) | Hir::Alternation(_) => true,
        Hir::Repetition { least, body, .. } => *least > 0 && may_have_word(body),
        _ => false,
    }
}
