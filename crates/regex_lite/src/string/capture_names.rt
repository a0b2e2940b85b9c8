//! An iterator over the names of a regex's groups.
ghost use Rattle.std.specs.Prelude.{◌≡◌, Some, IfSome, length, map, option_map, ⊤};
ghost use Rattle.std.specs.Iterator.{YieldsFirstBy, UpTo, item_count};
ghost use Rattle.std.specs.Iterator.SizeHint.{IsWithinCount};
ghost use Rattle.std.specs.Rc.{rc_str_bytes};

use std::alloc::AllocError;
use std::iter::FusedIterator;
use std::rc::RcStr;

/// The names of a regex's groups by index, from group 0 on. A group without a name has `None`.
///
/// The number of names left is exact. A clone continues from the same name, and needs no memory.
#[derive(Debug, Drop)]
pub struct CaptureNames<'r> {
    names: &'r [Option<RcStr>],
}

impl<'r> CaptureNames<'r> {
    ghost use Rattle.regex_lite.specs.CaptureNames.{names_left};

    /// These names, in this order.
    pub(crate) fn new(names: &'r [Option<RcStr>]) -> CaptureNames<'r>
        ensures { names_left result ≡ map (option_map rc_str_bytes) names.now }
    {
        CaptureNames { names }
    }
}

impl<'r> Clone for CaptureNames<'r> {
    ghost is_clone = { λ old new. new ≡ old };

    ghost is_infallible = { λ _. ⊤ };

    fn clone(&self) -> Result<CaptureNames<'r>, AllocError> {
        Ok(CaptureNames { names: self.names })
    }
}

impl<'r> Iterator for CaptureNames<'r> {
    ghost use Rattle.regex_lite.specs.CaptureNames.{names_left};

    type Item = Option<&'r str>;

    ghost next_gives = { YieldsFirstBy (option_map (λ name. name.now)) names_left };

    ghost remaining = { item_count names_left };

    fn next(&mut self) -> Option<Option<&'r str>> {
        let (first, rest) = self.names.split_first()?;
        self.names = rest;
        match first {
            Some(name) => Some(Some(name.as_str())),
            None => Some(None),
        }
    }

    fn size_hint(&self) -> (usize, Option<usize>)
        ensures lower { IsWithinCount result.0 (item_count names_left self.now) }
        ensures upper { IfSome result.1 (UpTo (item_count names_left self.now)) }
        ensures exact { result
            ≡ (length (names_left self.now), Some (length (names_left self.now))) }
    {
        let len = self.names.len();
        (len, Some(len))
    }
}

impl<'r> ExactSizeIterator for CaptureNames<'r> {
    fn len(&self) -> usize {
        self.names.len()
    }
}

impl<'r> FusedIterator for CaptureNames<'r> {}
