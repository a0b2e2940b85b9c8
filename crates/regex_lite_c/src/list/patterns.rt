//! The patterns of a list, as a caller passes them.
ghost use Rattle.std.specs.Prelude.{◌≡◌, ◌↔◌, IfOk, IfErr, IsTrue, map};
ghost use Rattle.regex_lite_c.specs.ListBuilding.{AreAllBytes, AreTexts, IsRefusedAs};
ghost use Rattle.regex_lite_c.specs.ListBuilding.{settings_of_all, settings_of_source};

use crate::list::build::Refused;
use crate::list::types::ListPattern;
use crate::types::Options;
use regex_lite::Error;
use std::alloc::Global;

/// One of several patterns, and its settings.
#[derive(Clone, Copy)]
pub(crate) struct PatternSource<'a> {
    /// The pattern.
    pub(crate) text: &'a str,
    /// The settings under which it is built.
    pub(crate) options: &'a Options,
}

/// Whether the patterns' lengths add up to that of the bytes.
pub(crate) fn are_all_bytes(patterns: &[ListPattern], bytes: &[u8]) -> bool
    ensures { IsTrue result ↔ AreAllBytes patterns.now bytes.now }
{
    let mut left = bytes.len();
    for pattern in patterns {
        if left < pattern.len {
            return false;
        }
        left -= pattern.len;
    }
    left == 0
}

/// The patterns, if each is valid UTF-8.
pub(crate) fn sources<'a>(
    alloc: Global,
    bytes: &'a [u8],
    patterns: &'a [ListPattern],
) -> Result<Vec<PatternSource<'a>>, Refused>
    requires { AreAllBytes patterns.now bytes.now }
    ensures ok { IfOk result (λ sources.
        map settings_of_source sources.items ≡ settings_of_all bytes.now patterns.now) }
    ensures texts { IfOk result (λ _. AreTexts (settings_of_all bytes.now patterns.now)) }
    ensures refused { IfErr result (IsRefusedAs (settings_of_all bytes.now patterns.now)) }
{
    let Ok(mut sources) = Vec::with_capacity(alloc, patterns.len()) else {
        return Err(Refused::By(patterns.len(), Error::memory()));
    };
    let mut rest = bytes;
    for pattern in patterns {
        let (own, later) = rest.split_at(pattern.len);
        let Ok(text) = std::str::from_utf8(own) else {
            return Err(Refused::NotText(sources.len()));
        };
        let options = &pattern.options;
        if sources.push(PatternSource { text, options }).is_err() {
            return Err(Refused::By(patterns.len(), Error::memory()));
        }
        rest = later;
    }
    Ok(sources)
}
