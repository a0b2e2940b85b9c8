//! A searcher with a text of its own, which is validated as UTF-8 once.
//!
//! It takes the regex out of its handle. Sharing it would tie two handles to one thread, since the
//! count of a regex's owners isn't atomic. Its text is a copy: a pointer to the caller's text would
//! outlive the call that was given it, and what stands there could be changed or freed.
ghost use Rattle.std.specs.Prelude.{◌≡◌, [], IfErr, IfOk, MatchResult};
ghost use Rattle.std.specs.String.{string_bytes};
ghost use Rattle.regex_lite_syntax.specs.Errors.{out_of_memory};

mod anchored;
mod build;
mod search;

use regex_lite::{CaptureLocations, Error, Regex, RegexSearcher};
use std::alloc::{AllocError, Global};
use std::marker::Model;

/// A regex, the memory of its searches, and the text that is searched.
#[derive(Drop)]
pub(crate) struct TextSearcher {
    searcher: RegexSearcher<'static>,
    text: String,
    /// The groups of the last match for which they were requested.
    groups: CaptureLocations,
}

impl Model for TextSearcher {
    ghost use Rattle.std.specs.String.{string_bytes};
    ghost use Rattle.regex_lite_c.specs.Searchers.{HasEachGroup, TextSearch};

    ghost Value = { TextSearch };

    ghost view = { λ own. record { re = own.searcher; text = string_bytes own.text } };

    ghost invariant = { λ own. HasEachGroup own.searcher own.groups };
}

impl TextSearcher {
    /// A searcher for this regex, with an empty text.
    fn new(alloc: Global, regex: &Regex) -> Result<TextSearcher, Error>
        ensures ok { IfOk result (λ own. own ≡ record { re = regex.now; text = [] }) }
        ensures refused { IfErr result (λ error. error ≡ out_of_memory) }
    {
        let groups = regex.capture_locations()?;
        let searcher = regex.clone()?.into_searcher()?;
        Ok(TextSearcher {
            searcher,
            text: String::new(alloc),
            groups,
        })
    }

    /// Replaces the text with this one. If memory runs out, the text is unchanged.
    fn read(&mut self, text: &str) -> Result<(), AllocError>
        ensures read { IfOk result (λ _. self.new ≡ record self.old { text = text.now }) }
        ensures same { IfErr result (λ _. self.new ≡ self.old) }
    {
        read(&mut self.text, text)
    }
}

/// Replaces a text with another. If memory runs out, the text is unchanged.
fn read(own: &mut String, text: &str) -> Result<(), AllocError>
    ensures { MatchResult result (λ _. string_bytes own.new ≡ text.now)
        (λ _. string_bytes own.new ≡ string_bytes own.old) }
{
    own.reserve(text.len().saturating_sub(own.len()))?;
    own.clear();
    // The capacity suffices now, so this doesn't fail.
    own.push_str(text)
}
