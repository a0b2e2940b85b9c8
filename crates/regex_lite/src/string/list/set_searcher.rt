//! A searcher for which of several patterns match, which reuses its memory.
ghost use Rattle.std.specs.Prelude.{◌≡◌, IfOk, IfErr, length};
ghost use Rattle.regex_lite_syntax.specs.Errors.{out_of_memory};
ghost use Rattle.regex_lite.specs.RegexListSearches.{TellsWhichMatch};
ghost use Rattle.regex_lite.specs.Searches.{CanStartAt};

use crate::string::list::RegexList;
use crate::string::list::set_matches::SetMatches;
use regex_lite_syntax::Error;
use std::marker::Model;

/// Several patterns, and the memory of the searches for each of them.
#[derive(Drop)]
pub(super) struct SetSearcher<'r> {
    list: &'r RegexList,
    inner: regex_lite_meta::GraphSetSearcher<'r>,
}

impl<'r> Model for SetSearcher<'r> {
    ghost use Rattle.std.specs.Prelude.{List};
    ghost use Rattle.regex_lite.specs.Expression.{Expression};
    ghost use Rattle.regex_lite.specs.Keeping.{SearchesForEach};

    ghost Value = { List Expression };

    ghost view = { λ searcher. searcher.list.now };

    ghost invariant = { λ searcher. SearchesForEach searcher.list.now searcher.inner };
}

impl<'r> SetSearcher<'r> {
    /// A searcher of these patterns, with all memory that it needs.
    pub fn new(list: &'r RegexList) -> Result<SetSearcher<'r>, Error>
        ensures list { IfOk result (λ searcher. searcher ≡ list.now) }
        ensures refused { IfErr result (λ error. error ≡ out_of_memory) }
    {
        let graph = &list.compiled.graph;
        let inner = regex_lite_meta::GraphSetSearcher::new(list.alloc, graph)?;
        Ok(SetSearcher { list, inner })
    }

    /// Writes to the set which of the patterns match somewhere from this offset on.
    pub fn tell(&mut self, set: &mut SetMatches, haystack: &str, start: usize)
        requires room { length set.old ≡ length self.old }
        requires start { CanStartAt haystack.now start }
        ensures found { TellsWhichMatch self.old haystack.now start set.new }
        ensures same { self.new ≡ self.old }
    {
        self.inner.search(haystack, start, &mut set.matched);
    }
}
