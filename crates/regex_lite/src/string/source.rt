//! What the groups of a match share with the regex or the list of patterns that found it.
ghost use Rattle.std.specs.Prelude.{◌≡◌, ◌*◌, ◌<◌, length};
ghost use Rattle.regex_lite.specs.Compiled.{stored_groups};
ghost use Rattle.regex_lite.specs.CompiledList.{groups_at};

use crate::owner::Shared;
use crate::string::compiled::Compiled;
use crate::string::list::compiled::CompiledList;
use std::marker::Model;
use std::rc::RcStr;

/// What found a match: a regex, or the pattern with this number in a list.
enum Finder {
    Regex(Shared<Compiled>),
    Listed(Shared<CompiledList>, usize),
}

/// The source of the names of one pattern's groups.
#[derive(Drop)]
pub(super) struct Source {
    finder: Finder,
}

/// Written by hand, so that dropping groups is one call in a proof, not two paths.
impl Drop for Finder {
    fn drop(self) {
        match self {
            Finder::Regex(compiled) => drop(compiled),
            Finder::Listed(list, _) => drop(list),
        }
    }
}

impl Model for Source {
    ghost use Rattle.regex_lite_engine.specs.Graph.StoredList.{StoredGroups};
    ghost use Rattle.regex_lite.specs.CompiledList.{IsThere, groups_from};

    ghost Value = { StoredGroups };

    ghost view = { λ source. groups_from source.finder };

    ghost invariant = { λ source. IsThere source.finder };
}

impl Source {
    /// The source for matches of a regex.
    pub fn of_regex(compiled: Shared<Compiled>) -> Source
        ensures { result ≡ stored_groups compiled }
    {
        Source {
            finder: Finder::Regex(compiled),
        }
    }

    /// The source for matches of the pattern with this number.
    pub fn of_listed(list: Shared<CompiledList>, number: usize) -> Source
        requires { number < length list.graph.groups }
        ensures { result ≡ groups_at list.graph.groups number }
    {
        Source {
            finder: Finder::Listed(list, number),
        }
    }

    /// The names of the groups by index, from group 0 on.
    pub fn capture_names(&self) -> &[Option<RcStr>]
        ensures { result.now ≡ self.now.capture_names }
    {
        match &self.finder {
            Finder::Regex(compiled) => compiled.graph.capture_names(),
            Finder::Listed(list, number) => list.graph.groups(*number).capture_names(),
        }
    }

    /// The number of slots of the groups: two for each.
    pub fn slots(&self) -> usize
        ensures { result ≡ 2 * length self.now.capture_names }
    {
        2 * self.capture_names().len()
    }
}
