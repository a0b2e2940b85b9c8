//! Several patterns, each of which may start anywhere.
ghost use Rattle.std.specs.Prelude.{◌≡◌, ◌<◌, All, length};
ghost use Rattle.regex_lite_engine.specs.Graph.StoredList.{table_of_list};
ghost use Rattle.regex_lite_engine.specs.Search.Starts.{AreAllStarts};

use crate::nfa::list::GraphList;
use crate::nfa::table::Table;
use crate::search::here::Here;
use crate::search::list_skip::skip_all;
use crate::search::patterns::{Patterns, Start};

/// The patterns of a list. All of them start at each position, so that a step is independent
/// of the position.
#[derive(Clone, Copy)]
pub struct AllOfList<'g> {
    pub list: &'g GraphList,
}

impl<'g> Patterns for AllOfList<'g> {
    ghost use Rattle.std.specs.Prelude.{length, map};
    ghost use Rattle.std.specs.List.{range_with_len};
    ghost use Rattle.regex_lite_engine.specs.Graph.StoredList.{table_of_list};
    ghost use Rattle.regex_lite_engine.specs.Search.Starts.{start_numbered};

    ghost table = { λ all. table_of_list all.list.now };

    ghost entries = { λ all. all.list.now.entries };

    ghost starts = { λ all. map (start_numbered all.list.now.entries)
        (range_with_len 0 (length all.list.now.entries)) };

    fn table(&self) -> &Table {
        self.list.table()
    }

    fn skip(&self, haystack: &str, here: Here) -> Option<Here> {
        skip_all(self.list, haystack, here)
    }

    fn has_prefilter(&self) -> bool {
        self.list.needed().is_some()
    }

    fn come_to(&mut self, _: &str, _: Here) {
        // Pattern numbers have 32 bits, since there are no more patterns.
        let _entries = self.list.entries();
    }

    fn len(&self) -> usize {
        self.list.entries().len()
    }

    fn start(&self, k: usize) -> Start {
        let entries = self.list.entries();
        Start {
            number: k as u32,
            place: entries[k],
        }
    }
}
