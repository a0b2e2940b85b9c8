//! Which patterns may match without reading a character.
ghost use Rattle.std.specs.Prelude.{◌≡◌, ◌<◌, Some, length, slice_get};

use crate::nfa::Graph;
use crate::nfa::list::GraphList;

impl Graph {
    /// Whether each match reads a character, if looks are assumed to hold.
    pub fn reads(&self) -> bool
        ensures { result ≡ self.now.reads }
    {
        self.reads
    }
}

impl GraphList {
    /// Whether each match of the pattern with this number reads a character, if looks are assumed
    /// to hold.
    ///
    /// Condition: the list has more patterns than this number.
    pub fn reads(&self, number: usize) -> bool
        requires { number < length self.now.reads }
        ensures { slice_get self.now.reads number ≡ Some result }
    {
        self.reads[number]
    }
}
