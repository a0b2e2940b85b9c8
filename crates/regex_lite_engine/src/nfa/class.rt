//! Character sets in a graph.
ghost use Rattle.std.specs.Prelude.{◌≡◌, IfOk};
ghost use Rattle.regex_lite_syntax.specs.Ranges.{in_ranges, AreRuns};

use regex_lite_syntax::{Class, ClassRange};
use std::alloc::AllocError;
use std::marker::Model;
use std::rc::Rc;

/// A character set with a bitmap of its ASCII characters, so that a test of an ASCII character is a
/// single look-up. All places with the set share it.
#[derive(Drop)]
pub struct MappedClass {
    // Two words, since a `u128` would be aligned to 16 bytes and make each place of a graph larger.
    ascii: [u64; 2],
    class: Rc<Class>,
}

impl Model for MappedClass {
    ghost use Rattle.std.specs.Prelude.{List};
    ghost use Rattle.regex_lite_syntax.specs.declared.class.ClassRange.{ClassRange};
    ghost use Rattle.regex_lite_syntax.specs.Ranges.{in_ranges};
    ghost use Rattle.regex_lite_syntax.specs.AsciiMaps.{AreMapOf};

    ghost Value = { List ClassRange };

    ghost view = { λ set. set.class.value };

    ghost invariant = { λ set. AreMapOf set.ascii (in_ranges set.class.value) };
}

impl MappedClass {
    /// The set of the class, which is shared.
    pub(crate) fn new(class: &Rc<Class>) -> Result<MappedClass, AllocError>
        ensures { IfOk result (λ set. set ≡ class.now.value) }
    {
        Ok(MappedClass {
            ascii: class.ascii(),
            class: class.clone()?,
        })
    }

    /// Whether the set holds the character.
    // Inlined, so that the loop of a search needn't save its registers for an ASCII character.
    #[inline(always)]
    pub(crate) fn contains(&self, c: char) -> bool
        ensures { result ≡ in_ranges self.now c }
    {
        if c.is_ascii() {
            let word = self.ascii[c as usize / 64];
            (word >> (c as u32 % 64)) & 1 == 1
        } else {
            self.class.contains(c)
        }
    }

    /// The maximal runs of the set, in order.
    pub fn ranges(&self) -> &[ClassRange]
        ensures same { result.now ≡ self.now }
        ensures runs { AreRuns 0 result.now }
    {
        self.class.ranges()
    }
}
