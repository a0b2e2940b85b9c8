//! The place of the first fault in a pattern.
ghost use Rattle.std.specs.Prelude.{chars, IfOk, IfErr, MatchOption};
ghost use Rattle.regex_lite_syntax.specs.Errors.{kind_of};
ghost use Rattle.regex_lite_syntax.specs.FaultPlaces.{IsUntold};
ghost use Rattle.regex_lite.specs.FaultOffsets.{HasTreeUnder, IsFaultSpan};
ghost use Rattle.regex_lite_c.specs.Faults.{IsFaultAnswer};
ghost use Rattle.regex_lite_c.specs.Options.{flags_of, settings_of};

use crate::answer::{NO, NOT_TEXT, YES, number_of};
use crate::build::builder_of;
use crate::types::{Fault, Options};
use regex_lite::{Error, FaultSpan};
use std::alloc::Global;

/// The place of the first fault in a pattern: 1 with the fault written, or 0 if the grammar gives
/// the pattern a tree.
///
/// If `regex_lite_new` rejects a pattern for its syntax, this call finds the place of the fault.
/// The limits of the options don't matter.
#[unsafe(no_mangle)]
pub extern "C" fn regex_lite_fault_at(
    alloc: Global,
    pattern: &[u8],
    options: &Options,
    fault: &mut Fault,
) -> u32
    ensures { IsFaultAnswer (settings_of pattern.now options.now) fault.old fault.new result }
{
    let Ok(pattern) = std::str::from_utf8(pattern) else {
        return NOT_TEXT;
    };
    match first_fault(alloc, pattern, options) {
        Ok(Some(span)) => {
            *fault = Fault::of(span, pattern.len());
            YES
        }
        Ok(None) => NO,
        Err(error) => number_of(&error),
    }
}

/// The pattern's first fault under these options, if it has one.
fn first_fault(alloc: Global, pattern: &str, options: &Options) -> Result<Option<FaultSpan>, Error>
    ensures found { let settings = settings_of pattern.now options.now in IfOk result (λ found.
        MatchOption found (HasTreeUnder settings)
        (λ span. IsFaultSpan settings span × (HasTreeUnder settings → ⊥))) }
    ensures refused { IfErr result (λ error.
        IsUntold (flags_of options.now) (chars pattern.now) (kind_of error)) }
{
    builder_of(alloc, pattern, options)?.fault_at()
}
