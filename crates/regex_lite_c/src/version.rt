//! The version of the library. It has a file of its own, which a build without a proof replaces.

/// The version, as `REGEX_LITE_VERSION` of the header has it.
pub(crate) const VERSION: &str = "0.1.9";
