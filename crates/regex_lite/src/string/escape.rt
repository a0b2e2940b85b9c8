//! Escaping: a pattern that matches a given text.
ghost use Rattle.std.specs.Prelude.{◌≡◌, IfErr, IfOk, string_bytes};
ghost use Rattle.regex_lite_syntax.specs.Errors.{out_of_memory};
ghost use Rattle.regex_lite_syntax.specs.Escaped.{is_meta_character};
ghost use Rattle.regex_lite.specs.Escapes.{escaped_pattern};

use regex_lite_syntax::Error;
use std::alloc::Global;

/// A pattern that matches exactly this text.
///
/// It is the text with a `\` before each of `\ . + * ? ( ) | [ ] { } ^ $ # & - ~`. Every other
/// character is unchanged, including white space and letters. So under `ignore_whitespace` its
/// white space is ignored, and under `case_insensitive` it matches in either case.
///
/// ```
/// let pattern = escape(alloc, "3.5 (or so)")?; // r"3\.5 \(or so\)"
/// let regex = Regex::new(alloc, pattern.as_str())?;
/// regex.is_match("it takes 3.5 (or so) days")?; // true
/// regex.is_match("it takes 325 or so days")?; // false
/// ```
///
/// The test `examples::escaped` in tests/unit runs this example.
///
/// # Errors
///
/// `Memory` if memory runs out.
pub fn escape(alloc: Global, pattern: &str) -> Result<String, Error>
    ensures ok { IfOk result (λ escaped. string_bytes escaped ≡ escaped_pattern pattern.now) }
    ensures refused { IfErr result (λ error. error ≡ out_of_memory) }
{
    let mut escaped = String::with_capacity(alloc, pattern.len())?;
    for c in pattern.chars() {
        if is_meta_character(c) {
            escaped.push('\\')?;
        }
        escaped.push(c)?;
    }
    Ok(escaped)
}

/// Whether the character is escaped by a backslash.
fn is_meta_character(c: char) -> bool
    ensures { result ≡ is_meta_character c }
{
    matches!(
        c,
        '\\' | '.'
            | '+'
            | '*'
            | '?'
            | '('
            | ')'
            | '|'
            | '['
            | ']'
            | '{'
            | '}'
            | '^'
            | '$'
            | '#'
            | '&'
            | '-'
            | '~'
    )
}
