//! A text with the matches of a pattern replaced by a template.
ghost use Rattle.std.specs.Prelude.{◌≡◌, IfErr, IfOk};
ghost use Rattle.std.specs.Cow.{cow_str_bytes};
ghost use Rattle.regex_lite.specs.Errors.{out_of_memory};
ghost use Rattle.template_tool.specs.Rewriting.{IsRewriting};

use regex_lite::laws::texts_rewrite_by_their_template;
use regex_lite::{Error, Regex};
use std::borrow::CowStr;

/// The text with each match replaced by the template's expansion for its groups, or the text itself
/// if there is no match. In the template `$name` and `${1}` refer to groups.
///
/// # Errors
///
/// `Memory` if memory runs out.
pub fn rewrite<'t>(regex: &Regex, template: &str, text: &'t str) -> Result<CowStr<'t>, Error>
    ensures rewritten { IfOk result
        (λ new. IsRewriting regex.now template.now text.now (cow_str_bytes new)) }
    ensures refused { IfErr result (λ error. error ≡ out_of_memory) }
{
    texts_rewrite_by_their_template::<&str>();
    regex.replace_all(text, template)
}
