//! The rule that matches in a line, and the fields that it finds there.
ghost use Rattle.std.specs.Prelude.{◌≡◌, IfErr, IfOk, MatchOption, map, option_map};
ghost use Rattle.regex_lite.specs.Errors.{out_of_memory};
ghost use Rattle.log_router.specs.Routes.{AreFields, FitsNone, IsRouted, field_of};
ghost use Rattle.log_router.specs.Routes.{texts_of_field};

use regex_lite::laws::searches_find_the_first_match;
use regex_lite::{Captures, Error, Regex};
use std::alloc::Global;

/// A named group of a rule, and the text that it matched.
#[derive(Clone, Copy, Debug)]
pub struct Field<'r, 't> {
    /// The name of the group.
    pub name: &'r str,
    /// The part of the line that it matched.
    pub value: &'t str,
}

/// The first rule that matches in a line, by its index, and its fields.
#[derive(Debug, Drop)]
pub struct Routed<'r, 't> {
    /// The index of the rule.
    pub rule: usize,
    /// The named groups that took part, in the order of their indices.
    pub fields: Vec<Field<'r, 't>>,
}

/// The first rule that matches anywhere in the line, with the fields of its first match, or `None`
/// if no rule matches. An earlier rule wins wherever in the line it matches.
///
/// # Errors
///
/// `Memory` if memory runs out.
pub fn route<'r, 't>(
    alloc: Global,
    rules: &'r [Regex],
    line: &'t str,
) -> Result<Option<Routed<'r, 't>>, Error>
    ensures routed { IfOk result (λ routed. MatchOption routed
        (FitsNone rules.now line.now) (IsRouted rules.now line.now)) }
    ensures refused { IfErr result (λ error. error ≡ out_of_memory) }
{
    searches_find_the_first_match();
    for (rule, regex) in rules.iter().enumerate() {
        if let Some(caps) = regex.captures(line)? {
            let fields = fields_of(alloc, regex, &caps)?;
            return Ok(Some(Routed { rule, fields }));
        }
    }
    Ok(None)
}

/// The named groups that took part, in the order of their indices.
fn fields_of<'r, 't>(
    alloc: Global,
    regex: &'r Regex,
    caps: &Captures<'t>,
) -> Result<Vec<Field<'r, 't>>, Error>
    ensures fields { IfOk result
        (λ fields. AreFields regex.now caps.now (map texts_of_field fields.items)) }
    ensures refused { IfErr result (λ error. error ≡ out_of_memory) }
{
    let mut fields = Vec::new(alloc);
    for name in regex.capture_names() {
        if let Some(field) = field_of(name, caps) {
            fields.push(field)?;
        }
    }
    Ok(fields)
}

/// The field of the group with this name, or `None` if there is no name or the group took no part.
fn field_of<'r, 't>(name: Option<&'r str>, caps: &Captures<'t>) -> Option<Field<'r, 't>>
    ensures { option_map texts_of_field result
        ≡ field_of caps.now (option_map (λ text. text.now) name.entry) }
{
    let name = name?;
    let found = caps.name(name)?;
    Some(Field {
        name,
        value: found.as_str(),
    })
}
