//! Parsing a template into text and references to groups.
//!
//! `$name` refers to a group by its name, or by its index if the name consists of digits. The name
//! is the longest run of ASCII letters, digits and `_`. `${name}` extends to the next `}`. `$$`
//! gives a `$`, and so does any other `$`.
ghost use Rattle.std.specs.Prelude.{◌≡◌, ◌≢◌, ◌<◌, ◌≤◌, ◌+◌, ◌*◌, ◌^◌, ◌∷◌, [], ℕ, List};
ghost use Rattle.std.specs.Prelude.{MatchOption, IfSome, if◌then◌else◌, Some, None, length};
ghost use Rattle.std.specs.List.{prefix_len};
ghost use Rattle.regex_lite_syntax.specs.Text.{the};
ghost use Rattle.regex_lite_syntax.specs.Characters.{number_of};
ghost use Rattle.regex_lite_engine.specs.Interpolation.{BeginsWith, HasNoReference, IsReference};
ghost use Rattle.regex_lite_engine.specs.Interpolation.{is_index, is_name_character, referred};
ghost use Rattle.regex_lite_engine.specs.Interpolation.Pieces.{piece_of};

/// A piece of a template.
#[derive(Clone, Copy)]
pub enum Piece<'t> {
    /// Text that stands for itself.
    Text(&'t str),
    /// A reference to the group with this index.
    Number(usize),
    /// A reference to the group with this name.
    Name(&'t str),
}

/// The first piece of the template, and the rest, or `None` if the template is empty.
pub fn next_piece(template: &str) -> Option<(Piece<'_>, &str)>
    ensures cut { MatchOption result (template.now ≡ [])
        (λ r. BeginsWith template.now (piece_of r.0) r.1.now) }
    ensures shorter { IfSome result (λ r. length r.1.now < length template.now) }
{
    if template.is_empty() {
        return None;
    }
    match template.strip_prefix('$') {
        Some(after) => Some(at_dollar(template, after)),
        None => Some(split_text(template)),
    }
}

/// The text up to the next `$`, and the rest.
fn split_text(template: &str) -> (Piece<'_>, &str)
    requires some { template.now ≢ [] }
    requires start { (t : List ℕ) → template.now ≢ the "$" ∷ t }
    ensures cut { BeginsWith template.now (piece_of result.0) result.1.now }
    ensures shorter { length result.1.now < length template.now }
{
    match template.find('$') {
        Some(end) => {
            let (text, rest) = template.split_at(end);
            (Piece::Text(text), rest)
        }
        None => (Piece::Text(template), ""),
    }
}

/// The piece that begins with a `$`, and the rest.
fn at_dollar<'t>(template: &'t str, after: &'t str) -> (Piece<'t>, &'t str)
    requires { template.now ≡ the "$" ∷ after.now }
    ensures cut { BeginsWith template.now (piece_of result.0) result.1.now }
    ensures shorter { length result.1.now < length template.now }
{
    if let Some(rest) = after.strip_prefix('$') {
        return (Piece::Text("$"), rest);
    }
    match find_cap_ref(after) {
        Some((name, rest)) => (referred(name), rest),
        None => (Piece::Text("$"), after),
    }
}

/// The name or the index after a `$`, and the text after the reference.
fn find_cap_ref(after: &str) -> Option<(&str, &str)>
    ensures found { MatchOption result (HasNoReference after.now)
        (λ r. IsReference after.now r.0.now r.1.now) }
    ensures shorter { IfSome result (λ r. length r.1.now < length after.now) }
{
    match after.strip_prefix('{') {
        Some(inner) => inner.split_once('}'),
        None => find_bare(after),
    }
}

/// The name or the index after a `$` without braces, and the text after it.
fn find_bare(after: &str) -> Option<(&str, &str)>
    requires { (t : List ℕ) → after.now ≢ the "{" ∷ t }
    ensures found { MatchOption result (HasNoReference after.now)
        (λ r. IsReference after.now r.0.now r.1.now) }
    ensures shorter { IfSome result (λ r. length r.1.now < length after.now) }
{
    let len = name_len(after.as_bytes());
    if len == 0 {
        return None;
    }
    Some(after.split_at(len))
}

/// The number of leading bytes that are characters of a name.
fn name_len(bytes: &[u8]) -> usize
    ensures { result ≡ prefix_len is_name_character bytes.now }
{
    for (i, byte) in bytes.iter().enumerate() {
        if !is_valid_cap_letter(*byte) {
            return i;
        }
    }
    bytes.len()
}

fn is_valid_cap_letter(byte: u8) -> bool
    ensures { result ≡ is_name_character byte }
{
    byte.is_ascii_alphanumeric() || byte == b'_'
}

/// The piece that refers by this name or index.
fn referred(name: &str) -> Piece<'_>
    ensures { piece_of result ≡ referred name.now }
{
    match parse_index(name.as_bytes()) {
        Some(index) => Piece::Number(index),
        None => Piece::Name(name),
    }
}

/// The number that a name of digits stands for, if it is below 2^64.
fn parse_index(name: &[u8]) -> Option<usize>
    ensures { result ≡ (if is_index name.now then Some (number_of 10 name.now) else None) }
{
    if name.is_empty() {
        return None;
    }
    let mut index: usize = 0;
    for byte in name {
        if !byte.is_ascii_digit() {
            return None;
        }
        index = with_digit(index, *byte - b'0')?;
    }
    Some(index)
}

/// The number with a digit appended, if it is below 2^64.
fn with_digit(number: usize, digit: u8) -> Option<usize>
    ensures { MatchOption result (2 ^ 64 ≤ number * 10 + digit)
        (λ longer. longer ≡ number * 10 + digit) }
{
    number.checked_mul(10)?.checked_add(digit as usize)
}
