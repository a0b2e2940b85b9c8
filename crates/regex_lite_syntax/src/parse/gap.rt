//! White space and comments between the parts of a pattern.
ghost use Rattle.std.specs.Prelude.{◌≡◌, ◌≤◌, drop, length};
ghost use Rattle.regex_lite_syntax.specs.Characters.{is_white_space};
ghost use Rattle.regex_lite_syntax.specs.Grammar.Gaps.{WholeGap};

/// Whether the character has Unicode's property White_Space.
pub(crate) fn is_white_space_char(c: char) -> bool
    ensures { result ≡ is_white_space c }
{
    matches!(
        c,
        '\u{09}'..='\u{0D}'
            | ' '
            | '\u{85}'
            | '\u{A0}'
            | '\u{1680}'
            | '\u{2000}'..='\u{200A}'
            | '\u{2028}'
            | '\u{2029}'
            | '\u{202F}'
            | '\u{205F}'
            | '\u{3000}'
    )
}

/// The end of the gap at the index. In verbose mode it is as long as possible, otherwise empty.
pub(crate) fn skip_gap(chars: &[char], at: usize, verbose: bool) -> usize
    requires { at ≤ length chars.now }
    ensures inside { (at ≤ result) × (result ≤ length chars.now) }
    ensures gap { WholeGap verbose (drop at chars.now) (drop result chars.now) }
{
    if !verbose {
        return at;
    }
    let mut end = at;
    let mut in_comment = false;
    while end < chars.len() {
        let c = chars[end];
        if in_comment {
            in_comment = c != '\n';
        } else if c == '#' {
            in_comment = true;
        } else if !is_white_space_char(c) {
            return end;
        }
        end += 1;
    }
    end
}
