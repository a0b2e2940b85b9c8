//! A text as tokens.
ghost use Rattle.std.specs.Prelude.{◌≡◌, IfErr, IfOk, flat_map, length};
ghost use Rattle.tokeniser.specs.Tokens.{AreTokens, IsFault};

use regex_lite::laws::anchored_searches_find_the_match_there;
use regex_lite::{Error, RegexList, RegexListSearcher};
use std::alloc::{AllocFailed, Global};
use std::fmt;

/// A part of a text, and the rule that matches it.
#[derive(Clone, Copy, Debug)]
pub struct Token<'t> {
    /// The index of the rule.
    pub rule: usize,
    /// The part of the text.
    pub text: &'t str,
}

/// The reason why a text has no tokens.
#[derive(Debug, Drop)]
pub enum TokenFault {
    /// No rule matches at this offset, where the last token ends.
    NoRule(usize),
    /// The token at this offset is empty, by the rule with this index.
    Empty(usize, usize),
    /// Memory ran out.
    Refused(Error),
}

impl fmt::Display for TokenFault {
    fn fmt<W: fmt::Write>(&self, f: &mut fmt::Formatter<W>) -> fmt::Result {
        match self {
            TokenFault::NoRule(at) => write!(f, "no rule matches at {at}"),
            TokenFault::Empty(at, rule) => write!(f, "rule {rule} matches the empty text at {at}"),
            TokenFault::Refused(error) => write!(f, "{error}"),
        }
    }
}

impl From<Error> for TokenFault {
    ghost use Rattle.std.specs.Prelude.{◌≡◌};
    ghost use Rattle.tokeniser.specs.declared.tokens.TokenFault.TheVariants.{Refused};

    ghost from_gives = { λ error fault. fault ≡ Refused error };

    fn from(error: Error) -> TokenFault {
        TokenFault::Refused(error)
    }
}

impl<T: Drop> From<AllocFailed<T>> for TokenFault {
    ghost use Rattle.std.specs.Prelude.{◌≡◌};
    ghost use Rattle.regex_lite.specs.Errors.{out_of_memory};
    ghost use Rattle.tokeniser.specs.declared.tokens.TokenFault.TheVariants.{Refused};

    ghost from_gives = { λ _ fault. fault ≡ Refused out_of_memory };

    fn from(_: AllocFailed<T>) -> TokenFault {
        TokenFault::Refused(Error::memory())
    }
}

/// Splits the text into tokens, from its start to its end.
///
/// Each token is the match of the lowest rule that matches where the last token ends, as that rule
/// prefers it.
///
/// # Errors
///
/// `NoRule` if no rule matches at the end of the last token, `Empty` if the token there would be
/// empty, and `Refused` if memory runs out.
pub fn tokenise<'t>(
    alloc: Global,
    rules: &RegexList,
    text: &'t str,
) -> Result<Vec<Token<'t>>, TokenFault>
    ensures tokens { IfOk result
        (λ tokens. AreTokens rules.now text.now 0 tokens.items (length text.now)) }
    ensures whole { IfOk result
        (λ tokens. flat_map (λ token. token.text.now) tokens.items ≡ text.now) }
    ensures fault { IfErr result (IsFault rules.now text.now) }
{
    let mut searcher = rules.searcher()?;
    tokens_of(alloc, &mut searcher, text)
}

/// Splits the text into tokens by the rules of the searcher.
fn tokens_of<'t>(
    alloc: Global,
    searcher: &mut RegexListSearcher<'_>,
    text: &'t str,
) -> Result<Vec<Token<'t>>, TokenFault>
    ensures tokens { IfOk result
        (λ tokens. AreTokens searcher.old text.now 0 tokens.items (length text.now)) }
    ensures whole { IfOk result
        (λ tokens. flat_map (λ token. token.text.now) tokens.items ≡ text.now) }
    ensures fault { IfErr result (IsFault searcher.old text.now) }
{
    anchored_searches_find_the_match_there();
    let mut tokens = Vec::new(alloc);
    let mut at = 0;
    while at < text.len() {
        let Some((rule, found)) = searcher.find_anchored_at(text, at) else {
            return Err(TokenFault::NoRule(at));
        };
        if found.is_empty() {
            return Err(TokenFault::Empty(at, rule));
        }
        tokens.push(Token {
            rule,
            text: found.as_str(),
        })?;
        at = found.end();
    }
    Ok(tokens)
}
