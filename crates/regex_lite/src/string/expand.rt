//! Templates that are expanded with the groups of a match.
ghost use Rattle.std.specs.Prelude.{◌≡◌, ◌++◌, IfErr, IfOk, string_bytes};
ghost use Rattle.regex_lite_syntax.specs.Errors.{out_of_memory};
ghost use Rattle.regex_lite_engine.specs.Interpolation.{piece_text};
ghost use Rattle.regex_lite_engine.specs.Interpolation.Pieces.{piece_of};
ghost use Rattle.regex_lite.specs.Templates.{Appends, BeginsExpansion, IsExpansion, texts_of};

use crate::string::captures::Captures;
use regex_lite_engine::interpolate::{Piece, next_piece};
use regex_lite_syntax::Error;

impl<'h> Captures<'h> {
    /// Appends the template with its references replaced by the groups' texts. `$name` and
    /// `${name}` refer to the group with this name or, if it consists of digits, with this index.
    /// Without braces a name is as long as possible. `$$` gives a `$`. See the section on templates
    /// in docs/SYNTAX.md.
    ///
    /// A reference to a group that doesn't exist or took no part gives the empty text.
    ///
    /// ```
    /// let regex = Regex::new(alloc, "(?<first>[a-z]+) ([a-z]+)")?;
    /// if let Some(caps) = regex.captures("left right")? {
    ///     let mut text = String::new(alloc);
    ///     caps.expand("$2 ${first}_", &mut text)?; // "right left_"
    /// }
    /// ```
    ///
    /// The test `examples::expanded` in tests/unit runs this example.
    ///
    /// # Errors
    ///
    /// `Memory` if memory runs out. Then a prefix of the expansion has been appended.
    pub fn expand(&self, template: &str, dst: &mut String) -> Result<(), Error>
        ensures ok { IfOk result (λ _. Appends (IsExpansion self.now template.now)
            (string_bytes dst.old) (string_bytes dst.new)) }
        ensures begun { IfErr result (λ _. Appends (BeginsExpansion self.now template.now)
            (string_bytes dst.old) (string_bytes dst.new)) }
        ensures refused { IfErr result (λ error. error ≡ out_of_memory) }
    {
        let mut rest = template;
        'pieces: while let Some((piece, after)) = next_piece(rest) {
            self.push_piece(piece, dst)?;
            rest = after;
        }
        Ok(())
    }

    /// Appends the expansion of the piece.
    fn push_piece(&self, piece: Piece<'_>, dst: &mut String) -> Result<(), Error>
        ensures ok { IfOk result (λ _. string_bytes dst.new
            ≡ string_bytes dst.old ++ piece_text (texts_of self.now) (piece_of piece.entry)) }
        ensures same { IfErr result (λ _. string_bytes dst.new ≡ string_bytes dst.old) }
        ensures refused { IfErr result (λ error. error ≡ out_of_memory) }
    {
        let found = match piece {
            Piece::Text(text) => return push(text, dst),
            Piece::Number(index) => self.get(index),
            Piece::Name(name) => self.name(name),
        };
        match found {
            Some(group) => push(group.as_str(), dst),
            None => Ok(()),
        }
    }
}

fn push(text: &str, dst: &mut String) -> Result<(), Error>
    ensures ok { IfOk result (λ _. string_bytes dst.new ≡ string_bytes dst.old ++ text.now) }
    ensures same { IfErr result (λ _. string_bytes dst.new ≡ string_bytes dst.old) }
    ensures refused { IfErr result (λ error. error ≡ out_of_memory) }
{
    dst.push_str(text)?;
    Ok(())
}
