//! All tokens of a text, one after the other.

ghost use Rattle.std.specs.Prelude.{◌≡◌, ℕ, ◌≤◌, ◌<◌, List, length, All, IfOk, MatchResult};
ghost use Rattle.ax_lex.specs.Tokens.{AreTokens, IsFirstBad, IsLexFault, IsByteAt};
ghost use Rattle.ax_lex.specs.Written.{Piece, render, tokens_at, FitsText};

use crate::scan::{gap_end, next_token};
use crate::token::{LexFault, Token};
use std::alloc::Global;

/// All tokens of a module's text, in order.
///
/// A token is the longest that starts at its place (module text, Tokens); blanks (space, tab,
/// carriage return) and comments (from `;` to before the line feed) stand between tokens. Answers
/// `Byte` where neither starts: `at` is the first such place, in bytes from the text's beginning.
pub fn tokens(alloc: Global, text: &[u8]) -> Result<Vec<Token>, LexFault>
    // What is answered are the tokens of the text.
    ensures all { IfOk result (λ v. AreTokens text.now v.items) }
    // The tokens of the text are answered, unless memory runs out.
    ensures only { (ts : List Token) → AreTokens text.now ts → MatchResult result (λ v. v.items ≡ ts) (λ e. e ≡ LexFault.Memory) }
    // Which fault it is.
    ensures fault { MatchResult result (λ _. Unit {0}) (λ e. IsLexFault text.now e) }
    // The first bad place is answered, unless memory runs out.
    ensures bad { (at : ℕ) → IsFirstBad text.now at → MatchResult result (λ _. ⊥) (λ e. IsByteAt at e) }
    // A text that was written token by token has those tokens.
    ensures written { (ps : List Piece) → text.now ≡ render ps → FitsText ps → MatchResult result (λ v. v.items ≡ tokens_at 0 ps) (λ e. e ≡ LexFault.Memory) }
    // Each token has a byte and lies in the text.
    ensures within { IfOk result (λ v. All (λ t. (t.start < t.end) × (t.end ≤ length text.now)) v.items) }
    // There are no more tokens than bytes.
    ensures few { IfOk result (λ v. length v.items ≤ length text.now) }
{
    let mut tokens = Vec::new(alloc);
    let mut at = gap_end(text, 0);
    while at < text.len() {
        let Some((kind, len)) = next_token(text, at) else {
            return Err(LexFault::Byte { at });
        };
        let end = at + len;
        tokens.push(Token {
            kind,
            start: at,
            end,
        })?;
        at = gap_end(text, end);
    }
    Ok(tokens)
}
