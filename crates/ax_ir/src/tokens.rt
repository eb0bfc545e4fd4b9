//! The tokens of a line, and their text.

ghost use Rattle.std.specs.Prelude.{◌≡◌, [], ◌∷◌, ◌++◌, decimal, map, slice_index_or, OnOk, string_bytes};
ghost use Rattle.std.specs.Fmt.{signed_decimal};
ghost use Rattle.ax_module.specs.Names.{IsAscii, global_token};
ghost use Rattle.ax_ir.specs.Spacing.{is_closing, is_opening, spaced};

use ax_module::Name;
use std::alloc::{AllocError, Global};
use std::marker::Model;

/// A token, seen by contracts as its bytes.
#[derive(Drop)]
pub(crate) struct Token {
    text: String,
}

impl Model for Token {
    ghost use Rattle.std.specs.Prelude.{ℕ, List, string_bytes};

    ghost Value = { List ℕ };

    ghost view = { λ t. string_bytes t.text };
}

/// Tokens in order, as those of a line.
#[derive(Drop)]
pub(crate) struct Tokens {
    alloc: Global,
    tokens: Vec<Token>,
}

impl Model for Tokens {
    ghost use Rattle.std.specs.Prelude.{ℕ, List};

    ghost Value = { List (List ℕ) };

    ghost view = { λ l. l.tokens.items };
}

impl Tokens {
    pub(crate) fn new(alloc: Global) -> Tokens
        ensures { result ≡ [] }
    {
        Tokens {
            alloc,
            tokens: Vec::new(alloc),
        }
    }

    fn push(&mut self, text: String) -> Result<(), AllocError>
        ensures { OnOk result (self.new ≡ self.old ++ string_bytes text ∷ []) }
    {
        self.tokens.push(Token { text })?;
        Ok(())
    }

    pub(crate) fn word(&mut self, word: &str) -> Result<(), AllocError>
        ensures { OnOk result (self.new ≡ self.old ++ word.now ∷ []) }
    {
        let mut text = String::new(self.alloc);
        text.push_str(word)?;
        self.push(text)
    }

    pub(crate) fn words(&mut self, words: &[&str]) -> Result<(), AllocError>
        ensures { OnOk result (self.new ≡ self.old ++ map (λ w. w.now) words.now) }
    {
        for word in words {
            self.word(word)?;
        }
        Ok(())
    }

    pub(crate) fn number(&mut self, n: u128) -> Result<(), AllocError>
        ensures { OnOk result (self.new ≡ self.old ++ decimal n ∷ []) }
    {
        let mut text = String::new(self.alloc);
        write!(text, "{n}")?;
        self.push(text)
    }

    pub(crate) fn signed(&mut self, n: i128) -> Result<(), AllocError>
        ensures { OnOk result (self.new ≡ self.old ++ signed_decimal n ∷ []) }
    {
        let mut text = String::new(self.alloc);
        write!(text, "{n}")?;
        self.push(text)
    }

    /// A token of a word and a number, such as `%v7`.
    pub(crate) fn numbered(&mut self, word: &str, n: u128) -> Result<(), AllocError>
        ensures { OnOk result (self.new ≡ self.old ++ (word.now ++ decimal n) ∷ []) }
    {
        let mut text = String::new(self.alloc);
        write!(text, "{word}{n}")?;
        self.push(text)
    }

    /// A global's name behind its `@`.
    pub(crate) fn global(&mut self, name: &Name) -> Result<(), AllocError>
        requires { IsAscii name.now }
        ensures { OnOk result (self.new ≡ self.old ++ global_token name.now ∷ []) }
    {
        let mut text = String::new(self.alloc);
        name.push_to(&mut text)?;
        self.push(text)
    }

    /// The token of this number, or an empty one where there is none.
    pub(crate) fn at(&self, k: u32) -> &str
        ensures { result.now ≡ slice_index_or self.now k [] }
    {
        match self.tokens.get(k as usize) {
            Some(token) => token.text.as_str(),
            None => "",
        }
    }

    /// Appends their text as a line has them.
    pub(crate) fn push_to(&self, out: &mut String) -> Result<(), AllocError>
        ensures { OnOk result (string_bytes out.new ≡ string_bytes out.old ++ spaced self.now) }
    {
        push_spaced(out, self.tokens.as_slice())
    }
}

fn push_spaced(out: &mut String, tokens: &[Token]) -> Result<(), AllocError>
    ensures { OnOk result (string_bytes out.new ≡ string_bytes out.old ++ spaced tokens.now) }
{
    let mut parted = false;
    for token in tokens {
        let word = token.text.as_str();
        if parted && !is_closing(word) {
            write!(out, " ")?;
        }
        out.push_str(word)?;
        parted = !is_opening(word);
    }
    Ok(())
}

fn is_closing(word: &str) -> bool
    ensures { result ≡ is_closing word.now }
{
    matches!(word, "," | "(" | ")" | ":")
}

fn is_opening(word: &str) -> bool
    ensures { result ≡ is_opening word.now }
{
    word == "("
}
