//! What is passed over: attributes, flags and metadata.

ghost use Rattle.std.specs.Prelude.{◌≡◌, ◌≤◌};
ghost use Rattle.ax_symbols.specs.Pieces.{Gives, is_attribute_word, is_attribute, is_arithmetic_flag, is_comparison_flag, is_conversion_flag, is_path_flag, is_group, is_passed, has_captures, has_alignment, is_count, is_captures_none, is_alignment, is_dereferenceable_bytes, item_len, pass_over, is_pair, is_tail};
ghost use Rattle.ax_symbols.specs.Grammar.{reads, tail};

use crate::piece::sign_at;
use crate::symbol::{Punctuation, Sign, Symbol};
use crate::vocabulary::Word;

/// Symbols that may stand at a place without a meaning.
#[derive(Clone, Copy)]
pub enum Pass {
    /// Attributes and linkage, as before a global's type.
    Plain,
    /// The same before an argument of a call, where `align N` and `dereferenceable(N)` may stand too.
    Argument,
    /// The flags of a binary operation.
    Arithmetic,
    /// The flag of an `icmp`.
    Comparison,
    /// The flags of a conversion.
    Conversion,
    /// The flags of a getelementptr.
    Path,
    /// Numbers of attribute groups, as behind a call.
    Groups,
}

fn is_attribute_word(word: Word) -> bool
    ensures { result ≡ is_attribute_word word }
{
    matches!(
        word,
        Word::DsoLocal
            | Word::DsoPreemptable
            | Word::Internal
            | Word::Private
            | Word::Common
            | Word::Hidden
            | Word::Protected
            | Word::LocalUnnamedAddr
            | Word::UnnamedAddr
            | Word::Noundef
            | Word::Nonnull
            | Word::Zeroext
            | Word::Signext
            | Word::Returned
            | Word::Nocapture
            | Word::Immarg
            | Word::Nounwind
    )
}

fn is_attribute(sign: Sign) -> bool
    ensures { result ≡ is_attribute sign }
{
    match sign {
        Sign::Word(word) => is_attribute_word(word),
        Sign::Group => true,
        _ => false,
    }
}

fn is_arithmetic_flag(sign: Sign) -> bool
    ensures { result ≡ is_arithmetic_flag sign }
{
    matches!(
        sign,
        Sign::Word(Word::Nsw | Word::Nuw | Word::Exact | Word::Disjoint)
    )
}

fn is_comparison_flag(sign: Sign) -> bool
    ensures { result ≡ is_comparison_flag sign }
{
    matches!(sign, Sign::Word(Word::Samesign))
}

fn is_conversion_flag(sign: Sign) -> bool
    ensures { result ≡ is_conversion_flag sign }
{
    matches!(sign, Sign::Word(Word::Nneg | Word::Nuw | Word::Nsw))
}

fn is_path_flag(sign: Sign) -> bool
    ensures { result ≡ is_path_flag sign }
{
    matches!(sign, Sign::Word(Word::Inbounds | Word::Nuw))
}

fn is_passed(pass: Pass, sign: Sign) -> bool
    ensures { result ≡ is_passed pass sign }
{
    match pass {
        Pass::Plain | Pass::Argument => is_attribute(sign),
        Pass::Arithmetic => is_arithmetic_flag(sign),
        Pass::Comparison => is_comparison_flag(sign),
        Pass::Conversion => is_conversion_flag(sign),
        Pass::Path => is_path_flag(sign),
        Pass::Groups => matches!(sign, Sign::Group),
    }
}

fn has_captures(pass: Pass) -> bool
    ensures { result ≡ has_captures pass }
{
    matches!(pass, Pass::Plain | Pass::Argument)
}

fn has_alignment(pass: Pass) -> bool
    ensures { result ≡ has_alignment pass }
{
    matches!(pass, Pass::Argument)
}

pub(crate) fn is_count(sign: Sign) -> bool
    ensures { result ≡ is_count sign }
{
    match sign {
        Sign::Number(false, n) => n < 1 << 64,
        _ => false,
    }
}

/// `captures(none)`.
fn is_captures_none(line: &[Symbol]) -> bool
    ensures { result ≡ is_captures_none line.now }
{
    matches!(sign_at(line, 0), Sign::Word(Word::Captures))
        && matches!(sign_at(line, 1), Sign::Mark(Punctuation::Open))
        && matches!(sign_at(line, 2), Sign::Word(Word::None))
        && matches!(sign_at(line, 3), Sign::Mark(Punctuation::Close))
}

/// `align N`.
fn is_alignment(line: &[Symbol]) -> bool
    ensures { result ≡ is_alignment line.now }
{
    matches!(sign_at(line, 0), Sign::Word(Word::Align)) && is_count(sign_at(line, 1))
}

/// `dereferenceable(N)`.
fn is_dereferenceable_bytes(line: &[Symbol]) -> bool
    ensures { result ≡ is_dereferenceable_bytes line.now }
{
    matches!(sign_at(line, 0), Sign::Word(Word::Dereferenceable))
        && matches!(sign_at(line, 1), Sign::Mark(Punctuation::Open))
        && is_count(sign_at(line, 2))
        && matches!(sign_at(line, 3), Sign::Mark(Punctuation::Close))
}

/// How many symbols the item at the front has that is passed over; 0 where there is none.
fn item_len(pass: Pass, line: &[Symbol]) -> usize
    ensures is { result ≡ item_len pass line.now }
    ensures small { result ≤ 4 }
{
    if is_passed(pass, sign_at(line, 0)) {
        1
    } else if has_captures(pass) && is_captures_none(line) {
        4
    } else if has_alignment(pass) && is_alignment(line) {
        2
    } else if has_alignment(pass) && is_dereferenceable_bytes(line) {
        4
    } else {
        0
    }
}

/// What stands behind all items that are passed over.
#[tactic(auto, using(crate::proofs::Passing::over_item, crate::proofs::Passing::over_none))]
pub fn pass_over(pass: Pass, line: &[Symbol]) -> &[Symbol]
    ensures { result.now ≡ pass_over pass line.now }
{
    let mut rest = line;
    loop {
        let len = item_len(pass, rest).min(rest.len());
        if len == 0 {
            return rest;
        }
        let (_, behind) = rest.split_at(len);
        rest = behind;
    }
}

fn is_pair(a: Sign, b: Sign, c: Sign) -> bool
    ensures { result ≡ is_pair a b c }
{
    matches!(a, Sign::Mark(Punctuation::Comma))
        && matches!(b, Sign::Meta)
        && matches!(c, Sign::Meta)
}

fn is_tail(line: &[Symbol]) -> bool
    ensures { result ≡ is_tail line.now }
{
    let mut rest = line;
    while let [a, b, c, more @ ..] = rest {
        if !is_pair(a.sign, b.sign, c.sign) {
            return false;
        }
        rest = more;
    }
    rest.is_empty()
}

/// Nothing, behind metadata to the end of the line.
pub fn tail(line: &[Symbol]) -> Option<&[Symbol]>
    ensures { Gives (λ r. (tt, r.now)) result (reads tail line.now) }
{
    if is_tail(line) {
        Some(&line[line.len()..])
    } else {
        None
    }
}
