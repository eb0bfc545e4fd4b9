//! When two signs are one.

ghost use Rattle.std.specs.Prelude.{◌≡◌};
ghost use Rattle.ax_symbols.specs.Signs.{word_text, mark_byte, same_word, same_mark, same_bool, same_sign};

use crate::symbol::{Punctuation, Sign};
use crate::vocabulary::Word;

/// How a word is written.
#[tactic(auto, unfolding(crate::specs::Signs::word_text))]
fn word_text(word: Word) -> &'static [u8]
    ensures { result.now ≡ word_text word }
{
    match word {
        Word::Other => b"",
        Word::SourceFilename => b"source_filename",
        Word::Target => b"target",
        Word::Declare => b"declare",
        Word::Attributes => b"attributes",
        Word::Define => b"define",
        Word::Global => b"global",
        Word::Zeroinitializer => b"zeroinitializer",
        Word::Align => b"align",
        Word::X => b"x",
        Word::Void => b"void",
        Word::Float => b"float",
        Word::Double => b"double",
        Word::Ptr => b"ptr",
        Word::True => b"true",
        Word::False => b"false",
        Word::DsoLocal => b"dso_local",
        Word::DsoPreemptable => b"dso_preemptable",
        Word::Internal => b"internal",
        Word::Private => b"private",
        Word::Common => b"common",
        Word::Hidden => b"hidden",
        Word::Protected => b"protected",
        Word::LocalUnnamedAddr => b"local_unnamed_addr",
        Word::UnnamedAddr => b"unnamed_addr",
        Word::Noundef => b"noundef",
        Word::Nonnull => b"nonnull",
        Word::Zeroext => b"zeroext",
        Word::Signext => b"signext",
        Word::Returned => b"returned",
        Word::Nocapture => b"nocapture",
        Word::Immarg => b"immarg",
        Word::Nounwind => b"nounwind",
        Word::Dereferenceable => b"dereferenceable",
        Word::Captures => b"captures",
        Word::None => b"none",
        Word::Nsw => b"nsw",
        Word::Nuw => b"nuw",
        Word::Exact => b"exact",
        Word::Disjoint => b"disjoint",
        Word::Samesign => b"samesign",
        Word::Nneg => b"nneg",
        Word::Inbounds => b"inbounds",
        Word::Volatile => b"volatile",
        Word::Weak => b"weak",
        Word::Tail => b"tail",
        Word::Add => b"add",
        Word::Sub => b"sub",
        Word::Mul => b"mul",
        Word::And => b"and",
        Word::Or => b"or",
        Word::Xor => b"xor",
        Word::Shl => b"shl",
        Word::Lshr => b"lshr",
        Word::Ashr => b"ashr",
        Word::Icmp => b"icmp",
        Word::Select => b"select",
        Word::Zext => b"zext",
        Word::Sext => b"sext",
        Word::Trunc => b"trunc",
        Word::Phi => b"phi",
        Word::Br => b"br",
        Word::Ret => b"ret",
        Word::Unreachable => b"unreachable",
        Word::Alloca => b"alloca",
        Word::Getelementptr => b"getelementptr",
        Word::Load => b"load",
        Word::Store => b"store",
        Word::Cmpxchg => b"cmpxchg",
        Word::Atomicrmw => b"atomicrmw",
        Word::Fence => b"fence",
        Word::Extractvalue => b"extractvalue",
        Word::Call => b"call",
        Word::Eq => b"eq",
        Word::Ne => b"ne",
        Word::Ugt => b"ugt",
        Word::Uge => b"uge",
        Word::Ult => b"ult",
        Word::Ule => b"ule",
        Word::Sgt => b"sgt",
        Word::Sge => b"sge",
        Word::Slt => b"slt",
        Word::Sle => b"sle",
        Word::Xchg => b"xchg",
        Word::Nand => b"nand",
        Word::Max => b"max",
        Word::Min => b"min",
        Word::UMax => b"umax",
        Word::UMin => b"umin",
        Word::To => b"to",
        Word::Label => b"label",
        Word::Atomic => b"atomic",
        Word::Syncscope => b"syncscope",
        Word::Unordered => b"unordered",
        Word::Monotonic => b"monotonic",
        Word::Acquire => b"acquire",
        Word::Release => b"release",
        Word::AcqRel => b"acq_rel",
        Word::SeqCst => b"seq_cst",
    }
}

#[tactic(auto, unfolding(crate::specs::Signs::same_word))]
fn same_word(a: Word, b: Word) -> bool
    ensures { result ≡ same_word a b }
{
    word_text(a) == word_text(b)
}

fn mark_byte(mark: Punctuation) -> u8
    ensures { result ≡ mark_byte mark }
{
    match mark {
        Punctuation::Equals => b'=',
        Punctuation::Comma => b',',
        Punctuation::Open => b'(',
        Punctuation::Close => b')',
        Punctuation::OpenBrace => b'{',
        Punctuation::CloseBrace => b'}',
        Punctuation::OpenBracket => b'[',
        Punctuation::CloseBracket => b']',
        Punctuation::Less => b'<',
        Punctuation::Greater => b'>',
        Punctuation::Colon => b':',
        Punctuation::Bang => b'!',
        Punctuation::Star => b'*',
        Punctuation::Bar => b'|',
    }
}

#[tactic(auto, unfolding(crate::specs::Signs::same_mark))]
fn same_mark(a: Punctuation, b: Punctuation) -> bool
    ensures { result ≡ same_mark a b }
{
    mark_byte(a) == mark_byte(b)
}

fn same_bool(a: bool, b: bool) -> bool
    ensures { result ≡ same_bool a b }
{
    if a { b } else { !b }
}

/// Whether two signs are one.
pub fn same(a: Sign, b: Sign) -> bool
    ensures { result ≡ same_sign a b }
{
    match a {
        Sign::Word(a) => matches!(b, Sign::Word(b) if same_word(a, b)),
        Sign::Int(a) => matches!(b, Sign::Int(b) if a == b),
        Sign::Local => matches!(b, Sign::Local),
        Sign::Global => matches!(b, Sign::Global),
        Sign::Intrinsic => matches!(b, Sign::Intrinsic),
        Sign::Lifetime => matches!(b, Sign::Lifetime),
        Sign::Meta => matches!(b, Sign::Meta),
        Sign::Group => matches!(b, Sign::Group),
        Sign::Number(a, m) => matches!(b, Sign::Number(b, n) if same_bool(a, b) && m == n),
        Sign::Odd => matches!(b, Sign::Odd),
        Sign::SingleThread => matches!(b, Sign::SingleThread),
        Sign::Text => matches!(b, Sign::Text),
        Sign::Mark(a) => matches!(b, Sign::Mark(b) if same_mark(a, b)),
        Sign::Feed => matches!(b, Sign::Feed),
    }
}
