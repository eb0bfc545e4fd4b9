//! The names of the registers.

ghost use Rattle.std.specs.Prelude.{◌≡◌, [], slice_index_or};
ghost use Rattle.ax_x86_text.specs.Registers.{bytes, longs, quads, register_name, words};

use ax_x86::Size;

/// The registers by their numbers, each with its names of 8, 4, 2 and 1 bytes.
macro_rules! registers {
    ($column:ident $arguments:tt) => {
        $column! { $arguments
            (0, "%rax", "%eax", "%ax", "%al"),
            (1, "%rcx", "%ecx", "%cx", "%cl"),
            (2, "%rdx", "%edx", "%dx", "%dl"),
            (3, "%rbx", "%ebx", "%bx", "%bl"),
            (4, "%rsp", "%esp", "%sp", "%spl"),
            (5, "%rbp", "%ebp", "%bp", "%bpl"),
            (6, "%rsi", "%esi", "%si", "%sil"),
            (7, "%rdi", "%edi", "%di", "%dil"),
            (8, "%r8", "%r8d", "%r8w", "%r8b"),
            (9, "%r9", "%r9d", "%r9w", "%r9b"),
            (10, "%r10", "%r10d", "%r10w", "%r10b"),
            (11, "%r11", "%r11d", "%r11w", "%r11b"),
            (12, "%r12", "%r12d", "%r12w", "%r12b"),
            (13, "%r13", "%r13d", "%r13w", "%r13b"),
            (14, "%r14", "%r14d", "%r14w", "%r14b"),
            (15, "%r15", "%r15d", "%r15w", "%r15b"),
        }
    };
}

macro_rules! quad_by {
    (($r:expr) $(($number:literal, $quad:literal, $long:literal, $word:literal, $byte:literal),)*) => {
        match $r { $($number => $quad,)* _ => "" }
    };
}

macro_rules! long_by {
    (($r:expr) $(($number:literal, $quad:literal, $long:literal, $word:literal, $byte:literal),)*) => {
        match $r { $($number => $long,)* _ => "" }
    };
}

macro_rules! word_by {
    (($r:expr) $(($number:literal, $quad:literal, $long:literal, $word:literal, $byte:literal),)*) => {
        match $r { $($number => $word,)* _ => "" }
    };
}

macro_rules! byte_by {
    (($r:expr) $(($number:literal, $quad:literal, $long:literal, $word:literal, $byte:literal),)*) => {
        match $r { $($number => $byte,)* _ => "" }
    };
}

/// The name of a register's low bytes, by its number, 0 to 15, with its percent sign (Intel SDM
/// volume 1, "General-Purpose Registers in 64-Bit Mode"). Another number has the empty name.
pub(crate) fn register_name(size: Size, r: u8) -> &'static str
    ensures { result.now ≡ register_name size r }
{
    match size {
        Size::Byte => byte_name(r),
        Size::Word => word_name(r),
        Size::Long => long_name(r),
        Size::Quad => quad_name(r),
    }
}

fn quad_name(r: u8) -> &'static str
    ensures { result.now ≡ slice_index_or quads r [] }
{
    registers!(quad_by(r))
}

fn long_name(r: u8) -> &'static str
    ensures { result.now ≡ slice_index_or longs r [] }
{
    registers!(long_by(r))
}

fn word_name(r: u8) -> &'static str
    ensures { result.now ≡ slice_index_or words r [] }
{
    registers!(word_by(r))
}

fn byte_name(r: u8) -> &'static str
    ensures { result.now ≡ slice_index_or bytes r [] }
{
    registers!(byte_by(r))
}
