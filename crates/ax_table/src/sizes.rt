//! How an instruction's word shows its size.

ghost use Rattle.std.specs.Prelude.{◌≡◌};
ghost use Rattle.ax_table.specs.MarkText.{by_size, size_text};

/// What stands behind an instruction's word for the bytes that it touches.
#[derive(Clone, Copy)]
pub enum Sizes {
    /// Nothing: the instruction has one size.
    Fixed,
    /// A letter of AT&T's spelling.
    X86,
    /// The letters of a load that extends by zeros to 64 bits.
    X86Extended,
    /// A letter of AArch64, or the register's letter behind a blank.
    Arm,
    /// A letter of RV64.
    RvPlain,
    /// The letters of an RV64 load that extends by zeros below 4 bytes.
    RvExtended,
    /// A letter of RV64 behind a dot.
    RvAtomic,
}

impl Sizes {
    /// The text of a size of 1, 2, 4 or 8 bytes.
    pub(crate) fn text(self, bytes: u8) -> &'static str
        ensures { result.now ≡ size_text self bytes }
    {
        match self {
            Sizes::Fixed => "",
            Sizes::X86 => by_size(bytes, "b", "w", "l", "q"),
            Sizes::X86Extended => by_size(bytes, "zbq", "zwq", "l", "q"),
            Sizes::Arm => by_size(bytes, "b", "h", " w", " x"),
            Sizes::RvPlain => by_size(bytes, "b", "h", "w", "d"),
            Sizes::RvExtended => by_size(bytes, "bu", "hu", "w", "d"),
            Sizes::RvAtomic => by_size(bytes, ".b", ".h", ".w", ".d"),
        }
    }
}

fn by_size(
    bytes: u8,
    one: &'static str,
    two: &'static str,
    four: &'static str,
    eight: &'static str,
) -> &'static str
    ensures { result.now ≡ by_size bytes one.now two.now four.now eight.now }
{
    match bytes {
        1 => one,
        2 => two,
        4 => four,
        _ => eight,
    }
}
