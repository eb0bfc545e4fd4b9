//! The widths of atomic objects.

ghost use Rattle.std.specs.Prelude.{◌≡◌, ◌↔◌, IsSome, IfSome};
ghost use Rattle.ax_words.specs.Width.{IsWidth, bytes_of};

/// The width of an atomic object, in bits.
#[derive(Clone, Copy)]
pub enum Width {
    W8,
    W16,
    W32,
    W64,
    W128,
}

impl Width {
    /// The width's size in bytes.
    pub fn bytes(self) -> usize
        ensures { result ≡ bytes_of self }
    {
        match self {
            Width::W8 => 1,
            Width::W16 => 2,
            Width::W32 => 4,
            Width::W64 => 8,
            Width::W128 => 16,
        }
    }

    /// The width of `n` bytes. None exactly where no atomic object has that size.
    pub fn of_bytes(n: u64) -> Option<Width>
        ensures some { IsSome result ↔ IsWidth n }
        ensures bytes { IfSome result (λ width. bytes_of width ≡ n) }
    {
        match n {
            1 => Some(Width::W8),
            2 => Some(Width::W16),
            4 => Some(Width::W32),
            8 => Some(Width::W64),
            16 => Some(Width::W128),
            _ => None,
        }
    }
}
