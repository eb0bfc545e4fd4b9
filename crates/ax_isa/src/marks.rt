//! Marks of accesses.

ghost use Rattle.std.specs.Prelude.{◌≡◌, option_to_list};
ghost use Rattle.ax_isa.specs.Marks.{access_marks, is_among};

use ax_words::{Mark, MarkCode};

/// The mark of an access of so many bytes. It has none where its base is one of the registers in
/// `skip`.
pub fn access_mark(skip: &[u8], base: u8, code: MarkCode, bytes: u8) -> Option<Mark>
    ensures { option_to_list result ≡ access_marks (is_among skip.now) base code bytes }
{
    if skip.contains(&base) {
        None
    } else {
        Some(Mark::Memory { code, bytes })
    }
}
