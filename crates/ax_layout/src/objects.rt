//! The class of an object.

ghost use Rattle.std.specs.Prelude.{◌≡◌, ◌↔◌, ◌≤◌, ◌%◌};
ghost use Rattle.ax_words.specs.Width.{bytes_of};
ghost use Rattle.ax_target.specs.Targets.{greatest_native};
ghost use Rattle.ax_layout.specs.Classes.{class_of};

use crate::classes::Class;
use ax_target::{Target, max_native};
use ax_words::Width;

/// The class of the object of this width at an address: native exactly where the target reaches
/// its size and the address is a multiple of it.
pub fn class(address: u64, width: Width, t: Target) -> Class
    ensures value { result ≡ class_of address (bytes_of width) t }
    ensures native { (result ≡ Class.Native) ↔ ((bytes_of width ≤ greatest_native t) × (address % bytes_of width ≡ 0)) }
{
    let bytes = width.bytes();
    if bytes <= max_native(t) && address % bytes as u64 == 0 {
        Class::Native
    } else {
        Class::Locked
    }
}
