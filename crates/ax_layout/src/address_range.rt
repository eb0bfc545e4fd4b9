//! Where a global lies.

ghost use Rattle.std.specs.Prelude.{◌≡◌, ◌≤◌};
ghost use Rattle.ax_map.specs.Map.{globals_limit};
ghost use Rattle.ax_layout.specs.Layout.{IsLaidOut, span_after, end_of_span};

use ax_module::module;

/// Where a global lies: its first address, the bytes of an element, and how many elements it has.
#[derive(Clone, Copy)]
pub struct AddressRange {
    pub start: u64,
    pub bytes: u64,
    pub count: u64,
}

/// The span of a global behind what ends at an address: it begins at the next multiple of its
/// alignment, which is its element's size where none is stated.
pub(crate) fn next_span(end: u64, global: &module::Global) -> AddressRange
    requires global { IsLaidOut global.now }
    requires end { end ≤ globals_limit }
    ensures span { result ≡ span_after end global.now }
{
    let bytes = global.elem.bytes();
    let align = global.align.unwrap_or(bytes);
    AddressRange {
        start: end.div_ceil(align) * align,
        bytes,
        count: global.count,
    }
}

impl AddressRange {
    /// The address behind its last element.
    pub(crate) fn end(self) -> u64
        requires { end_of_span self ≤ globals_limit }
        ensures { result ≡ end_of_span self }
    {
        self.start + self.count * self.bytes
    }
}
