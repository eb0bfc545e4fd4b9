//! The addresses of a module's globals.

ghost use Rattle.std.specs.Prelude.{◌≡◌, IfOk};
ghost use Rattle.ax_layout.specs.Layout.{CanBeLaidOut, HasElement, address_in, layout_of};

use crate::address_range::{AddressRange, next_span};
use ax_map::GLOBALS_START;
use ax_module::Module;
use ax_words::Items;
use std::alloc::{AllocError, Global};
use std::marker::Model;

/// Where the elements of a module's globals lie.
///
/// Globals lie from 0x10000 on in the order of the text, each at the next multiple of its
/// alignment, and elements follow one another at their size.
#[derive(Drop)]
pub struct Layout {
    spans: Items<AddressRange>,
    end: u64,
}

impl Model for Layout {
    ghost use Rattle.std.specs.Prelude.{All};
    ghost use Rattle.ax_layout.specs.LayoutState.{IsInReach, LayoutState};

    ghost Value = { LayoutState };

    ghost view = { λ l. record { spans = l.spans; end = l.end } };

    ghost invariant = { λ l. All IsInReach l.spans };
}

impl Layout {
    /// The layout of a module: at most 256 globals of 1 to 65,536 elements of 8 to 128 bits, with
    /// alignments that are powers of two from 1 to 4,096, and none beyond the address 0x110000.
    pub fn of(alloc: Global, m: &Module) -> Result<Layout, AllocError>
        requires { CanBeLaidOut m.now }
        ensures { IfOk result (λ layout. layout ≡ layout_of m.now) }
    {
        let mut spans = Vec::new(alloc);
        let mut end = GLOBALS_START;
        for global in m.globals.as_slice() {
            let span = next_span(end, global);
            spans.push(span)?;
            end = span.end();
        }
        Ok(Layout {
            spans: Items::of(spans),
            end,
        })
    }

    /// The address of element `i` of global `g`, which there is.
    pub fn address(&self, g: u32, i: u64) -> u64
        requires { HasElement self.now g i }
        ensures { result ≡ address_in self.now g i }
    {
        let span = self.spans.as_slice()[g as usize];
        span.start + i * span.bytes
    }

    /// The address behind the last global.
    pub fn end(&self) -> u64
        ensures { result ≡ self.now.end }
    {
        self.end
    }
}
