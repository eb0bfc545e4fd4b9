//! The globals of middle code.

ghost use Rattle.std.specs.Prelude.{◌≡◌, IfOk, IsTrue, Some, slice_get};
ghost use Rattle.ax_module.specs.Types.{type_bytes};
ghost use Rattle.ax_layout.specs.Classes.{class_of};
ghost use Rattle.ax_layout.specs.Layout.{CanBeLaidOut, is_element_type, layout_of, span_in};
ghost use Rattle.ax_source_run.specs.SourceAccess.{is_native_class};
ghost use Rattle.ax_selected.specs.Selected.{globals_from, mid_global};

use ax_check::Accepted;
use ax_layout::regions::objects_are_apart;
use ax_layout::{Class, class};
use ax_mid::MidGlobal;
use ax_module::{Ty, module};
use ax_target::Target;
use ax_words::Width;
use std::alloc::{AllocError, Global};

/// Whether an element of a type is native at an address.
fn is_native(address: u64, elem: Ty, t: Target) -> bool
    requires { IsTrue (is_element_type elem) }
    ensures { result ≡ is_native_class (class_of address (type_bytes elem) t) }
{
    match Width::of_bytes(elem.bytes()) {
        Some(width) => matches!(class(address, width, t), Class::Native),
        None => false,
    }
}

/// A global: where it lies, its elements, and whether they are native.
fn mid_global(a: &Accepted, g: u32, global: &module::Global) -> MidGlobal
    requires limits { CanBeLaidOut a.now.source }
    requires layout { a.now.layout ≡ layout_of a.now.source }
    requires global { slice_get a.now.source.globals g ≡ Some global.now }
    ensures { result ≡ mid_global a.now a.now.layout g (span_in a.now.layout g) }
{
    objects_are_apart();
    let address = a.layout().address(g, 0);
    MidGlobal {
        address,
        bytes: global.elem.bytes(),
        count: global.count,
        native: is_native(address, global.elem, a.target()),
    }
}

/// The globals of a module.
pub(crate) fn mid_globals(
    alloc: Global,
    a: &Accepted,
    globals: &[module::Global],
) -> Result<Vec<MidGlobal>, AllocError>
    requires limits { CanBeLaidOut a.now.source }
    requires layout { a.now.layout ≡ layout_of a.now.source }
    requires globals { globals.now ≡ a.now.source.globals }
    ensures { IfOk result (λ v. v.items ≡ globals_from a.now 0 a.now.layout.spans) }
{
    let mut made = Vec::with_capacity(alloc, globals.len())?;
    let mut g = 0;
    for global in globals {
        made.push(mid_global(a, g, global))?;
        g += 1;
    }
    Ok(made)
}
