//! The elements of globals in memory.

ghost use Rattle.std.specs.Prelude.{◌≡◌, Some, slice_get};
ghost use Rattle.ax_layout.specs.Classes.{class_of};
ghost use Rattle.ax_layout.specs.Layout.{HasElement, bytes_in};
ghost use Rattle.ax_source_run.specs.SourceAccess.{is_native_class};
ghost use Rattle.ax_store.specs.Bytes.{IsWidth};
ghost use Rattle.ax_store.specs.Store.{storage_of};
ghost use Rattle.ax_agree.specs.Agree.{is_native_byte};
ghost use Rattle.ax_run.specs.Objects.{is_native_in, object_in};

use crate::memory::{lock_word, number_in};
use ax_check::Accepted;
use ax_check::laws::accepted_can_be_laid_out;
use ax_layout::regions::objects_are_apart;
use ax_layout::{Class, class, lock_index};
use ax_module::module;
use ax_store::Store;
use ax_target::Target;
use ax_words::Width;

/// The size of an element of global g.
pub(crate) fn element_bytes(program: &Accepted, g: u32, global: &module::Global) -> u8
    requires { slice_get program.now.source.globals g ≡ Some global.now }
    ensures bytes { result ≡ bytes_in program.now.layout g }
    ensures width { IsWidth result }
{
    program.is_without_faults();
    accepted_can_be_laid_out();
    objects_are_apart();
    global.elem.bytes() as u8
}

/// Whether an object of this size at an address is native.
fn is_native(address: u64, bytes: u8, t: Target) -> bool
    requires { IsWidth bytes }
    ensures { result ≡ is_native_class (class_of address bytes t) }
{
    match Width::of_bytes(bytes as u64) {
        Some(width) => matches!(class(address, width, t), Class::Native),
        None => false,
    }
}

/// Whether the byte at an address is one of a native element of global g.
fn is_native_in(program: &Accepted, g: u32, global: &module::Global, a: u64) -> bool
    requires { slice_get program.now.source.globals g ≡ Some global.now }
    ensures { result ≡ is_native_in program.now g a }
{
    program.is_without_faults();
    accepted_can_be_laid_out();
    objects_are_apart();
    let bytes = element_bytes(program, g, global);
    let start = program.layout().address(g, 0);
    if a < start {
        return false;
    }
    let i = (a - start) / bytes as u64;
    if i >= global.count {
        return false;
    }
    is_native(program.layout().address(g, i), bytes, program.target())
}

/// Whether the byte at an address is one of a native object.
pub(crate) fn is_native_byte(program: &Accepted, a: u64) -> bool
    ensures { result ≡ is_native_byte program.now 0 program.now.layout.spans a }
{
    program.is_without_faults();
    accepted_can_be_laid_out();
    let globals = program.module().globals.as_slice();
    for g in 0..globals.len() {
        if is_native_in(program, g as u32, &globals[g], a) {
            return true;
        }
    }
    false
}

/// The number of an element of a global in memory; None exactly where the element is locked and its
/// lock word is not 0.
pub(crate) fn object_in(program: &Accepted, store: &Store, g: u32, i: u64) -> Option<u128>
    requires { HasElement program.now.layout g i }
    ensures { result ≡ object_in program.now (storage_of store.now).mem g i }
{
    program.is_without_faults();
    accepted_can_be_laid_out();
    objects_are_apart();
    let globals = program.module().globals.as_slice();
    let bytes = element_bytes(program, g, &globals[g as usize]);
    let address = program.layout().address(g, i);
    if is_native(address, bytes, program.target()) || lock_word(store, lock_index(address)) == 0 {
        Some(number_in(store, address, bytes))
    } else {
        None
    }
}
