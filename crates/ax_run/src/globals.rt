//! The first numbers of a module's globals in memory.

ghost use Rattle.std.specs.Prelude.{◌≡◌, ◌≤◌, ℕ, IsTrue, List, Some, length, slice_get};
ghost use Rattle.ax_store.specs.Store.{Kept, processors, storage_of};
ghost use Rattle.ax_layout.specs.Layout.{span_in};
ghost use Rattle.ax_source_run.specs.SourceRun.{constants_of, first_numbers};
ghost use Rattle.ax_agree.specs.Lowers.{first_byte, region_end};
ghost use Rattle.ax_cells.specs.Narrow.{is_narrow};
ghost use Rattle.ax_run.specs.Start.{elements_put, storage_with};

use crate::memory::put_number;
use crate::objects::element_bytes;
use ax_cells::constant;
use ax_check::Accepted;
use ax_check::laws::accepted_can_be_laid_out;
use ax_layout::regions::objects_are_apart;
use ax_module::module;
use ax_store::Store;

/// The number of element i of a global before the first event: its constant, and 0 where it has none.
fn first_number(global: &module::Global, i: u64) -> u128
    requires { IsTrue (is_narrow global.now.elem) }
    ensures { result ≡ constants_of (Some global.now) i }
{
    match global.init.as_slice().get(i as usize) {
        Some(number) => constant(global.elem, *number),
        None => 0,
    }
}

/// Stores the first numbers of the elements of global g.
fn store_elements(store: &mut Store, program: &Accepted, g: u32, global: &module::Global)
    requires global { slice_get program.now.source.globals g ≡ Some global.now }
    requires some { 1 ≤ processors store.old }
    ensures kept { Kept store.old store.new }
    ensures storage { (frames : List ℕ) (mem : ℕ → ℕ) → storage_of store.old ≡ storage_with (region_end program.now) frames mem → storage_of store.new ≡ storage_with (region_end program.now) frames (elements_put (span_in program.now.layout g) global.now.count (first_numbers program.now.source g) mem) }
{
    program.is_without_faults();
    accepted_can_be_laid_out();
    objects_are_apart();
    let bytes = element_bytes(program, g, global);
    for i in 0..global.count {
        let address = program.layout().address(g, i);
        put_number(store, address, bytes, first_number(global, i));
    }
}

/// Stores the first numbers of all globals, from the last global to the first.
pub(crate) fn store_globals(store: &mut Store, program: &Accepted)
    requires few { length program.now.source.globals ≤ 256 }
    requires some { 1 ≤ processors store.old }
    ensures kept { Kept store.old store.new }
    ensures storage { (frames : List ℕ) → storage_of store.old ≡ storage_with (region_end program.now) frames (λ a. 0) → storage_of store.new ≡ storage_with (region_end program.now) frames (first_byte program.now) }
{
    program.is_without_faults();
    accepted_can_be_laid_out();
    objects_are_apart();
    let globals = program.module().globals.as_slice();
    let mut g = globals.len();
    while g > 0 {
        g -= 1;
        store_elements(store, program, g as u32, &globals[g]);
    }
}
