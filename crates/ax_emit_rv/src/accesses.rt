//! The code of plain loads and stores.

ghost use Rattle.std.specs.Prelude.{◌≡◌, ◌++◌, [], ◌∷◌, OnOk};
ghost use Rattle.ax_emit.specs.Atomics.{puts_all};
ghost use Rattle.ax_emit.specs.Lines.{access_code};
ghost use Rattle.ax_expand.specs.Standing.{silently, wrap};
ghost use Rattle.ax_emit_rv.specs.Code.{cleared, get_one, get_two, load_form, load_in, store_form, store_in};
ghost use Rattle.ax_emit_rv.specs.Emitters.{slot_of};
ghost use Rattle.ax_emit_rv.specs.Slots.{rv_table};

use crate::computed::push_extension;
use crate::parts::{Piece, push_acting};
use crate::slots::{push_get_one, push_get_two, push_put_one};
use ax_mid::Virtual;
use ax_rv::{LoadForm, RvInstr, StoreForm};
use std::alloc::AllocError;

fn load_form(bytes: u8) -> LoadForm
    ensures { result ≡ load_form bytes }
{
    if bytes == 1 {
        LoadForm::Byte
    } else if bytes == 2 {
        LoadForm::Half
    } else if bytes == 4 {
        LoadForm::Word
    } else {
        LoadForm::Double
    }
}

fn store_form(bytes: u8) -> StoreForm
    ensures { result ≡ store_form bytes }
{
    if bytes == 1 {
        StoreForm::Byte
    } else if bytes == 2 {
        StoreForm::Half
    } else if bytes == 4 {
        StoreForm::Word
    } else {
        StoreForm::Double
    }
}

/// The load of bytes at the address in register 5 into register 7.
fn load_in(bytes: u8) -> RvInstr
    ensures { result ≡ load_in bytes }
{
    RvInstr::Load {
        form: load_form(bytes),
        rd: 7,
        d: 0,
        rs1: 5,
    }
}

/// The store of register 6 to bytes at the address in register 5.
fn store_in(bytes: u8) -> RvInstr
    ensures { result ≡ store_in bytes }
{
    RvInstr::Store {
        form: store_form(bytes),
        rs2: 6,
        d: 0,
        rs1: 5,
    }
}

/// Appends what clears the upper bits of a loaded word.
fn push_cleared(out: &mut Piece, bytes: u8) -> Result<(), AllocError>
    ensures { OnOk result (out.new.items ≡ out.old.items ++ silently (cleared bytes)) }
{
    if bytes == 4 {
        push_extension(out, 32, false)?;
    }
    Ok(())
}

/// Appends the code of a load.
pub(crate) fn push_load(
    out: &mut Piece,
    to: Virtual,
    address: Virtual,
    bytes: u8,
) -> Result<(), AllocError>
    ensures { OnOk result (out.new.items ≡ out.old.items ++ wrap (get_one slot_of 5 address) (access_code (load_in bytes) (cleared bytes)) (puts_all rv_table ((7, slot_of to) ∷ [])) 0) }
{
    push_get_one(out, 5, address)?;
    push_acting(out, load_in(bytes))?;
    push_cleared(out, bytes)?;
    push_put_one(out, 7, to)?;
    Ok(())
}

/// Appends the code of a store.
pub(crate) fn push_store(
    out: &mut Piece,
    address: Virtual,
    from: Virtual,
    bytes: u8,
) -> Result<(), AllocError>
    ensures { OnOk result (out.new.items ≡ out.old.items ++ wrap (get_two slot_of address from) (access_code (store_in bytes) []) [] 0) }
{
    push_get_two(out, address, from)?;
    push_acting(out, store_in(bytes))?;
    Ok(())
}
