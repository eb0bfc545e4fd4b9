//! The code of plain loads and stores.

ghost use Rattle.std.specs.Prelude.{◌≡◌, ◌++◌, [], ◌∷◌, OnOk};
ghost use Rattle.ax_emit.specs.Atomics.{gets_all, puts_all};
ghost use Rattle.ax_emit.specs.Lines.{access_code};
ghost use Rattle.ax_expand.specs.Standing.{wrap};
ghost use Rattle.ax_emit_arm.specs.Code.{address_register, get_one, load_in, size_of_bytes, store_in};
ghost use Rattle.ax_emit_arm.specs.Emitters.{slot_of};
ghost use Rattle.ax_emit_arm.specs.Slots.{arm_table};

use crate::parts::{Piece, push_acting};
use crate::slots::{ADDRESS, NUMBER, push_get, push_put};
use ax_arm::{ArmInstr, Size};
use ax_mid::Virtual;
use std::alloc::AllocError;

/// The size of an access to so many bytes.
fn size_of_bytes(bytes: u8) -> Size
    ensures { result ≡ size_of_bytes bytes }
{
    match bytes {
        1 => Size::Byte,
        2 => Size::Half,
        4 => Size::Word,
        _ => Size::Double,
    }
}

/// The load of bytes at the address in register 1 into register 0.
fn load_in(bytes: u8) -> ArmInstr
    ensures { result ≡ load_in bytes }
{
    ArmInstr::Ldr {
        size: size_of_bytes(bytes),
        rt: NUMBER,
        rn: ADDRESS,
        d: 0,
    }
}

/// The store of register 0 to bytes at the address in register 1.
fn store_in(bytes: u8) -> ArmInstr
    ensures { result ≡ store_in bytes }
{
    ArmInstr::Str {
        size: size_of_bytes(bytes),
        rt: NUMBER,
        rn: ADDRESS,
        d: 0,
    }
}

/// Appends the code of a load.
pub(crate) fn push_load(
    out: &mut Piece,
    to: Virtual,
    address: Virtual,
    bytes: u8,
) -> Result<(), AllocError>
    ensures { OnOk result (out.new.items ≡ out.old.items ++ wrap (get_one slot_of address_register address) (access_code (load_in bytes) []) (puts_all arm_table ((0, slot_of to) ∷ [])) 0) }
{
    push_get(out, ADDRESS, address)?;
    push_acting(out, load_in(bytes))?;
    push_put(out, to, NUMBER)?;
    Ok(())
}

/// Appends the code of a store.
pub(crate) fn push_store(
    out: &mut Piece,
    address: Virtual,
    from: Virtual,
    bytes: u8,
) -> Result<(), AllocError>
    ensures { OnOk result (out.new.items ≡ out.old.items ++ wrap (gets_all arm_table ((address_register, slot_of address) ∷ (0, slot_of from) ∷ [])) (access_code (store_in bytes) []) [] 0) }
{
    push_get(out, ADDRESS, address)?;
    push_get(out, NUMBER, from)?;
    push_acting(out, store_in(bytes))?;
    Ok(())
}
