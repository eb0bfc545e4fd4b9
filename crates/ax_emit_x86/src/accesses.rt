//! The code of plain loads and stores.

ghost use Rattle.std.specs.Prelude.{◌≡◌, ◌++◌, [], ◌∷◌, OnOk};
ghost use Rattle.ax_emit.specs.Atomics.{gets_all, puts_all};
ghost use Rattle.ax_emit.specs.Lines.{access_code};
ghost use Rattle.ax_expand.specs.Standing.{wrap};
ghost use Rattle.ax_emit_x86.specs.Code.{get_one, load_in, size_of_bytes, store_in};
ghost use Rattle.ax_emit_x86.specs.Emitters.{IsReached, slot_of};
ghost use Rattle.ax_emit_x86.specs.Slots.{x86_table};

use crate::parts::{Piece, push_acting};
use crate::slots::{RAX, RSI, push_get, push_put};
use ax_mid::Virtual;
use ax_x86::{MemoryOperand, Size, X86Instr};
use std::alloc::AllocError;

// The bytes at the address in rsi.
const AT_ADDRESS: MemoryOperand = MemoryOperand {
    displacement: 0,
    base: RSI,
};

/// The size of an operand of so many bytes.
fn size_of_bytes(bytes: u8) -> Size
    ensures { result ≡ size_of_bytes bytes }
{
    match bytes {
        1 => Size::Byte,
        2 => Size::Word,
        4 => Size::Long,
        _ => Size::Quad,
    }
}

/// The load of bytes at the address in rsi into rax.
fn load_in(bytes: u8) -> X86Instr
    ensures { result ≡ load_in bytes }
{
    X86Instr::Load {
        size: size_of_bytes(bytes),
        memory: AT_ADDRESS,
        to: RAX,
    }
}

/// The store of rax to bytes at the address in rsi.
fn store_in(bytes: u8) -> X86Instr
    ensures { result ≡ store_in bytes }
{
    X86Instr::Store {
        size: size_of_bytes(bytes),
        from: RAX,
        memory: AT_ADDRESS,
    }
}

/// Appends the code of a load.
pub(crate) fn push_load(
    out: &mut Piece,
    to: Virtual,
    address: Virtual,
    bytes: u8,
) -> Result<(), AllocError>
    requires to { IsReached to }
    requires address { IsReached address }
    ensures { OnOk result (out.new.items ≡ out.old.items ++ wrap (get_one slot_of 6 address) (access_code (load_in bytes) []) (puts_all x86_table ((0, slot_of to) ∷ [])) 0) }
{
    push_get(out, RSI, address)?;
    push_acting(out, load_in(bytes))?;
    push_put(out, to, RAX)?;
    Ok(())
}

/// Appends the code of a store.
pub(crate) fn push_store(
    out: &mut Piece,
    address: Virtual,
    from: Virtual,
    bytes: u8,
) -> Result<(), AllocError>
    requires address { IsReached address }
    requires from { IsReached from }
    ensures { OnOk result (out.new.items ≡ out.old.items ++ wrap (gets_all x86_table ((6, slot_of address) ∷ (0, slot_of from) ∷ [])) (access_code (store_in bytes) []) [] 0) }
{
    push_get(out, RSI, address)?;
    push_get(out, RAX, from)?;
    push_acting(out, store_in(bytes))?;
    Ok(())
}
