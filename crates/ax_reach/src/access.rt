//! What is done at an element whose address is in register 0.

ghost use Rattle.std.specs.Prelude.{◌≡◌, ◌<◌, ◌++◌, [], ◌∷◌, IfOk, OnOk, map};
ghost use Rattle.ax_mid.specs.Built.{pushed};
ghost use Rattle.ax_source_run.specs.SourceInstructions.{width_of};
ghost use Rattle.ax_selected.specs.Operands.{is_narrow};
ghost use Rattle.ax_selected.specs.Registers.{flag_of};
ghost use Rattle.ax_selected.specs.Selected.{acting as acting_line, atomic, atomic_load_lines, atomic_store_lines, exchange_lines, halves, halves_into, load_lines, next_half, silent as silent_line, store_lines, straight, update_lines};
ghost use Rattle.ax_reach.specs.Near.{IsNearAccess, IsNearExchange, IsNearNumber};
ghost use Rattle.ax_reach.specs.Ways.{access_lines, exchange_results, wide_store};

use ax_mid::{MidInst, MidOp, Virtual};
use ax_module::{Operand, Ty};
use ax_pieces::lines::{Code, acting, high_into, high_of, low_into, low_of, silent};
use ax_values::bits;
use ax_words::{Items, Op, Order, Site, Width};
use std::alloc::{AllocError, Global};

/// A compare-exchange: whether it is weak, the expected and the desired number each with its type,
/// and the least order that is as strong as both of its orders.
#[derive(Clone, Copy)]
pub struct Exchange {
    pub weak: bool,
    pub ty: Ty,
    pub expected: Operand,
    pub desired_ty: Ty,
    pub desired: Operand,
    pub order: Order,
}

/// An access: the type of its number, what it stores, and its order where it is atomic.
#[derive(Clone, Copy)]
pub(crate) enum Access {
    Load(Ty),
    Store(Ty, Operand),
    LoadAtomic(Ty, Order),
    StoreAtomic(Ty, Operand, Order),
    Update(Op, Ty, Operand, Order),
    Compare(Exchange),
}

/// The registers that an atomic access takes and those that it gives.
#[derive(Drop)]
struct Registers {
    args: Vec<Virtual>,
    results: Vec<Virtual>,
}

fn is_narrow(ty: Ty) -> bool
    ensures { result ≡ is_narrow ty }
{
    bits(ty) <= 64
}

/// The width of the atomic accesses of a type.
pub fn width_of(ty: Ty) -> Width
    ensures { result ≡ width_of ty }
{
    match ty {
        Ty::I16 => Width::W16,
        Ty::I32 => Width::W32,
        Ty::I64 => Width::W64,
        Ty::I128 => Width::W128,
        _ => Width::W8,
    }
}

/// The register of whether a compare-exchange found what it expected.
fn flag_of(instruction: u32) -> u32
    requires { instruction < 2048 }
    ensures { result ≡ flag_of instruction }
{
    4 * instruction + 18
}

/// A register more for each half of a number.
fn push_halves(registers: &mut Vec<Virtual>, ty: Ty, low: u32, high: u32) -> Result<(), AllocError>
    ensures { OnOk result (registers.new.items ≡ registers.old.items ++ halves ty low high) }
{
    registers.push(Virtual(low))?;
    if !is_narrow(ty) {
        registers.push(Virtual(high))?;
    }
    Ok(())
}

/// A register for each half of a number.
fn halves(alloc: Global, ty: Ty, low: u32, high: u32) -> Result<Vec<Virtual>, AllocError>
    ensures { IfOk result (λ v. v.items ≡ halves ty low high) }
{
    let mut registers = Vec::new(alloc);
    push_halves(&mut registers, ty, low, high)?;
    Ok(registers)
}

/// The halves of an operand, into registers.
fn push_operand(
    code: &mut Code,
    site: Site,
    low: u32,
    high: u32,
    ty: Ty,
    operand: Operand,
) -> Result<(), AllocError>
    requires { IsNearNumber ty operand }
    ensures { OnOk result (code.new ≡ pushed (map (silent_line site.function site.instruction) (halves_into low high ty operand)) code.old) }
{
    silent(code, site, low_into(low, ty, operand))?;
    if !is_narrow(ty) {
        silent(code, site, high_into(high, ty, operand))?;
    }
    Ok(())
}

/// The address of the other 8 bytes of 16, into register 1.
fn push_next_half(code: &mut Code, site: Site) -> Result<(), AllocError>
    ensures { OnOk result (code.new ≡ pushed (map (silent_line site.function site.instruction) next_half) code.old) }
{
    silent(code, site, MidInst::Const(Virtual(1), 8))?;
    silent(
        code,
        site,
        MidInst::Apply(MidOp::Add, Virtual(1), Virtual(0), Virtual(1)),
    )
}

fn push_load(code: &mut Code, site: Site, ty: Ty, bytes: u8) -> Result<(), AllocError>
    requires { site.instruction < 2048 }
    ensures { OnOk result (code.new ≡ pushed (straight site.function site.instruction (load_lines site.instruction ty bytes)) code.old) }
{
    let (low, high) = (low_of(site.instruction), high_of(site.instruction));
    if is_narrow(ty) {
        return acting(code, site, MidInst::Load(Virtual(low), Virtual(0), bytes));
    }
    silent(code, site, MidInst::Load(Virtual(low), Virtual(0), 8))?;
    push_next_half(code, site)?;
    acting(code, site, MidInst::Load(Virtual(high), Virtual(1), 8))
}

/// A store of a number of 128 bits in registers 3 and 4.
fn push_store_wide(code: &mut Code, site: Site) -> Result<(), AllocError>
    ensures { OnOk result (code.new ≡ pushed (straight site.function site.instruction wide_store) code.old) }
{
    silent(code, site, MidInst::Store(Virtual(0), Virtual(3), 8))?;
    push_next_half(code, site)?;
    acting(code, site, MidInst::Store(Virtual(1), Virtual(4), 8))
}

fn push_store(
    code: &mut Code,
    site: Site,
    ty: Ty,
    operand: Operand,
    bytes: u8,
) -> Result<(), AllocError>
    requires { IsNearNumber ty operand }
    ensures { OnOk result (code.new ≡ pushed (straight site.function site.instruction (store_lines ty operand bytes)) code.old) }
{
    silent(code, site, low_into(3, ty, operand))?;
    if is_narrow(ty) {
        return acting(code, site, MidInst::Store(Virtual(0), Virtual(3), bytes));
    }
    silent(code, site, high_into(4, ty, operand))?;
    push_store_wide(code, site)
}

/// The line of an atomic access.
fn push_atomic(
    code: &mut Code,
    site: Site,
    op: Op,
    ty: Ty,
    order: Order,
    weak: bool,
    registers: Registers,
) -> Result<(), AllocError>
    ensures { OnOk result (code.new ≡ pushed (acting_line site.function site.instruction (atomic op ty order weak registers.args.items registers.results.items) ∷ []) code.old) }
{
    acting(
        code,
        site,
        MidInst::Atomic(
            op,
            width_of(ty),
            order,
            weak,
            Virtual(0),
            Items::of(registers.args),
            Items::of(registers.results),
        ),
    )
}

fn push_load_atomic(
    alloc: Global,
    code: &mut Code,
    site: Site,
    ty: Ty,
    order: Order,
) -> Result<(), AllocError>
    requires { site.instruction < 2048 }
    ensures { OnOk result (code.new ≡ pushed (straight site.function site.instruction (atomic_load_lines site.instruction ty order)) code.old) }
{
    let (low, high) = (low_of(site.instruction), high_of(site.instruction));
    let registers = Registers {
        args: Vec::new(alloc),
        results: halves(alloc, ty, low, high)?,
    };
    push_atomic(code, site, Op::Load, ty, order, false, registers)
}

fn push_store_atomic(
    alloc: Global,
    code: &mut Code,
    site: Site,
    ty: Ty,
    operand: Operand,
    order: Order,
) -> Result<(), AllocError>
    requires { IsNearNumber ty operand }
    ensures { OnOk result (code.new ≡ pushed (straight site.function site.instruction (atomic_store_lines ty operand order)) code.old) }
{
    push_operand(code, site, 3, 4, ty, operand)?;
    let registers = Registers {
        args: halves(alloc, ty, 3, 4)?,
        results: Vec::new(alloc),
    };
    push_atomic(code, site, Op::Store, ty, order, false, registers)
}

fn push_update(
    alloc: Global,
    code: &mut Code,
    site: Site,
    op: Op,
    ty: Ty,
    operand: Operand,
    order: Order,
) -> Result<(), AllocError>
    requires near { site.instruction < 2048 }
    requires number { IsNearNumber ty operand }
    ensures { OnOk result (code.new ≡ pushed (straight site.function site.instruction (update_lines site.instruction op ty operand order)) code.old) }
{
    push_operand(code, site, 3, 4, ty, operand)?;
    let (low, high) = (low_of(site.instruction), high_of(site.instruction));
    let registers = Registers {
        args: halves(alloc, ty, 3, 4)?,
        results: halves(alloc, ty, low, high)?,
    };
    push_atomic(code, site, op, ty, order, false, registers)
}

/// The registers of a compare-exchange.
fn exchange_registers(alloc: Global, instruction: u32, ty: Ty) -> Result<Registers, AllocError>
    requires { instruction < 2048 }
    ensures args { IfOk result (λ r. r.args.items ≡ halves ty 3 4 ++ halves ty 5 6) }
    ensures results { IfOk result (λ r. r.results.items ≡ exchange_results instruction ty) }
{
    let mut args = halves(alloc, ty, 3, 4)?;
    push_halves(&mut args, ty, 5, 6)?;
    let mut results = halves(alloc, ty, low_of(instruction), high_of(instruction))?;
    results.push(Virtual(flag_of(instruction)))?;
    Ok(Registers { args, results })
}

fn push_exchange(alloc: Global, code: &mut Code, site: Site, x: Exchange) -> Result<(), AllocError>
    requires near { site.instruction < 2048 }
    requires numbers { IsNearExchange x }
    ensures { OnOk result (code.new ≡ pushed (straight site.function site.instruction (exchange_lines site.instruction x.weak x.ty x.expected x.desired_ty x.desired x.order)) code.old) }
{
    push_operand(code, site, 3, 4, x.ty, x.expected)?;
    push_operand(code, site, 5, 6, x.desired_ty, x.desired)?;
    let registers = exchange_registers(alloc, site.instruction, x.ty)?;
    push_atomic(code, site, Op::Cmpxchg, x.ty, x.order, x.weak, registers)
}

/// The lines of an access to an element of so many bytes.
pub(crate) fn push_lines(
    alloc: Global,
    code: &mut Code,
    site: Site,
    access: Access,
    bytes: u8,
) -> Result<(), AllocError>
    requires near { site.instruction < 2048 }
    requires access { IsNearAccess access }
    ensures { OnOk result (code.new ≡ pushed (straight site.function site.instruction (access_lines site.instruction bytes access)) code.old) }
{
    match access {
        Access::Load(ty) => push_load(code, site, ty, bytes),
        Access::Store(ty, operand) => push_store(code, site, ty, operand, bytes),
        Access::LoadAtomic(ty, order) => push_load_atomic(alloc, code, site, ty, order),
        Access::StoreAtomic(ty, operand, order) => {
            push_store_atomic(alloc, code, site, ty, operand, order)
        }
        Access::Update(op, ty, operand, order) => {
            push_update(alloc, code, site, op, ty, operand, order)
        }
        Access::Compare(exchange) => push_exchange(alloc, code, site, exchange),
    }
}
