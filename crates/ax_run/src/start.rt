//! What a run begins with: processors, storage, and room for its events.

ghost use Rattle.std.specs.Prelude.{◌≡◌, ◌<◌, ◌≤◌, ℕ, All, Bool, IfOk, OnOk, length, true};
ghost use Rattle.ax_map.specs.Map.{IsFrameSize, IsProcessorCount};
ghost use Rattle.ax_store.specs.Store.{Kept, processors, spare_of, storage_of};
ghost use Rattle.ax_agree.specs.Lowers.{AreEntriesOf, first_byte, region_end};
ghost use Rattle.ax_agree.specs.Sound.{HasFunctions, IsSoundCode};
ghost use Rattle.ax_lowered.specs.Code.{IsInstrOf, image_of, kind_of};
ghost use Rattle.ax_run.specs.Start.{Begun, cpus_from, first_cpu, frames_for, storage_with};

use crate::globals::store_globals;
use crate::machine::Machine;
use ax_arm::Arm;
use ax_check::Accepted;
use ax_check::laws::accepted_can_be_laid_out;
use ax_isa::{Cpu, Image, Isa, Role, Status};
use ax_lowered::Code;
use ax_map::{FRAME_ROOM, FRAMES_START, STACK_OFFSET};
use ax_rv::Rv64;
use ax_store::Store;
use ax_x86::X86;
use std::alloc::{AllocError, Global};

/// The register that is the stack pointer, by the instruction set: `rsp`, `sp` and `sp`.
const X86_STACK: u8 = 4;

const ARM_STACK: u8 = 31;

const RV_STACK: u8 = 2;

/// Processor p at a place, with its stack pointer.
fn first_cpu(stack: u8, p: u64, place: u32) -> Cpu
    requires stack { stack < 32 }
    requires processor { p < 8 }
    ensures { result ≡ first_cpu stack p place }
{
    let mut regs = [0; 32];
    regs[stack as usize] = FRAMES_START + FRAME_ROOM * p + STACK_OFFSET;
    Cpu {
        regs,
        compared: (0, 0),
        half: false,
        place,
        status: Status::Running,
        role: Role::None,
    }
}

/// A processor for each entry, at the place of its function.
fn cpus(alloc: Global, stack: u8, places: &[u32], entries: &[u32]) -> Result<Vec<Cpu>, AllocError>
    requires stack { stack < 32 }
    requires few { length entries.now ≤ 8 }
    requires known { All (λ f. f < length places.now) entries.now }
    ensures { IfOk result (λ v. v.items ≡ cpus_from stack places.now 0 entries.now) }
{
    let mut cpus = Vec::with_capacity(alloc, entries.len())?;
    for (p, f) in entries.iter().enumerate() {
        cpus.push(first_cpu(stack, p as u64, places[*f as usize]))?;
    }
    Ok(cpus)
}

/// The size of the frame of each entry.
fn frames(alloc: Global, sizes: &[u64], entries: &[u32]) -> Result<Vec<u64>, AllocError>
    requires { All (λ f. f < length sizes.now) entries.now }
    ensures { IfOk result (λ v. v.items ≡ frames_for sizes.now entries.now) }
{
    let mut frames = Vec::with_capacity(alloc, entries.len())?;
    for f in entries {
        frames.push(sizes[*f as usize])?;
    }
    Ok(frames)
}

/// Where the region of the globals ends.
fn region_end(program: &Accepted) -> u64
    ensures { result ≡ region_end program.now }
{
    program.is_without_faults();
    accepted_can_be_laid_out();
    program.layout().end().div_ceil(16) * 16
}

/// Makes room for so many stores of each of the first processors.
fn reserve(store: &mut Store, count: u8, events: u64) -> Result<(), AllocError>
    requires { count ≤ processors store.old }
    ensures kept { Kept store.old store.new }
    ensures storage { storage_of store.new ≡ storage_of store.old }
    ensures spares { OnOk result ((q : ℕ) → q < count → events ≤ spare_of store.new q) }
{
    for p in 0..count {
        store.reserve(p, events)?;
    }
    Ok(())
}

/// A storage with frames of these sizes, where the globals hold their first numbers, and where with
/// buffers each processor has room for so many stores.
fn store(
    alloc: Global,
    program: &Accepted,
    frames: &[u64],
    buffered: bool,
    events: u64,
) -> Result<Store, AllocError>
    requires sizes { All IsFrameSize frames.now }
    requires count { IsProcessorCount (length frames.now) }
    ensures storage { IfOk result (λ s. storage_of s ≡ storage_with (region_end program.now) frames.now (first_byte program.now)) }
    ensures kind { IfOk result (λ s. s.buffered ≡ buffered) }
    ensures processors { IfOk result (λ s. processors s ≡ length frames.now) }
    ensures spares { IfOk result (λ s. s.buffered ≡ true → (q : ℕ) → q < length frames.now → events ≤ spare_of s q) }
{
    program.is_without_faults();
    accepted_can_be_laid_out();
    let mut store = Store::new(alloc, region_end(program), frames, buffered)?;
    store_globals(&mut store, program);
    if buffered {
        reserve(&mut store, frames.len() as u8, events)?;
    }
    Ok(store)
}

/// The machine of an image of a program before its first event, with room for so many events.
fn start_image<'a, I: Isa>(
    alloc: Global,
    stack: u8,
    image: &Image<I::Instr>,
    program: &'a Accepted,
    entries: &[u32],
    events: u64,
) -> Result<Machine<'a>, AllocError>
    requires stack { stack ≡ (I.kind).stack }
    requires register { stack < 32 }
    requires functions { HasFunctions (length program.now.source.functions) image.now }
    requires entries { AreEntriesOf program.now.source entries.now }
    requires events { events ≤ 1000000 }
    ensures { IfOk result (Begun I.kind image.now program.entry.now entries.now events) }
{
    let frames = frames(alloc, image.frames.as_slice(), entries)?;
    let cpus = cpus(alloc, stack, image.entries.as_slice(), entries)?;
    let store = store(alloc, program, frames.as_slice(), I::BUFFERED, events)?;
    let outputs = Vec::with_capacity(alloc, events as usize)?;
    let sources = Vec::with_capacity(alloc, 2 * events as usize)?;
    let made = Vec::with_capacity(alloc, events as usize)?;
    Ok(Machine {
        program,
        cpus,
        retired: [0; 8],
        store,
        natives: [0; 8],
        outputs,
        sources,
        events: made,
        room: events,
    })
}

/// The machine of a code of a program before its first event, with room for so many events.
pub(crate) fn start<'a>(
    alloc: Global,
    code: &Code,
    program: &'a Accepted,
    entries: &[u32],
    events: u64,
) -> Result<Machine<'a>, AllocError>
    requires functions { HasFunctions (length program.now.source.functions) (image_of code.now) }
    requires entries { AreEntriesOf program.now.source entries.now }
    requires events { events ≤ 1000000 }
    ensures { IfOk result (Begun (kind_of code.now) (image_of code.now) program.entry.now entries.now events) }
{
    match code {
        Code::X86(image) => start_image::<X86>(alloc, X86_STACK, image, program, entries, events),
        Code::Arm(image) => start_image::<Arm>(alloc, ARM_STACK, image, program, entries, events),
        Code::Rv(image) => start_image::<Rv64>(alloc, RV_STACK, image, program, entries, events),
    }
}
