//! A processor of the middle machine, and the lines that touch its registers and its frame alone.

use crate::halt::Halt;
use crate::numbers::{applied, extended, selected, shifted};
use crate::objects::{FRAME_BYTES, Spot, Waiting, spot_of};
use ax_mid::{Line, Mid, MidInst, Virtual};
use ax_tags::Tag;
use ax_target::Target;
use ax_words::SourceStatus;
use std::alloc::{AllocError, Global};

/// Four registers for each instruction of a function, and sixteen more.
const REGISTERS: usize = 4 * 2048 + 16;

/// How many silent lines an event runs at most.
const MOST: usize = 512;

/// Middle code on its target.
#[derive(Clone, Copy)]
pub(crate) struct Setting<'a> {
    pub alloc: Global,
    pub target: Target,
    pub code: &'a Mid<Virtual>,
}

impl<'a> Setting<'a> {
    pub(crate) fn line(&self, place: usize) -> Result<&'a Line<Virtual>, Halt> {
        self.code.lines.as_slice().get(place).ok_or(Halt::Stuck)
    }

    /// The place behind a label.
    pub(crate) fn behind(&self, label: u32) -> usize {
        let mut place = 0usize;
        for line in self.code.lines.as_slice() {
            place = place.wrapping_add(1);
            if let MidInst::Label(n) = line.inst
                && n == label
            {
                return place;
            }
        }
        place
    }
}

/// The place of its next line, its registers, where its frame begins and the frame's bytes, its
/// status, what a look saw, and the stores that wait.
#[derive(Drop)]
pub(crate) struct Processor {
    pub place: usize,
    pub registers: Vec<u64>,
    pub base: u64,
    pub frame: Vec<u8>,
    pub status: SourceStatus,
    pub seen: Option<u128>,
    pub waiting: Vec<Waiting>,
}

impl Processor {
    /// A processor at a place, whose registers and frame hold 0.
    pub(crate) fn new(alloc: Global, place: usize, base: u64) -> Result<Processor, AllocError> {
        Ok(Processor {
            place,
            registers: vec![in alloc; 0u64; REGISTERS]?,
            base,
            frame: vec![in alloc; 0u8; FRAME_BYTES as usize]?,
            status: SourceStatus::Running,
            seen: None,
            waiting: Vec::new(alloc),
        })
    }

    pub(crate) fn goes_on(&mut self) {
        self.place = self.place.wrapping_add(1);
    }

    pub(crate) fn read(&self, r: Virtual) -> Result<u64, Halt> {
        let number = self.registers.as_slice().get(r.0 as usize);
        number.copied().ok_or(Halt::Stuck)
    }

    pub(crate) fn write(&mut self, r: Virtual, number: u64) -> Result<(), Halt> {
        let r = r.0 as usize;
        if r >= self.registers.len() {
            return Err(Halt::Stuck);
        }
        self.registers[r] = number;
        Ok(())
    }

    /// What the address in a register names, if anything.
    pub(crate) fn spot(
        &self,
        setting: &Setting,
        address: Virtual,
        bytes: u64,
    ) -> Result<Option<Spot>, Halt> {
        let address = self.read(address)?;
        let globals = setting.code.globals.as_slice();
        Ok(spot_of(globals, self.base, address, bytes))
    }

    /// The offset in the frame that the address in a register names, if it names one.
    fn own(&self, setting: &Setting, address: Virtual, bytes: u8) -> Result<Option<usize>, Halt> {
        match self.spot(setting, address, u64::from(bytes))? {
            Some(Spot::Own(offset)) => Ok(Some(offset)),
            _ => Ok(None),
        }
    }

    /// The number of bytes of the frame, the lowest first.
    fn framed(&self, offset: usize, bytes: u8) -> Result<u64, Halt> {
        let mut number = 0u64;
        for k in 0..bytes {
            let place = offset.wrapping_add(usize::from(k));
            let byte = self.frame.as_slice().get(place).ok_or(Halt::Stuck)?;
            number |= u64::from(*byte).wrapping_shl(8 * u32::from(k));
        }
        Ok(number)
    }

    fn set_framed(&mut self, offset: usize, bytes: u8, number: u64) -> Result<(), Halt> {
        for k in 0..bytes {
            let place = offset.wrapping_add(usize::from(k));
            if place >= self.frame.len() {
                return Err(Halt::Stuck);
            }
            let byte = number.wrapping_shr(8 * u32::from(k)) & 0xff;
            self.frame[place] = u8::try_from(byte).map_err(|_| Halt::Stuck)?;
        }
        Ok(())
    }

    /// The register that a line sets without touching an object, and what it gets.
    fn computed(
        &self,
        setting: &Setting,
        inst: &MidInst<Virtual>,
    ) -> Result<Option<(Virtual, u64)>, Halt> {
        Ok(Some(match inst {
            MidInst::Const(to, number) => (*to, *number),
            MidInst::Copy(to, from) => (*to, self.read(*from)?),
            MidInst::Apply(op, to, a, b) => (*to, applied(*op, self.read(*a)?, self.read(*b)?)),
            MidInst::Shift(op, to, from, by) => (*to, shifted(*op, self.read(*from)?, *by)),
            MidInst::Extend(to, from, bits, signed) => {
                (*to, extended(self.read(*from)?, *bits, *signed))
            }
            MidInst::Select(to, test, a, b) => {
                let chosen = selected(self.read(*test)?, *a, *b);
                (*to, self.read(chosen)?)
            }
            MidInst::FrameAddress(to, offset) => {
                (*to, self.base.wrapping_add(u64::from(*offset)))
            }
            MidInst::Load(to, address, bytes) => match self.own(setting, *address, *bytes)? {
                Some(offset) => (*to, self.framed(offset, *bytes)?),
                None => return Ok(None),
            },
            _ => return Ok(None),
        }))
    }

    /// Whether a line touches its registers and its frame alone; it is done then.
    pub(crate) fn private_step(
        &mut self,
        setting: &Setting,
        inst: &MidInst<Virtual>,
    ) -> Result<bool, Halt> {
        if let Some((to, number)) = self.computed(setting, inst)? {
            self.write(to, number)?;
            self.goes_on();
            return Ok(true);
        }
        match inst {
            MidInst::Label(_) | MidInst::Nop => self.goes_on(),
            MidInst::Jump(label) => self.place = setting.behind(*label),
            MidInst::Branch(test, yes, no) => {
                let label = selected(self.read(*test)?, *yes, *no);
                self.place = setting.behind(label);
            }
            MidInst::Store(address, from, bytes) => {
                let Some(offset) = self.own(setting, *address, *bytes)? else {
                    return Ok(false);
                };
                self.set_framed(offset, *bytes, self.read(*from)?)?;
                self.goes_on();
            }
            _ => return Ok(false),
        }
        Ok(true)
    }

    /// The silent lines before the next event.
    pub(crate) fn advance(&mut self, setting: &Setting) -> Result<(), Halt> {
        for _ in 0..MOST {
            let line = setting.line(self.place)?;
            if !matches!(line.tag, Tag::Silent) || !self.private_step(setting, &line.inst)? {
                return Ok(());
            }
        }
        Ok(())
    }
}
