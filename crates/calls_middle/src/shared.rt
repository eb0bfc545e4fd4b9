//! The lines of middle code that have an event.

use crate::halt::Halt;
use crate::objects::{Element, Objects, Spot, Waiting};
use crate::operations::{Operation, argument, low_bytes, operation_of, results_of};
use crate::processor::{Processor, Setting};
use ax_mid::{MidInst, Virtual};
use ax_tags::Tag;
use ax_target::{Way, buffered, decide};
use ax_words::{Op, Order, SourceStatus, Width};

/// An operation on an element of so many bytes; a store may wait that is plain, or atomic in one
/// access and below seq_cst.
#[derive(Clone, Copy)]
struct Access {
    element: Element,
    bytes: u64,
    operation: Operation,
    may_wait: bool,
}

/// An atomic operation as its line has it.
#[derive(Clone, Copy)]
struct Atomic<'a> {
    op: Op,
    width: Width,
    order: Order,
    address: Virtual,
    args: &'a [Virtual],
    results: &'a [Virtual],
}

/// Whether a store is one access and below seq_cst.
fn may_wait(setting: &Setting, width: Width, order: Order) -> bool {
    let way = decide(setting.target, Op::Store, width, width.bytes() as u64);
    !matches!(order, Order::SeqCst) && matches!(way, Way::Inline)
}

impl Processor {
    /// The element that the address in a register names.
    fn element(&self, setting: &Setting, address: Virtual, bytes: u64) -> Result<Element, Halt> {
        match self.spot(setting, address, bytes)? {
            Some(Spot::Shared(element)) => Ok(element),
            _ => Err(Halt::Stuck),
        }
    }

    /// All stores that wait reach their elements.
    fn write_out(&mut self, objects: &mut Objects) -> Result<(), Halt> {
        for store in &self.waiting {
            objects.set(store.element, store.number)?;
        }
        self.waiting.clear();
        Ok(())
    }

    /// The oldest store that waits reaches its element.
    pub(crate) fn drain(&mut self, objects: &mut Objects) -> Result<(), Halt> {
        if self.waiting.is_empty() {
            return Ok(());
        }
        let store = self.waiting.remove(0);
        objects.set(store.element, store.number)
    }

    /// The newest number that waits for an element, else the object's own.
    fn newest(&self, objects: &Objects, element: Element) -> Result<u128, Halt> {
        let mut number = objects.number(element)?;
        for store in &self.waiting {
            let e = store.element;
            if e.global == element.global && e.index == element.index {
                number = store.number;
            }
        }
        Ok(number)
    }

    /// An operation on an object, and the number that it finds.
    fn reach(
        &mut self,
        setting: &Setting,
        objects: &mut Objects,
        access: Access,
    ) -> Result<u128, Halt> {
        let element = access.element;
        match access.operation {
            Operation::Reads => self.newest(objects, element),
            Operation::Writes(number) if access.may_wait => {
                if buffered(setting.target) {
                    self.waiting.push(Waiting { element, number })?;
                } else {
                    objects.set(element, number)?;
                }
                Ok(0)
            }
            operation => {
                self.write_out(objects)?;
                let found = objects.number(element)?;
                if let Some(number) = operation.stored(access.bytes, found)? {
                    objects.set(element, number)?;
                }
                Ok(found)
            }
        }
    }

    fn taken(&self, setting: &Setting, args: &[Virtual]) -> Result<Vec<u64>, Halt> {
        let mut taken = Vec::new(setting.alloc);
        for r in args {
            taken.push(self.read(*r)?)?;
        }
        Ok(taken)
    }

    fn put(&mut self, registers: &[Virtual], numbers: &[u64]) -> Result<(), Halt> {
        for (r, number) in registers.iter().zip(numbers.iter()) {
            self.write(*r, *number)?;
        }
        Ok(())
    }

    fn atomic(
        &mut self,
        setting: &Setting,
        objects: &mut Objects,
        line: Atomic,
    ) -> Result<(), Halt> {
        if matches!(line.op, Op::Fence) {
            if matches!(line.order, Order::SeqCst) {
                self.write_out(objects)?;
            }
            return Ok(());
        }
        let bytes = line.width.bytes() as u64;
        let taken = self.taken(setting, line.args)?;
        let operation = operation_of(line.op, line.width, taken.as_slice());
        let access = Access {
            element: self.element(setting, line.address, bytes)?,
            bytes,
            operation,
            may_wait: may_wait(setting, line.width, line.order),
        };
        let found = self.reach(setting, objects, access)?;
        let equal = operation.expects(found);
        let results = results_of(setting.alloc, line.op, line.width, found, equal)?;
        self.put(line.results, results.as_slice())
    }

    /// A plain access to an object: what it found, if it loads.
    fn plain(
        &mut self,
        setting: &Setting,
        objects: &mut Objects,
        address: Virtual,
        bytes: u64,
        operation: Operation,
    ) -> Result<u64, Halt> {
        let access = Access {
            element: self.element(setting, address, bytes)?,
            bytes,
            operation,
            may_wait: true,
        };
        let found = self.reach(setting, objects, access)?;
        u64::try_from(found).map_err(|_| Halt::Stuck)
    }

    /// What only its event does, and what it writes out.
    fn shared_step(
        &mut self,
        setting: &Setting,
        objects: &mut Objects,
        inst: &MidInst<Virtual>,
    ) -> Result<Option<u64>, Halt> {
        let mut output = None;
        match inst {
            MidInst::Load(to, address, bytes) => {
                let bytes = u64::from(*bytes);
                let found = self.plain(setting, objects, *address, bytes, Operation::Reads)?;
                self.write(*to, found)?;
            }
            MidInst::Store(address, from, bytes) => {
                let bytes = u64::from(*bytes);
                let number = u128::from(low_bytes(self.read(*from)?, bytes));
                self.plain(setting, objects, *address, bytes, Operation::Writes(number))?;
            }
            MidInst::Atomic(op, width, order, _, address, args, results) => {
                let line = Atomic {
                    op: *op,
                    width: *width,
                    order: *order,
                    address: *address,
                    args: args.as_slice(),
                    results: results.as_slice(),
                };
                self.atomic(setting, objects, line)?;
            }
            MidInst::Out(from) => output = Some(self.read(*from)?),
            _ => return Err(Halt::Stuck),
        }
        self.goes_on();
        Ok(output)
    }

    /// The event of the line at which it stands, and what it writes out.
    pub(crate) fn act(
        &mut self,
        setting: &Setting,
        objects: &mut Objects,
    ) -> Result<Option<u64>, Halt> {
        let line = setting.line(self.place)?;
        if !matches!(line.tag, Tag::Act) {
            return Err(Halt::Stuck);
        }
        let mut output = None;
        match line.inst {
            MidInst::Trap => self.status = SourceStatus::Trapped,
            MidInst::Ret => self.status = SourceStatus::Ended,
            _ => {
                if !self.private_step(setting, &line.inst)? {
                    output = self.shared_step(setting, objects, &line.inst)?;
                }
            }
        }
        self.seen = None;
        Ok(output)
    }

    /// What the object of a weak exchange holds is seen, where it stands at one.
    pub(crate) fn look(&mut self, setting: &Setting, objects: &Objects) -> Result<(), Halt> {
        let line = setting.line(self.place)?;
        if let MidInst::Atomic(Op::Cmpxchg, width, _, true, address, _, _) = &line.inst {
            let element = self.element(setting, *address, width.bytes() as u64)?;
            self.seen = Some(objects.number(element)?);
        }
        Ok(())
    }

    /// A weak exchange whose look saw the number that it expects fails.
    pub(crate) fn miss(&mut self, setting: &Setting) -> Result<(), Halt> {
        let line = setting.line(self.place)?;
        if let MidInst::Atomic(op, width, _, true, _, args, results) = &line.inst
            && matches!(op, Op::Cmpxchg)
        {
            let taken = self.taken(setting, args.as_slice())?;
            let expected = argument(*width, taken.as_slice(), 0);
            if self.seen == Some(expected) {
                let numbers = results_of(setting.alloc, *op, *width, expected, false)?;
                self.put(results.as_slice(), numbers.as_slice())?;
                self.goes_on();
                self.seen = None;
            }
        }
        Ok(())
    }
}
