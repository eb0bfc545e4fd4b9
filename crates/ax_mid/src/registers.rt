//! Registers of middle code.

/// A register before registers are assigned.
#[derive(Clone, Copy)]
pub struct Virtual(pub u32);

/// A register of a machine, below 8, or a slot of the frame.
#[derive(Clone, Copy)]
pub enum Physical {
    Register(u8),
    Slot(u32),
}
