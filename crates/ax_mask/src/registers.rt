//! The registers of a masked loop.

/// What an operation takes: its address, and its operand or the expected number.
pub(crate) const ADDRESS: u8 = 10;

pub(crate) const NUMBER: u8 = 11;

/// What an exchange stores.
pub(crate) const DESIRED: u8 = 12;

/// What is linked, and in the end what the operation gives.
pub(crate) const RESULT: u8 = 15;

/// Whether an exchange stored.
pub(crate) const STORED: u8 = 16;

/// The address of the word that holds the object.
pub(crate) const WORD: u8 = 5;

/// How far the object lies below the highest bits.
pub(crate) const UP: u8 = 6;

/// Ones where the object lies.
pub(crate) const MASK: u8 = 7;

/// The operand or the expected number, in its place or at the highest bits.
pub(crate) const OPERAND: u8 = 28;

/// What the pair store stores, and then whether it failed.
pub(crate) const NEW: u8 = 29;

/// Whether a maximum or minimum takes its operand.
pub(crate) const TAKEN: u8 = 30;

/// What an exchange stores, in its place.
pub(crate) const PLACED: u8 = 30;
