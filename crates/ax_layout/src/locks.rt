//! The lock of an object.

ghost use Rattle.std.specs.Prelude.{◌≡◌, ◌<◌};
ghost use Rattle.ax_map.specs.Map.{lock_index_of};

/// The index of the lock of the object whose first byte is at this address, below 256.
pub fn lock_index(address: u64) -> u32
    ensures value { result ≡ lock_index_of address }
    ensures below { result < 256 }
{
    ((address >> 4 ^ address >> 12) & 0xff) as u32
}
