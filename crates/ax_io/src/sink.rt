ghost use Rattle.std.specs.Prelude.{◌≡◌, ℕ, List, [], Option, IsErrOf, IsOk};
ghost use Rattle.ax_io.specs.Count.{Rose, RaisesOnly};
ghost use Rattle.ax_io.specs.Sink.{Adds};

use crate::SinkFault;

/// Where bytes are put.
///
/// Two meanings belong to a value: `written` is the list of all bytes that were put so far, where
/// the value tells it, and `faults` counts the failed calls and never falls.
pub trait Sink {
    ghost written: { Self → Option (List ℕ) };

    ghost faults: { Self → ℕ };

    /// Appends all bytes. An empty piece is `Ok` and changes nothing.
    ///
    /// After `Failed` or `Memory` a prefix of the bytes was appended. `Failed` comes only where
    /// `faults` rose in this call.
    fn put(&mut self, bytes: &[u8]) -> Result<(), SinkFault>
        ensures adds { Adds (written self.old) (written self.new) bytes.now result }
        ensures empty { bytes.now ≡ [] → (IsOk result) × (written self.new ≡ written self.old) × (faults self.new ≡ faults self.old) }

        ensures failed { IsErrOf result SinkFault.Failed → Rose (faults self.old) (faults self.new) }
        ensures raises { RaisesOnly (faults self.old) (faults self.new) (IsErrOf result SinkFault.Failed) };
}
