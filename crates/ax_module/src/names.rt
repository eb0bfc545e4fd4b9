//! Names of globals and functions.

ghost use Rattle.std.specs.Prelude.{◌≡◌, ◌++◌, OnOk, string_bytes};
ghost use Rattle.std.specs.List.{list_all};
ghost use Rattle.ax_module.specs.Names.{IsAscii, is_name_byte, is_plain, global_token};

use ax_words::Items;
use std::alloc::AllocError;
use std::marker::Model;

/// The name of a global or of a function, a list of bytes, without its `@`.
#[derive(Drop)]
pub struct Name {
    bytes: Items<u8>,
}

impl Model for Name {
    ghost use Rattle.std.specs.Prelude.{ℕ, List};

    ghost Value = { List ℕ };

    ghost view = { λ n. n.bytes };

    ghost inverse = { λ b. record { bytes = b } };
}

impl Name {
    /// The name that is spelled by these bytes.
    pub fn of(bytes: Vec<u8>) -> Name
        ensures { result ≡ bytes.items }
    {
        Name {
            bytes: Items::of(bytes),
        }
    }

    /// Its bytes, printable ASCII.
    pub fn as_bytes(&self) -> &[u8]
        ensures { result.now ≡ self.now }
    {
        self.bytes.as_slice()
    }

    /// Whether it is written without quotes: not empty, and all letters, digits, `_`, `.`, `-` and
    /// `$` (LLVM Language Reference, Identifiers).
    pub fn is_plain(&self) -> bool
        ensures { result ≡ is_plain self.now }
    {
        let bytes = self.as_bytes();
        !bytes.is_empty() && are_name_bytes(bytes)
    }

    /// Appends the name as LLVM's text has it, behind an `@` and in double quotes where it isn't
    /// plain. The only error is that memory fails.
    pub fn push_to(&self, out: &mut String) -> Result<(), AllocError>
        requires { IsAscii self.now }
        ensures { OnOk result (string_bytes out.new ≡ string_bytes out.old ++ global_token self.now) }
    {
        if self.is_plain() {
            write!(out, "@")?;
            push_bytes(out, self.as_bytes())
        } else {
            write!(out, "@\"")?;
            push_bytes(out, self.as_bytes())?;
            write!(out, "\"")
        }
    }
}

fn push_bytes(out: &mut String, bytes: &[u8]) -> Result<(), AllocError>
    requires { IsAscii bytes.now }
    ensures { OnOk result (string_bytes out.new ≡ string_bytes out.old ++ bytes.now) }
{
    for b in bytes {
        out.push(*b as char)?;
    }
    Ok(())
}

fn are_name_bytes(bytes: &[u8]) -> bool
    ensures { result ≡ list_all is_name_byte bytes.now }
{
    bytes.iter().all(|b| is_name_byte(*b))
}

fn is_name_byte(b: u8) -> bool
    ensures { result ≡ is_name_byte b }
{
    b.is_ascii_alphanumeric() || matches!(b, b'_' | b'.' | b'-' | b'$')
}
