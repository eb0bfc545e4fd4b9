//! The answers of the top call.

ghost use Rattle.std.specs.Prelude.{◌≡◌};
ghost use Rattle.ax_app.specs.Answers.{code_of};

/// What a command ended with.
#[derive(Clone, Copy)]
pub enum Done {
    /// All text of the command was written.
    Ok,
    /// The words are none of the forms.
    Usage,
    /// The module's text derives no module.
    Syntax,
    /// The module has a fault.
    Refused,
    /// A line of the schedule is bad.
    Schedule,
    /// A file has more bytes than its limit.
    TooLong,
    /// The module is of no form that is built.
    Unbuilt,
    /// A file could not be read.
    ReadFault,
    /// The text or the line could not be written.
    WriteFault,
    /// Memory was wanting.
    Memory,
}

impl Done {
    /// The status with which the program ends.
    pub fn code(self) -> u8
        ensures { result ≡ code_of self }
    {
        match self {
            Done::Ok => 0,
            Done::Usage => 2,
            Done::Syntax => 3,
            Done::Refused => 4,
            Done::Schedule => 5,
            Done::TooLong => 6,
            Done::Unbuilt => 7,
            Done::ReadFault => 74,
            Done::WriteFault => 75,
            Done::Memory => 71,
        }
    }
}
