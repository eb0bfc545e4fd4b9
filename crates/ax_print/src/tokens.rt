//! The tokens of the events in a report.

use ax_words::{Event, SourceEvent};

/// What a report shows of an event: a letter, and the processor, counted from 0.
#[derive(Clone, Copy, PartialEq, Eq)]
pub struct Token {
    pub letter: char,
    pub processor: u8,
}

/// An event that a report shows.
pub trait Traced {
    ghost use Rattle.std.specs.Prelude.{◌≡◌};
    ghost use Rattle.ax_print.specs.declared.tokens.Token.{Token};

    ghost token_of: { Self → Token };

    /// Its token.
    fn token(&self) -> Token
        ensures { result ≡ token_of self.now };
}

impl Traced for SourceEvent {
    ghost use Rattle.ax_print.specs.Tokens.{source_token};

    ghost token_of = { source_token };

    fn token(&self) -> Token {
        match *self {
            SourceEvent::Act(processor) => Token {
                letter: 'A',
                processor,
            },
            SourceEvent::Look(processor) => Token {
                letter: 'L',
                processor,
            },
            SourceEvent::Miss(processor) => Token {
                letter: 'M',
                processor,
            },
            SourceEvent::Drain(processor) => Token {
                letter: 'D',
                processor,
            },
        }
    }
}

impl Traced for Event {
    ghost use Rattle.ax_print.specs.Tokens.{machine_token};

    ghost token_of = { machine_token };

    fn token(&self) -> Token {
        match *self {
            Event::Step(processor) => Token {
                letter: 'S',
                processor,
            },
            Event::Drain(processor) => Token {
                letter: 'D',
                processor,
            },
            Event::Drop(processor) => Token {
                letter: 'X',
                processor,
            },
        }
    }
}
