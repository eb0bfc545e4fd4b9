//! The forms of words.

ghost use Rattle.std.specs.Prelude.{◌≡◌, map, option_map};
ghost use Rattle.std.specs.String.{string_bytes};
ghost use Rattle.ax_app.specs.Answers.{command_of, lower_form, map_form, run_form};
ghost use Rattle.ax_app.specs.Commands.{seen};

use ax_target::{Target, named};

/// What the words ask for, on a target, with the names of the files in the order in which they are
/// read.
#[derive(Clone, Copy)]
pub(crate) enum Command<'a> {
    Lower {
        target: Target,
        module: &'a str,
    },
    Run {
        target: Target,
        module: &'a str,
        schedule: &'a str,
    },
    Map {
        target: Target,
    },
}

fn map_form<'a>(verb: &str, target: &str) -> Option<Command<'a>>
    ensures { option_map seen result ≡ map_form verb.now target.now }
{
    if verb != "map" {
        return None;
    }
    let target = named(target)?;
    Some(Command::Map { target })
}

fn lower_form<'a>(verb: &str, target: &str, module: &'a str) -> Option<Command<'a>>
    ensures { option_map seen result ≡ lower_form verb.now target.now module.now }
{
    if verb != "lower" {
        return None;
    }
    let target = named(target)?;
    Some(Command::Lower { target, module })
}

fn run_form<'a>(verb: &str, target: &str, module: &'a str, schedule: &'a str) -> Option<Command<'a>>
    ensures { option_map seen result ≡ run_form verb.now target.now (module.now, schedule.now) }
{
    if verb != "run" {
        return None;
    }
    let target = named(target)?;
    Some(Command::Run {
        target,
        module,
        schedule,
    })
}

/// The command that the words state, if they are one of the forms.
pub(crate) fn command_of(words: &[String]) -> Option<Command>
    ensures { option_map seen result ≡ command_of (map string_bytes words.now) }
{
    match words {
        [verb, target] => map_form(verb.as_str(), target.as_str()),
        [verb, target, module] => lower_form(verb.as_str(), target.as_str(), module.as_str()),
        [verb, target, module, schedule] => run_form(
            verb.as_str(),
            target.as_str(),
            module.as_str(),
            schedule.as_str(),
        ),
        _ => None,
    }
}
