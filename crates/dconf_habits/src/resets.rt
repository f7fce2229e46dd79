//! `reset -f` of a key.
ghost use Rattle.std.specs.Prelude.{◌≡◌, string_bytes};
ghost use Rattle.dconf_model.specs.Paths.{ends_with_slash};
ghost use Rattle.command_words.specs.Commands.{command_of};
ghost use Rattle.dconf_habits.specs.Resets.{as_in_dconf};

use command_words::Command;

/// The same command as dconf takes it: `-f` says nothing of a key.
pub fn as_in_dconf(command: Command) -> Command
    ensures { command_of result ≡ as_in_dconf (command_of command) }
{
    match command {
        Command::Reset {
            force: true,
            path,
            profile,
        } => Command::Reset {
            force: is_directory(path.as_str()),
            path,
            profile,
        },
        other => other,
    }
}

/// Whether a path is written as a directory's.
fn is_directory(path: &str) -> bool
    ensures { result ≡ ends_with_slash path.now }
{
    path.as_bytes().ends_with(b"/")
}
