//! What `update` makes where dconf has its databases.
ghost use Rattle.std.specs.Prelude.{◌≡◌, string_bytes};
ghost use Rattle.command_words.specs.Commands.{command_of};
ghost use Rattle.dconf_habits.specs.Updates.{in_dconfs_place};

use command_words::Command;

/// The command that makes a database, of the same sources, as dconf names it: NAME, and not NAME.db. Any other stays as it is.
pub fn in_dconfs_place(command: Command, name: String) -> Command
    ensures { command_of result ≡ in_dconfs_place (string_bytes name) (command_of command) }
{
    match command {
        Command::Compile {
            locks,
            keyfiles,
            ..
        } => Command::Compile {
            out: name,
            locks,
            keyfiles,
        },
        other => other,
    }
}
