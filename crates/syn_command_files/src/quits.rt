//! Where commands end the run.

ghost use Rattle.std.specs.Prelude.{◌≡◌};
ghost use Rattle.syn_command_files.specs.Sources.{count_until_quit, is_quit, until_quit};

use syn_words::Command;

/// Whether a command ends the run.
pub fn is_quit(command: &Command) -> bool
    ensures { result ≡ is_quit command.now }
{
    match command {
        Command::Quit => true,
        _ => false,
    }
}

// The number of commands up to the first that ends the run, that one included; of all where none does.
fn count_until_quit(commands: &[Command]) -> usize
    ensures { result ≡ count_until_quit commands.now }
{
    for (i, command) in commands.iter().enumerate() {
        if is_quit(command) {
            return i + 1;
        }
    }
    commands.len()
}

/// Drops the commands behind the first that ends the run.
pub(crate) fn cut_at_quit(commands: &mut Vec<Command>)
    ensures { commands.new.items ≡ until_quit commands.old.items }
{
    let count = count_until_quit(commands.as_slice());
    commands.truncate(count);
}
