//! A law about rows of words.
ghost use Rattle.ec_commands.specs.Command.{RowsAreCommands};

/// Each command is read exactly from its rows, and none exactly from all other words.
pub fn rows_are_commands()
    ensures { RowsAreCommands }
{}
