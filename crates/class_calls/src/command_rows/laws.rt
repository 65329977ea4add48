//! A law about the table, for the proofs of other crates and for readers. It runs nothing.
ghost use Rattle.class_calls.specs.command_rows.Laws.{CommandsAreOne, CommandsAreTaken};

/// Words are one row of the table: they ask for one thing, and name the same files.
pub fn commands_are_one()
    ensures { CommandsAreOne }
{}

/// What a row asks for is in its range, and it names as many files as it takes.
pub fn commands_are_taken()
    ensures { CommandsAreTaken }
{}
