// The commands.
ghost use Rattle.std.specs.Prelude.{◌≡◌};
ghost use Rattle.mdoc_program.specs.Order.{command_of};

/// A command of the program.
#[derive(Clone, Copy, Debug, PartialEq, Eq)]
pub enum Command {
    /// Prints the core of what the holder's rules release.
    Draft,
    /// Issues the copies that a spec asks for.
    Issue,
    /// Takes a package into the store.
    Import,
}

impl Command {
    // The command of that name.
    pub(crate) fn from_word(word: &str) -> Option<Command>
        ensures { result ≡ command_of word.now }
    {
        match word {
            "draft" => Some(Command::Draft),
            "issue" => Some(Command::Issue),
            "import" => Some(Command::Import),
            _ => None,
        }
    }
}
