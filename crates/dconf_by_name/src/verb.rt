//! The commands of dconf(1).
ghost use Rattle.std.specs.Prelude.{◌≡◌};
ghost use Rattle.dconf_by_name.specs.Usages.{name_of};
ghost use Rattle.dconf_by_name.specs.Words.{verb_named};

/// A command of dconf(1).
#[derive(Clone, Copy)]
pub enum Verb {
    Help,
    Read,
    List,
    ListLocks,
    Write,
    Reset,
    Compile,
    Update,
    Watch,
    Dump,
    Load,
    Blame,
    /// `_complete`, for completions in a shell.
    Complete,
}

/// In the order of dconf's help.
const VERBS: [Verb; 13] = [
    Verb::Help,
    Verb::Read,
    Verb::List,
    Verb::ListLocks,
    Verb::Write,
    Verb::Reset,
    Verb::Compile,
    Verb::Update,
    Verb::Watch,
    Verb::Dump,
    Verb::Load,
    Verb::Blame,
    Verb::Complete,
];

impl Verb {
    /// The command of this name.
    pub(crate) fn named(name: &str) -> Option<Verb>
        ensures { result ≡ verb_named name.now }
    {
        VERBS.iter().copied().find(|verb| verb.name() == name)
    }

    fn name(self) -> &'static str
        ensures { result.now ≡ name_of self }
    {
        match self {
            Verb::Help => "help",
            Verb::Read => "read",
            Verb::List => "list",
            Verb::ListLocks => "list-locks",
            Verb::Write => "write",
            Verb::Reset => "reset",
            Verb::Compile => "compile",
            Verb::Update => "update",
            Verb::Watch => "watch",
            Verb::Dump => "dump",
            Verb::Load => "load",
            Verb::Blame => "blame",
            Verb::Complete => "_complete",
        }
    }
}
