//! Options.
ghost use Rattle.std.specs.Prelude.{◌≡◌};
ghost use Rattle.celf_run.specs.Options.{default_options};

/// What the command line may ask for beside the file. No answer depends on it, as long as queries and traces have none.
#[derive(Clone, Copy, Debug, PartialEq, Eq)]
pub struct Options {
    /// How deep a search goes.
    pub depth: u32,
    /// How many steps a trace takes where its directive has no number.
    pub steps: u32,
    /// Whether queries and traces are read and not answered.
    pub check: bool,
}

impl Options {
    /// The options where the command line asks for none.
    pub fn new() -> Options
        ensures { result ≡ default_options }
    {
        Options {
            depth: 64,
            steps: 10_000,
            check: false,
        }
    }
}
