use sw_decls::AsyncDefault;

/// What is done with the program in a file. Names are lent from the words.
#[derive(Clone, Copy)]
pub enum Action<'a> {
    /// Show its breaches, in colours or without.
    Breaches { color: bool },
    /// Replay it by a schedule, and tell what each item did.
    Steps { schedule_file: &'a str },
    /// Look for a schedule under which it races, by the chance of a seed, which may be any text.
    Find { seed: &'a str },
    /// Draw its replay by a schedule, alone or in a page with the program.
    Draw { schedule_file: &'a str, page: bool },
}

/// What the words ask for.
#[derive(Clone, Copy)]
pub enum Command<'a> {
    /// The program in a file, under a default for asynchronous functions.
    OnFile {
        default: AsyncDefault,
        file: &'a str,
        action: Action<'a>,
    },
}
