use sw_decls::AsyncDefault;

/// What is done with the program in a file. Names are lent from the words.
#[derive(Clone, Copy)]
pub enum Action<'a> {
    /// Is it accepted?
    Check,
    /// Is it accepted, and by which certificate?
    Certify,
    /// Is it accepted, by a certificate? Nothing is solved.
    Verify { certificate_file: &'a str },
    /// Run it, where it is accepted, by a schedule.
    Run { schedule_file: &'a str },
    /// Run it by a schedule, also where jobs of it may race.
    Trace { schedule_file: &'a str },
    /// Run it, where it is accepted, by a schedule, and say who owns its coloured cells.
    Owners { schedule_file: &'a str },
    /// Run it by a schedule, also where jobs of it may race, and look for accesses that nothing
    /// orders.
    Order { schedule_file: &'a str },
}

/// What the words ask for.
#[derive(Clone, Copy)]
pub enum Command<'a> {
    /// The program in a file, under a default for asynchronous functions.
    OnFile {
        default: AsyncDefault,
        file: &'a str,
        action: Action<'a>,
    },
    /// The program that is generated for a number of actors.
    Demo {
        actors: u32,
    },
}
