/// How a call ends. The numbers are the program's exit statuses, from 0 in the order of the
/// variants.
#[derive(Clone, Copy, Debug, PartialEq, Eq)]
pub enum Exit {
    /// The reply was written: a program or a certificate is accepted, or a replay ran to the end of
    /// its schedule.
    Done,
    /// The program was refused, and its breaches were written.
    Breached,
    /// The words have no form.
    Usage,
    /// A file couldn't be read. Nothing was written.
    NotRead,
    /// A file is above its limit. Nothing was written.
    TooLong,
    /// A write failed. A prefix of the reply was written.
    NotWritten,
    /// Memory ran out. Nothing was written.
    Memory,
    /// The replay trapped.
    Trapped,
    /// The schedule's text is wrong.
    BadSchedule,
    /// The replay met a race.
    Raced,
    /// The certificate isn't accepted.
    BadCertificate,
    /// The program's certificate has more bytes than a certificate may have.
    LongCertificate,
    /// The schedule makes more jobs than are put in order.
    ManyJobs,
    /// The replay made two accesses that nothing orders.
    Unordered,
}

impl Exit {
    ghost use Rattle.std.specs.Prelude.{◌≡◌};
    ghost use Rattle.sw_check_parts.specs.Exit.{status_of};

    /// The exit status of the program.
    pub fn status(self) -> u8
        ensures { result ≡ status_of self }
    {
        self as u8
    }
}
