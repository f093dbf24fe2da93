//! What the words of a live run say.
ghost use Rattle.std.specs.Prelude.{◌≡◌};
ghost use Rattle.telegate.specs.Wishes.{nothing_said, said_by};

/// What the words of a live run say beside the name of its settings.
#[derive(Clone, Copy)]
pub(crate) struct RunWords<'m, 'a> {
    /// The name of the file of the site, if there is one.
    pub(crate) site: Option<&'a str>,
    /// A line that ends is reached again.
    pub(crate) redial: bool,
    /// What happens is logged.
    pub(crate) log: bool,
    /// Each line of that begins with how severe it is.
    pub(crate) log_severity: bool,
    /// It is recorded.
    pub(crate) record: bool,
    /// The name of the directory in which the state is kept, if it is.
    pub(crate) state: Option<&'a str>,
    /// The run stops if the state can't be kept.
    pub(crate) state_or_stop: bool,
    /// The addresses of the control centres that may connect, if not all may.
    pub(crate) allow: Option<&'m [&'a str]>,
    /// Where the run can be looked at, if it can.
    pub(crate) status: Option<&'a str>,
}

impl<'m, 'a> RunWords<'m, 'a> {
    /// Words that say nothing.
    pub(crate) fn none() -> RunWords<'m, 'a>
        ensures { said_by result ≡ nothing_said }
    {
        RunWords {
            site: None,
            redial: false,
            log: false,
            log_severity: false,
            record: false,
            state: None,
            state_or_stop: false,
            allow: None,
            status: None,
        }
    }
}
