//! What the words of the command line ask for.

/// What is to be done: a script is run, with what stands at its end saved or going on from what was saved; a log is checked;
/// a made script is run and counted; a machine is composed of a rack; or a script is run on a farm of machines.
#[derive(Clone, Copy, Debug, PartialEq, Eq)]
pub enum Mode {
    Run,
    Save,
    Resume,
    Check,
    Soak,
    Compose,
    Farm,
}

/// What the words ask for.
#[derive(Clone, Copy, Debug, PartialEq, Eq)]
pub struct Request<'a> {
    pub mode: Mode,
    pub arg: &'a str,
    pub bounds: bool,
    pub budget: Option<u32>,
}

/// Why the words ask for nothing.
#[derive(Clone, Copy, Debug, PartialEq, Eq)]
pub enum WordsFault {
    Memory,
    Usage,
}
