//! The words that records begin with.
ghost use Rattle.std.specs.Prelude.{◌≡◌};
ghost use Rattle.tp_log.specs.Headings.{heading_text, heading_of};

use tp_words::{Spelled, first_spelled};

/// The first word of a record's line.
#[derive(Clone, Copy, PartialEq, Eq, Debug)]
pub enum Heading {
    Plan,
    Move,
    Never,
    Budget,
    FullUp,
    Release,
    Done,
    Lost,
    Recall,
    Withdraw,
    Cut,
    Purge,
    Again,
    Stuck,
    Broken,
    Drop,
    Refused,
}

const HEADINGS: [Heading; 17] = [
    Heading::Plan,
    Heading::Move,
    Heading::Never,
    Heading::Budget,
    Heading::FullUp,
    Heading::Release,
    Heading::Done,
    Heading::Lost,
    Heading::Recall,
    Heading::Withdraw,
    Heading::Cut,
    Heading::Purge,
    Heading::Again,
    Heading::Stuck,
    Heading::Broken,
    Heading::Drop,
    Heading::Refused,
];

impl Spelled for Heading {
    ghost word = { heading_text };

    fn text(&self) -> &'static [u8] {
        match self {
            Heading::Plan => b"plan",
            Heading::Move => b"move",
            Heading::Never => b"none",
            Heading::Budget => b"budget",
            Heading::FullUp => b"full",
            Heading::Release => b"release",
            Heading::Done => b"done",
            Heading::Lost => b"lost",
            Heading::Recall => b"recall",
            Heading::Withdraw => b"withdraw",
            Heading::Cut => b"cut",
            Heading::Purge => b"purge",
            Heading::Again => b"again",
            Heading::Stuck => b"stuck",
            Heading::Broken => b"broken",
            Heading::Drop => b"drop",
            Heading::Refused => b"refused",
        }
    }
}

impl Heading {
    pub fn read(word: &[u8]) -> Option<Heading>
        ensures { result ≡ heading_of word.now }
    {
        first_spelled(&HEADINGS, word)
    }
}
