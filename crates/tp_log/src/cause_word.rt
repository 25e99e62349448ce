//! Why a job was refused, as one word.
ghost use Rattle.std.specs.Prelude.{◌≡◌};
ghost use Rattle.tp_log.specs.Headings.{reason_text, reason_of};

use tp_words::{Spelled, first_spelled};

/// The word for a cause, behind `refused`.
#[derive(Clone, Copy, PartialEq, Eq, Debug)]
pub enum CauseWord {
    Syntax,
    Tray,
    Media,
    Named,
    Waiting,
    Back,
    End,
    Module,
    Out,
    NotOn,
    Feeder,
    Endless,
    Stock,
}

const CAUSE_WORDS: [CauseWord; 13] = [
    CauseWord::Syntax,
    CauseWord::Tray,
    CauseWord::Media,
    CauseWord::Named,
    CauseWord::Waiting,
    CauseWord::Back,
    CauseWord::End,
    CauseWord::Module,
    CauseWord::Out,
    CauseWord::NotOn,
    CauseWord::Feeder,
    CauseWord::Endless,
    CauseWord::Stock,
];

impl Spelled for CauseWord {
    ghost word = { reason_text };

    fn text(&self) -> &'static [u8] {
        match self {
            CauseWord::Syntax => b"syntax",
            CauseWord::Tray => b"tray",
            CauseWord::Media => b"media",
            CauseWord::Named => b"named",
            CauseWord::Waiting => b"waiting",
            CauseWord::Back => b"back",
            CauseWord::End => b"end",
            CauseWord::Module => b"module",
            CauseWord::Out => b"out",
            CauseWord::NotOn => b"noton",
            CauseWord::Feeder => b"feeder",
            CauseWord::Endless => b"endless",
            CauseWord::Stock => b"stock",
        }
    }
}

impl CauseWord {
    pub fn read(word: &[u8]) -> Option<CauseWord>
        ensures { result ≡ reason_of word.now }
    {
        first_spelled(&CAUSE_WORDS, word)
    }
}
