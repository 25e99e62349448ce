//! What a log tells of an event.
use tp_base::{Items, Name, Tick};

/// A copy by the name of its job.
#[derive(Clone, Copy, PartialEq, Eq, Debug)]
pub struct SheetName {
    pub job: Name,
    pub number: u32,
    pub copy: u32,
}

/// Why an event is refused: its line is off the grammar, or it names an unknown tray or media, a job name that was taken,
/// a module that is unknown, out or not out, or a feeder that is unknown, endless or would hold too much; too many copies
/// would wait; or the clock would go back or too far.
#[derive(Clone, Copy, PartialEq, Eq)]
pub enum Cause {
    Syntax,
    Tray(Name),
    Media(Name),
    Named(Name),
    Waiting,
    /// The moment that it is.
    Back(Tick),
    End,
    Module(Name),
    Out(Name),
    NotOn(Name),
    Feeder(Name),
    Endless(Name),
    Stock(Name),
}

/// What a log tells of an event.
#[derive(Drop)]
pub enum Record {
    /// A plan. Of a copy in flight it has the new actions alone, and the first point is the end of its front.
    Plan {
        sheet: SheetName,
        place: Name,
        points: Items<Tick>,
        acts: Items<Name>,
    },
    /// All points of another plan that changed.
    Move {
        sheet: SheetName,
        points: Items<Tick>,
    },
    /// No alternative exists. A goal without a name is a purge, here and in `Budget`.
    Never {
        sheet: SheetName,
        goal: Option<Name>,
    },
    /// The budget was spent; no alternative ends before the bound.
    Budget {
        sheet: SheetName,
        goal: Option<Name>,
        bound: Tick,
    },
    /// As many copies are live as may be.
    FullUp {
        sheet: SheetName,
    },
    /// An action is released. Its number counts from 1.
    Release {
        sheet: SheetName,
        act: u32,
        name: Name,
        start: Tick,
        end: Tick,
    },
    /// A plan has ended.
    Done {
        sheet: SheetName,
        place: Name,
        at: Tick,
    },
    /// A copy was lost with its running action.
    Lost {
        sheet: SheetName,
    },
    /// A released action that had not started is taken back.
    Recall {
        sheet: SheetName,
        act: u32,
    },
    /// The plan of an unstarted copy goes, and the copy waits again.
    Withdraw {
        sheet: SheetName,
    },
    /// The plan of a copy in flight becomes the front that ends with its running action.
    Cut {
        sheet: SheetName,
    },
    /// A copy gives its tray up.
    Purge {
        sheet: SheetName,
    },
    /// A new copy of a sheet waits.
    Again {
        sheet: SheetName,
    },
    /// A copy has no way on, and the module of its running action jams.
    Stuck {
        sheet: SheetName,
        module: Name,
    },
    Broken {
        job: Name,
    },
    /// A copy of a broken job is gone.
    Drop {
        sheet: SheetName,
    },
    Refused {
        cause: Cause,
    },
}
