//! Where a text breaks a rule, and what is wrong there.
ghost use Rattle.std.specs.Prelude.{◌≡◌};
ghost use Rattle.tp_machine_text.specs.Slips.{key_text};

/// A key whose value a rule looks at.
#[derive(Clone, Copy)]
pub enum Key {
    Format,
    Lead,
    Window,
    Budget,
    Locations,
    Modules,
    Trays,
    Purge,
    Feeders,
    Resources,
    Actions,
    Gaps,
    Stock,
    Name,
    Module,
    From,
    To,
    Least,
    Most,
    Prints,
    Flip,
    Holds,
    Resource,
    Begin,
    End,
    Mode,
}

impl Key {
    /// The key as it stands in a text.
    pub fn text(self) -> &'static str
        ensures { result.now ≡ key_text self }
    {
        match self {
            Key::Format => "format",
            Key::Lead => "lead",
            Key::Window => "window",
            Key::Budget => "budget",
            Key::Locations => "locations",
            Key::Modules => "modules",
            Key::Trays => "trays",
            Key::Purge => "purge",
            Key::Feeders => "feeders",
            Key::Resources => "resources",
            Key::Actions => "actions",
            Key::Gaps => "gaps",
            Key::Stock => "stock",
            Key::Name => "name",
            Key::Module => "module",
            Key::From => "from",
            Key::To => "to",
            Key::Least => "least",
            Key::Most => "most",
            Key::Prints => "prints",
            Key::Flip => "flip",
            Key::Holds => "holds",
            Key::Resource => "resource",
            Key::Begin => "begin",
            Key::End => "end",
            Key::Mode => "mode",
        }
    }
}

/// What stands at fault in the text, an action or a hold. Numbers count from 0, those of keys in the order of bytes.
#[derive(Clone, Copy)]
pub enum Part {
    /// All of it.
    Whole,
    /// One of its keys.
    Key(usize),
    /// The value at a key, or its absence.
    Field(Key),
    /// A value of the array at a key.
    Item(Key, usize),
    /// A key of the table at a key.
    Entry(Key, usize),
    /// A value of the table at a key.
    Amount(Key, usize),
}

/// What a text should be, or should not be.
#[derive(Clone, Copy)]
pub enum Noun {
    TopKey,
    ActionKey,
    HoldKey,
    Name,
    Location,
    Module,
    Resource,
    Tray,
    PurgeTray,
    Feeder,
    /// A location that is no tray.
    PurgePlace,
    /// A location that is neither tray nor purge tray.
    FeederPlace,
    /// `mono` or `colour`.
    Kind,
}

/// What a rule wants of a value.
#[derive(Clone, Copy)]
pub enum Want {
    /// A text that is this.
    Is(Noun),
    /// No text that is this.
    IsNot(Noun),
    /// A whole number from the first to the second.
    Whole(i64, i64),
    /// An array of so many values, at least and at most.
    Items(usize, usize),
    /// An array of at least one value.
    SomeItems,
    /// A table of at most so many keys.
    Keys(usize),
    /// A table of at least one key.
    SomeKeys,
    Array,
    Table,
    TruthValue,
    /// An anchor with an offset.
    Point,
    /// A key that may stand in a text of format 2 alone.
    Second,
}

/// What is wrong.
#[derive(Clone, Copy)]
pub enum Wrong {
    /// The value is not what is wanted.
    Not(Want),
    /// The text stands again behind this place.
    Twice,
    /// `most` is less than `least`.
    BelowLeast,
    /// The hold may begin before its action starts.
    Early,
    /// The hold may end before it has begun.
    Empty,
}

/// A place that breaks a rule: the text's own, or that of the action and the hold of these numbers, counted from 0.
#[derive(Clone, Copy)]
pub struct Slip {
    pub rule: u8,
    pub action: Option<usize>,
    pub hold: Option<usize>,
    pub part: Part,
    pub wrong: Wrong,
}

/// The rules that look at actions one by one, 15 to 24.
#[derive(Clone, Copy)]
pub enum ActionRule {
    Keys,
    Name,
    Module,
    Ends,
    Way,
    Durations,
    Prints,
    Holds,
    Begins,
    Lengths,
}
