//! What is wrong, in words.
use crate::slip::{Noun, Want, Wrong};
use std::fmt;

impl fmt::Display for Noun {
    ghost use Rattle.std.specs.Prelude.{Some};
    ghost use Rattle.tp_machine_text.specs.Phrases.{noun_text};

    ghost output = { λ noun. Some (noun_text noun) };

    fn fmt<W: fmt::Write>(&self, f: &mut fmt::Formatter<W>) -> fmt::Result {
        f.write_str(match *self {
            Noun::TopKey => "a key of a machine text",
            Noun::ActionKey => "a key of an action",
            Noun::HoldKey => "a key of a hold",
            Noun::Name => "a name of 1 to 32 letters, digits, _ or -",
            Noun::Location => "a location",
            Noun::Module => "a module",
            Noun::Resource => "a resource",
            Noun::Tray => "a tray",
            Noun::PurgeTray => "a purge tray",
            Noun::Feeder => "a feeder",
            Noun::PurgePlace => "a location apart from the trays",
            Noun::FeederPlace => "a location apart from the trays and purge trays",
            Noun::Kind => "mono or colour",
        })
    }
}

impl fmt::Display for Want {
    ghost use Rattle.std.specs.Prelude.{Some};
    ghost use Rattle.tp_machine_text.specs.Phrases.{want_text};

    ghost output = { λ want. Some (want_text want) };

    fn fmt<W: fmt::Write>(&self, f: &mut fmt::Formatter<W>) -> fmt::Result {
        match *self {
            Want::Is(noun) => write!(f, "is not {noun}"),
            Want::IsNot(noun) => write!(f, "is {noun}"),
            Want::Whole(low, high) => write!(f, "is not a whole number from {low} to {high}"),
            Want::Items(least, most) => { write!(f, "is not an array of {least} to {most} values") }
            Want::SomeItems => f.write_str("is not an array of at least one value"),
            Want::Keys(most) => write!(f, "is not a table of at most {most} keys"),
            Want::SomeKeys => f.write_str("is not a table of at least one key"),
            Want::Array => f.write_str("is not an array"),
            Want::Table => f.write_str("is not a table"),
            Want::TruthValue => f.write_str("is not true or false"),
            Want::Point => f.write_str(
                "is not start or end with a whole number from -8192 to 8192",
            ),
            Want::Second => f.write_str("needs format = 2"),
        }
    }
}

impl fmt::Display for Wrong {
    ghost use Rattle.std.specs.Prelude.{Some};
    ghost use Rattle.tp_machine_text.specs.Phrases.{wrong_text};

    ghost output = { λ wrong. Some (wrong_text wrong) };

    fn fmt<W: fmt::Write>(&self, f: &mut fmt::Formatter<W>) -> fmt::Result {
        match *self {
            Wrong::Not(want) => write!(f, "{want}"),
            Wrong::Twice => f.write_str("stands twice"),
            Wrong::BelowLeast => f.write_str("is less than least"),
            Wrong::Early => f.write_str("may begin before its action starts"),
            Wrong::Empty => f.write_str("may end before it has begun, or as it begins"),
        }
    }
}
