//! The first broken rule.
ghost use Rattle.std.specs.Prelude.{◌≡◌};
ghost use Rattle.toml.specs.View.{table_view};
ghost use Rattle.tp_machine_text.specs.Broken.{first_broken};

use crate::machine_slips::first_slip;
use toml::Table;

/// The number of the first rule that the table breaks: the rule of its first slip.
pub fn first_broken(table: &Table) -> Option<u8>
    ensures { result ≡ first_broken (table_view table.now) }
{
    match first_slip(table) {
        Some(slip) => Some(slip.rule),
        None => None,
    }
}
