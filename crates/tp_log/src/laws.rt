//! What holds of all logs. The calls do nothing: their contracts are the laws.
ghost use Rattle.std.specs.Prelude.{◌≡◌, List};
ghost use Rattle.tp_log.specs.declared.item.Item.{Item};
ghost use Rattle.tp_log.specs.declared.log_line.LogLine.{LogLine};
ghost use Rattle.tp_log.specs.LogLines.{IsLogLine, log_line_text};
ghost use Rattle.tp_log.specs.Logs.{IsLog, log_text};

/// No line is that of two.
pub fn one_log_line()
    ensures { (told other : LogLine) → IsLogLine told → IsLogLine other
        → log_line_text told ≡ log_line_text other → told ≡ other }
{}

/// No text is that of two logs.
pub fn one_log()
    ensures { (items others : List Item) → IsLog items → IsLog others → log_text items
        ≡ log_text others → items ≡ others }
{}
