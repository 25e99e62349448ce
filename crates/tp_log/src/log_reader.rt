//! A whole log.
ghost use Rattle.std.specs.Prelude.{◌≡◌, ◌+◌, ◌<◌, ◌^◌, List, All, length, IfOk, IfErr, MatchResult};
ghost use Rattle.tp_words.specs.Texts.{lines_of};
ghost use Rattle.tp_log.specs.declared.fault.LogFault.TheVariants.{Memory};
ghost use Rattle.tp_log.specs.declared.item.Item.{Item};
ghost use Rattle.tp_log.specs.Logs.{IsLog, log_text, IsFirstOff, IfBad};

use crate::fault::LogFault;
use crate::gathered::Gathered;
use crate::item::Item;
use crate::log_line::read_log_line;
use std::alloc::Global;
use tp_script::LineFault;
use tp_words::first_line;

/// The events, records and trees of a log, in order. `Bad` tells the first line that is off the
/// grammar, counted from 1.
pub fn read_log(alloc: Global, text: &[u8]) -> Result<Vec<Item>, LogFault>
    requires { All (λ line. length line + 1 < 2 ^ 32) (lines_of text.now) }
    ensures read { IfOk result (λ log. IsLog log.items × (text.now ≡ log_text log.items)) }
    ensures bad { IfErr result (λ fault. IfBad fault (λ n. IsFirstOff n text.now)) }

    // A printed log is read back.
    ensures printed { (items : List Item) → IsLog items → text.now ≡ log_text items
        → MatchResult result (λ log. log.items ≡ items) (λ fault. fault ≡ Memory) }
{
    let mut gathered = Gathered::new(alloc);
    let mut rest = text;
    let mut number: u64 = 0;
    'lines: while !rest.is_empty() {
        number += 1;
        let (line, more) = first_line(rest);
        match read_log_line(alloc, line) {
            Err(LineFault::Memory) => return Err(LogFault::Memory),
            Err(LineFault::Syntax) => return Err(LogFault::Bad(number)),
            Ok(told) => {
                if !gathered.add(told)? {
                    return Err(LogFault::Bad(number));
                }
            }
        }
        rest = more;
    }
    Ok(gathered.finish()?)
}
