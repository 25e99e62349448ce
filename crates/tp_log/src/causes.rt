//! Why an event is refused, read and written.
ghost use Rattle.std.specs.Prelude.{◌≡◌, ◌++◌, ◌∷◌, OnOk};
ghost use Rattle.std.specs.List.{flat_map};
ghost use Rattle.tp_words.specs.Parts.{shown};
ghost use Rattle.tp_log.specs.Records.{cause_words};
ghost use Rattle.tp_log.specs.RecordReaders.{bare_of, cause_after, cause_of};

use crate::cause_word::CauseWord;
use crate::fields::{only_name, only_number};
use tp_base::{Memory, Name};
use tp_schedule::Cause;
use tp_words::{put_number_word, put_word};

/// The cause, if no word follows.
#[tactic(auto, unfolding(crate::specs::RecordReaders::bare_of))]
fn bare(cause: Cause, words: &[&[u8]]) -> Option<Cause>
    ensures { result ≡ bare_of cause (shown words.now) }
{
    if words.is_empty() { Some(cause) } else { None }
}

#[tactic(auto, unfolding(crate::specs::RecordReaders::cause_after))]
fn read_after(reason: CauseWord, words: &[&[u8]]) -> Option<Cause>
    ensures { result ≡ cause_after reason (shown words.now) }
{
    match reason {
        CauseWord::Syntax => bare(Cause::Syntax, words),
        CauseWord::Tray => only_name(words).map(Cause::Tray),
        CauseWord::Media => only_name(words).map(Cause::Media),
        CauseWord::Named => only_name(words).map(Cause::Named),
        CauseWord::Waiting => bare(Cause::Waiting, words),
        CauseWord::Back => only_number(words).map(Cause::Back),
        CauseWord::End => bare(Cause::End, words),
        CauseWord::Module => only_name(words).map(Cause::Module),
        CauseWord::Out => only_name(words).map(Cause::Out),
        CauseWord::NotOn => only_name(words).map(Cause::NotOn),
        CauseWord::Feeder => only_name(words).map(Cause::Feeder),
        CauseWord::Endless => only_name(words).map(Cause::Endless),
        CauseWord::Stock => only_name(words).map(Cause::Stock),
    }
}

#[tactic(auto, unfolding(crate::specs::RecordReaders::cause_of))]
pub(crate) fn read_cause(words: &[&[u8]]) -> Option<Cause>
    ensures { result ≡ cause_of (shown words.now) }
{
    let [first, others @ ..] = words else {
        return None;
    };
    match CauseWord::read(first) {
        None => None,
        Some(reason) => read_after(reason, others),
    }
}

pub(crate) fn put_cause(out: &mut Vec<u8>, cause: &Cause) -> Result<(), Memory>
    ensures { OnOk result (out.new.items ≡ out.old.items
        ++ flat_map (λ word. 32 ∷ word) (cause_words cause.now)) }
{
    match cause {
        Cause::Syntax => put_word(out, b"syntax"),
        Cause::Tray(name) => put_cause_of(out, b"tray", name),
        Cause::Media(name) => put_cause_of(out, b"media", name),
        Cause::Named(name) => put_cause_of(out, b"named", name),
        Cause::Waiting => put_word(out, b"waiting"),
        Cause::Back(now) => {
            put_word(out, b"back")?;
            put_number_word(out, *now)
        }
        Cause::End => put_word(out, b"end"),
        Cause::Module(name) => put_cause_of(out, b"module", name),
        Cause::Out(name) => put_cause_of(out, b"out", name),
        Cause::NotOn(name) => put_cause_of(out, b"noton", name),
        Cause::Feeder(name) => put_cause_of(out, b"feeder", name),
        Cause::Endless(name) => put_cause_of(out, b"endless", name),
        Cause::Stock(name) => put_cause_of(out, b"stock", name),
    }
}

fn put_cause_of(out: &mut Vec<u8>, cause: &[u8], name: &Name) -> Result<(), Memory>
    ensures { OnOk result (out.new.items ≡
        (out.old.items ++ 32 ∷ cause.now) ++ 32 ∷ name.now) }
{
    put_word(out, cause)?;
    put_word(out, name.as_bytes())
}
