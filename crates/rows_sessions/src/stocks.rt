//! Random scripts with refills on a machine with a small stock. What a session says is left at the feeder is what its stock, the
//! accepted refills and the copies that the log tells of come to.

use crate::random_machines::Dice;
use crate::sessions::{session_on, take_line};
use rows_machine::machines::DUO;
use std::alloc::Global;
use std::test::Fail;
use tp_machine::LocId;
use tp_session::Session;
use tp_words::{parts, put_number, words};

const STOCK: u32 = 2;

const OUTAGES: [&str; 8] = [
    "jam ENG1", "jam ENG2", "off ENG2", "off OUT", "on ENG1", "on ENG2", "on OUT", "on ENG2",
];

/// The copies whose sheet was taken and not given back, and how many sheets were refilled.
#[derive(Drop)]
struct Count {
    copies: Vec<Vec<u8>>,
    refilled: u32,
}

impl Count {
    fn new(alloc: Global) -> Count {
        Count {
            copies: Vec::new(alloc),
            refilled: 0,
        }
    }

    /// A copy that is planned has a sheet, and one that is withdrawn or dropped none.
    fn read_line(&mut self, alloc: Global, line: &[u8]) -> Result<(), Fail> {
        let words = words(alloc, line)?;
        let [verb, copy, ..] = words.as_slice() else {
            return Ok(());
        };
        let verb = *verb;
        let copy = *copy;
        if verb == b"plan".as_slice() {
            return self.take(alloc, copy);
        }
        if verb == b"withdraw".as_slice() || verb == b"drop".as_slice() {
            self.give_back(copy);
        }
        Ok(())
    }

    fn take(&mut self, alloc: Global, copy: &[u8]) -> Result<(), Fail> {
        if !self.copies.iter().any(|one| one.as_slice() == copy) {
            self.copies.push(copy.to_vec(alloc)?)?;
        }
        Ok(())
    }

    fn give_back(&mut self, copy: &[u8]) {
        self.copies.retain(|one| one.as_slice() != copy);
    }

    fn read(&mut self, alloc: Global, text: &[u8]) -> Result<(), Fail> {
        for line in parts(alloc, text, b'\n')? {
            self.read_line(alloc, line)?;
        }
        Ok(())
    }

    /// Whether so many sheets are left.
    fn leaves(&self, left: u32) -> bool {
        let taken = self.copies.len() as u64;
        u64::from(left).saturating_add(taken) == u64::from(STOCK.saturating_add(self.refilled))
    }
}

/// How many events were taken and how many of them were refused, how many sheets were refilled, and how often what was left
/// was as counted and how often it was nothing.
#[derive(Clone, Copy, Default, Debug)]
struct StocksSeen {
    events: u32,
    refused: u32,
    refilled: u32,
    right: u32,
    empty: u32,
}

impl StocksSeen {
    fn look(&mut self, left: u32, count: &Count) {
        self.events = self.events.saturating_add(1);
        if count.leaves(left) {
            self.right = self.right.saturating_add(1);
        }
        if left == 0 {
            self.empty = self.empty.saturating_add(1);
        }
    }

    /// An event that would refill so many sheets was taken, and these are its records.
    fn read(
        &mut self,
        alloc: Global,
        count: &mut Count,
        sheets: u32,
        text: &[u8],
    ) -> Result<(), Fail> {
        count.read(alloc, text)?;
        if is_refused(text) {
            self.refused = self.refused.saturating_add(1);
        } else {
            self.refilled = self.refilled.saturating_add(sheets);
            count.refilled = count.refilled.saturating_add(sheets);
        }
        Ok(())
    }
}

fn is_refused(text: &[u8]) -> bool {
    text.windows(8).any(|part| part == b"refused ".as_slice())
}

/// Appends a word and a number.
fn put_event(line: &mut Vec<u8>, verb: &str, number: u32) -> Result<(), Fail> {
    line.extend_from_slice(verb.as_bytes())?;
    put_number(line, number)?;
    Ok(())
}

/// Appends a line at random, and gives how many sheets it would refill.
fn next_line(dice: &mut Dice, now: u32, line: &mut Vec<u8>) -> Result<u32, Fail> {
    match dice.between(0, 9) {
        0..=2 => dice.fill("job j?09?09 t plain ?14*M-:F", line)?,
        3..=4 => {
            let sheets = u32::from(dice.between(0, 3));
            put_event(line, "refill f ", sheets)?;
            return Ok(sheets);
        }
        5..=7 => {
            let later = u32::from(dice.between(1, 9));
            put_event(line, "clock ", now.saturating_add(later))?;
        }
        _ => line.extend_from_slice(OUTAGES[usize::from(dice.between(0, 7)) % 8].as_bytes())?,
    }
    Ok(0)
}

/// Takes a line at random, and looks at what is left.
fn step(
    alloc: Global,
    session: &mut Session,
    dice: &mut Dice,
    count: &mut Count,
    seen: &mut StocksSeen,
) -> Result<(), Fail> {
    let mut line = Vec::new(alloc);
    let sheets = next_line(dice, session.now(), &mut line)?;
    take_line(alloc, session, line.as_slice())?;
    seen.read(alloc, count, sheets, session.text())?;
    session.clear_text();
    if let Some(left) = session.stock(LocId(0)) {
        seen.look(left, count);
    }
    Ok(())
}

/// Takes 60 lines of the script of this number.
fn watch(
    alloc: Global,
    session: &mut Session,
    number: u64,
    seen: &mut StocksSeen,
) -> Result<(), Fail> {
    let mut dice = Dice::new(number);
    let mut count = Count::new(alloc);
    for _ in 0..60 {
        step(alloc, session, &mut dice, &mut count, seen)?;
    }
    Ok(())
}

fn stocked(alloc: Global) -> Result<String, Fail> {
    let Some((before, after)) = DUO.split_once("format = 1\n") else {
        return Err(Fail::from("the machine is not of format 1"));
    };
    Ok(format!(in alloc; "{before}format = 2\n{after}\n[stock]\nf = {STOCK}\n")?)
}

/// Runs a session on the machine with a stock.
fn run(alloc: Global, number: u64, seen: &mut StocksSeen) -> Result<(), Fail> {
    let text = stocked(alloc)?;
    let mut session = session_on(alloc, text.as_bytes(), None)?;
    let watched = watch(alloc, &mut session, number, seen);
    drop(session);
    watched
}

#[test]
fn stocks_of_random_scripts(rt: HostRuntime) -> Result<(), Fail> {
    let mut seen = StocksSeen::default();
    for number in 0..8 {
        run(rt.alloc(), number, &mut seen)?;
    }
    assert!(rt; seen.events == 480);
    assert!(rt; seen.right == 480);
    assert!(rt;
        seen.refused > 50 && seen.refilled > 150 && seen.empty > 50,
        "{seen:?}"
    );
    Ok(())
}
