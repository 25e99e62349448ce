//! Small racks made at random, such that each comes to a machine, and their texts.

use std::alloc::Global;
use std::fmt;
use std::test::Fail;

/// A port of a part. No action leads to port 0 of its part, and none leads from port 2.
#[derive(Clone, Copy, PartialEq, Eq)]
pub(crate) struct PartPort {
    pub(crate) part: u32,
    pub(crate) port: u32,
}

impl fmt::Display for PartPort {
    fn fmt<W: fmt::Write>(&self, f: &mut fmt::Formatter<W>) -> fmt::Result {
        let PartPort { part, port } = *self;
        write!(f, "p{part}.q{port}")
    }
}

/// The END that feeds new sheets.
pub(crate) const FEEDER: PartPort = PartPort { part: 0, port: 0 };

/// An action of a type, from a port to a port.
#[derive(Clone, Copy)]
pub(crate) struct Deed {
    pub(crate) kind: u32,
    pub(crate) number: u32,
    pub(crate) from: u32,
    pub(crate) to: u32,
    pub(crate) mono: bool,
    pub(crate) flip: bool,
}

/// Two ENDs that are joined.
#[derive(Clone, Copy)]
pub(crate) struct Join {
    pub(crate) first: PartPort,
    pub(crate) second: PartPort,
}

/// Parts by their types, the actions of all types, joins and trays.
#[derive(Drop)]
pub(crate) struct Rack {
    pub(crate) kinds: u32,
    pub(crate) deeds: Vec<Deed>,
    pub(crate) parts: Vec<u32>,
    pub(crate) joins: Vec<Join>,
    pub(crate) trays: Vec<PartPort>,
}

fn is_joined(joins: &[Join], end: PartPort) -> bool {
    joins.iter().any(|j| j.first == end || j.second == end)
}

/// Whether this END would lead to the feeder or from the last part's tray, if it were joined there.
fn is_foul(end: PartPort, other: PartPort, last: PartPort) -> bool {
    (other == FEEDER && end.port != 0) || (other == last && end.port != 2)
}

fn may_join(joins: &[Join], first: PartPort, second: PartPort, last: PartPort) -> bool {
    first != second
        && !is_joined(joins, first)
        && !is_joined(joins, second)
        && !is_foul(first, second, last)
        && !is_foul(second, first, last)
}

/// Numbers that look random, each made from the one before.
#[derive(Clone, Copy)]
pub(crate) struct RackDraws(pub(crate) u64);

impl RackDraws {
    pub(crate) fn below(&mut self, sides: u32) -> u32 {
        self.0 = self
            .0
            .wrapping_mul(6_364_136_223_846_793_005)
            .wrapping_add(1_442_695_040_888_963_407);
        ((self.0 >> 33) as u32).checked_rem(sides).unwrap_or(0)
    }

    fn is_once_in(&mut self, sides: u32) -> bool {
        self.below(sides) == 0
    }

    fn deed(&mut self, kind: u32, number: u32) -> Deed {
        let from = if self.is_once_in(6) { 1 } else { 0 };
        let to = if self.is_once_in(6) { 1 } else { 2 };
        let mono = self.is_once_in(3);
        let flip = self.is_once_in(3);
        Deed {
            kind,
            number,
            from,
            to,
            mono,
            flip,
        }
    }

    /// One or two actions of each type.
    fn deeds(&mut self, alloc: Global, kinds: u32) -> Result<Vec<Deed>, Fail> {
        let mut deeds = Vec::new(alloc);
        for kind in 0..kinds {
            deeds.push(self.deed(kind, 0))?;
            if self.is_once_in(2) {
                deeds.push(self.deed(kind, 1))?;
            }
        }
        Ok(deeds)
    }

    fn parts(&mut self, alloc: Global, count: u32, kinds: u32) -> Result<Vec<u32>, Fail> {
        let mut parts = Vec::new(alloc);
        for _ in 0..count {
            parts.push(self.below(kinds))?;
        }
        Ok(parts)
    }

    fn end(&mut self, count: u32) -> PartPort {
        let part = self.below(count);
        let port = self.below(3);
        PartPort { part, port }
    }

    /// Joins the two ENDs, one of them first, where they may be joined.
    fn join(
        &mut self,
        joins: &mut Vec<Join>,
        one: PartPort,
        other: PartPort,
        last: PartPort,
    ) -> Result<(), Fail> {
        if !may_join(joins.as_slice(), one, other, last) {
            return Ok(());
        }
        let (first, second) = if self.is_once_in(2) {
            (one, other)
        } else {
            (other, one)
        };
        joins.push(Join { first, second })?;
        Ok(())
    }

    /// Most parts stand in a row, and some more ENDs are joined.
    fn joins(&mut self, alloc: Global, count: u32, last: PartPort) -> Result<Vec<Join>, Fail> {
        let mut joins = Vec::new(alloc);
        for part in 1..count {
            let before = PartPort {
                part: part - 1,
                port: 2,
            };
            if !self.is_once_in(8) {
                self.join(&mut joins, before, PartPort { part, port: 0 }, last)?;
            }
        }
        for _ in 0..4 {
            let one = self.end(count);
            let other = self.end(count);
            self.join(&mut joins, one, other, last)?;
        }
        Ok(joins)
    }

    /// The last part's tray, and some of the ports 2 that are not joined.
    fn trays(
        &mut self,
        alloc: Global,
        joins: &[Join],
        last: PartPort,
    ) -> Result<Vec<PartPort>, Fail> {
        let mut trays = Vec::new(alloc);
        trays.push(last)?;
        for part in 0..last.part {
            let end = PartPort { part, port: 2 };
            if !is_joined(joins, end) && self.is_once_in(2) {
                trays.push(end)?;
            }
        }
        Ok(trays)
    }

    /// A rack of two to four parts of at most three types.
    pub(crate) fn rack(&mut self, alloc: Global) -> Result<Rack, Fail> {
        let kinds = self.below(3).saturating_add(1);
        let before = self.below(3).saturating_add(1);
        let count = before.saturating_add(1);
        let last = PartPort {
            part: before,
            port: 2,
        };
        let deeds = self.deeds(alloc, kinds)?;
        let parts = self.parts(alloc, count, kinds)?;
        let joins = self.joins(alloc, count, last)?;
        let trays = self.trays(alloc, joins.as_slice(), last)?;
        Ok(Rack {
            kinds,
            deeds,
            parts,
            joins,
            trays,
        })
    }
}

fn put_deed(alloc: Global, deed: Deed, text: &mut String) -> Result<(), Fail> {
    let Deed {
        number,
        from,
        to,
        mono,
        flip,
        ..
    } = deed;
    let prints = if mono { r#"["mono"]"# } else { "[]" };
    let head = format!(in alloc; r#"{{ name = "d{number}", from = "q{from}", to = "q{to}", "#)?;
    text.push_str(head.as_str())?;
    let tail = format!(in alloc; "least = 1, most = 2, prints = {prints}, flip = {flip} }},\n")?;
    text.push_str(tail.as_str())?;
    Ok(())
}

/// The table of a type.
fn put_kind(alloc: Global, deeds: &[Deed], kind: u32, text: &mut String) -> Result<(), Fail> {
    let head = format!(in alloc;
        "[types.T{kind}]\nports = [\"q0\", \"q1\", \"q2\"]\nactions = [\n"
    )?;
    text.push_str(head.as_str())?;
    for deed in deeds {
        if deed.kind == kind {
            put_deed(alloc, *deed, text)?;
        }
    }
    text.push_str("]\n")?;
    Ok(())
}

fn put_joins(alloc: Global, joins: &[Join], text: &mut String) -> Result<(), Fail> {
    text.push_str("joins = [\n")?;
    for join in joins {
        let Join { first, second } = *join;
        let line = format!(in alloc; "[\"{first}\", \"{second}\"],\n")?;
        text.push_str(line.as_str())?;
    }
    text.push_str("]\n")?;
    Ok(())
}

fn put_trays(alloc: Global, trays: &[PartPort], text: &mut String) -> Result<(), Fail> {
    text.push_str("trays = [\n")?;
    for tray in trays {
        let line = format!(in alloc; "\"{tray}\",\n")?;
        text.push_str(line.as_str())?;
    }
    text.push_str("]\n")?;
    Ok(())
}

fn put_parts(alloc: Global, parts: &[u32], text: &mut String) -> Result<(), Fail> {
    text.push_str("[parts]\n")?;
    for (part, kind) in parts.iter().enumerate() {
        let line = format!(in alloc; "p{part} = \"T{kind}\"\n")?;
        text.push_str(line.as_str())?;
    }
    Ok(())
}

impl Rack {
    pub(crate) fn text(&self, alloc: Global) -> Result<String, Fail> {
        let mut text = String::from_str(alloc, "format = 1\n")?;
        put_joins(alloc, self.joins.as_slice(), &mut text)?;
        put_trays(alloc, self.trays.as_slice(), &mut text)?;
        let feeders = format!(in alloc; "[feeders]\n\"{FEEDER}\" = \"plain\"\n")?;
        text.push_str(feeders.as_str())?;
        put_parts(alloc, self.parts.as_slice(), &mut text)?;
        for kind in 0..self.kinds {
            put_kind(alloc, self.deeds.as_slice(), kind, &mut text)?;
        }
        Ok(text)
    }
}
