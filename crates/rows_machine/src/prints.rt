//! What is printed for a machine, and read back.
use crate::machines::{DUO, GAP, LINE, LOOP, TAIL, TWIN, machine_of};
use std::alloc::Global;
use std::test::Fail;
use tp_machine_text::print_machine;

/// The text that is printed for the machine of a text.
fn printed(alloc: Global, text: &[u8]) -> Result<Vec<u8>, Fail> {
    let machine = machine_of(alloc, text)?;
    let printed = print_machine(alloc, &machine);
    drop(machine);
    Ok(printed.ok().ok_or("memory")?)
}

#[test]
fn machines_of_the_rows(rt: HostRuntime) -> Result<(), Fail> {
    for text in [DUO, LINE, GAP, TWIN, TAIL, LOOP] {
        let once = printed(rt.alloc(), text.as_bytes())?;
        let twice = printed(rt.alloc(), once.as_slice())?;
        assert_eq!(rt; twice.as_slice(), once.as_slice(), "{text}");
    }
    Ok(())
}

#[test]
fn line_ends_and_comments(rt: HostRuntime) -> Result<(), Fail> {
    let mut text = String::new(rt.alloc());
    for line in DUO.lines() {
        text.push_str(line)?;
        text.push_str(" # a comment\r\n")?;
    }
    let noted = printed(rt.alloc(), text.as_str().as_bytes())?;
    let plain = printed(rt.alloc(), DUO.as_bytes())?;
    assert!(rt; noted.as_slice() == plain.as_slice());
    Ok(())
}

const PRINTED_TAIL: &str = r#"budget = 20000
format = 2
lead = 2
locations = ["f", "a", "t"]
modules = ["FEED", "OUT"]
purge = []
trays = ["t"]
window = 15

[[actions]]
flip = false
from = "f"
least = 2
module = "FEED"
most = 2
name = "feed"
prints = []
to = "a"

[[actions.holds]]
begin = ["start", 0]
end = ["end", 5]
mode = 0
resource = "rf"

[[actions]]
flip = false
from = "a"
least = 3
module = "OUT"
most = 3
name = "out"
prints = []
to = "t"

[[actions.holds]]
begin = ["end", -1]
end = ["end", 0]
mode = 0
resource = "rt"

[feeders]
f = "plain"

[gaps]
rf = 0
rt = 0

[resources]
rf = "FEED"
rt = "OUT"

[stock]
"#;

#[test]
fn one_text_whole(rt: HostRuntime) -> Result<(), Fail> {
    let text = printed(rt.alloc(), crate::machines::TAIL.as_bytes())?;
    assert!(rt; std::str::from_utf8(text.as_slice()).ok() == Some(PRINTED_TAIL));
    Ok(())
}
