//! The machines of the rows, as the files of machines/ have them.

use std::alloc::Global;
use std::test::Fail;
use tp_machine::Machine;
use tp_machine_text::read_machine;

/// The machine of a text. All rows read their machines here.
pub fn machine_of(alloc: Global, text: &[u8]) -> Result<Machine, Fail> {
    match read_machine(alloc, text) {
        Ok(machine) => Ok(machine),
        Err(_) => Err(Fail::from("a machine of the rows is refused")),
    }
}

pub const DUO: &str = r#"format = 1
lead = 2
window = 200
locations = ["f", "a", "b", "t", "p"]
modules = ["FEED", "ENG1", "ENG2", "OUT", "DUMP"]
trays = ["t"]
purge = ["p"]

[feeders]
f = "plain"

[resources]
rf = "FEED"
r1 = "ENG1"
r2 = "ENG2"
rt = "OUT"

[[actions]]
name = "feed"
module = "FEED"
from = "f"
to = "a"
least = 2
most = 4
holds = [{ resource = "rf", begin = ["start", 0], end = ["start", 2] }]

[[actions]]
name = "print1"
module = "ENG1"
from = "a"
to = "b"
least = 9
most = 12
prints = ["mono", "colour"]
holds = [{ resource = "r1", begin = ["start", 0], end = ["end", 0] }]

[[actions]]
name = "print2"
module = "ENG2"
from = "a"
to = "b"
least = 6
most = 8
prints = ["mono"]
holds = [{ resource = "r2", begin = ["start", 0], end = ["end", 0] }]

[[actions]]
name = "out"
module = "OUT"
from = "b"
to = "t"
least = 3
most = 30
holds = [{ resource = "rt", begin = ["end", -1], end = ["end", 0] }]

[[actions]]
name = "dump"
module = "DUMP"
from = "b"
to = "p"
least = 3
most = 3
"#;

pub const LINE: &str = r#"format = 1
lead = 2
window = 2000
locations = ["f", "a", "b", "t", "p"]
modules = ["FEED", "ENG2", "OUT", "DUMP"]
trays = ["t"]
purge = ["p"]

[feeders]
f = "plain"

[resources]
rf = "FEED"
r2 = "ENG2"
rt = "OUT"

[[actions]]
name = "feed"
module = "FEED"
from = "f"
to = "a"
least = 2
most = 4
holds = [{ resource = "rf", begin = ["start", 0], end = ["start", 2] }]

[[actions]]
name = "print2"
module = "ENG2"
from = "a"
to = "b"
least = 6
most = 8
prints = ["mono"]
holds = [{ resource = "r2", begin = ["start", 0], end = ["end", 0] }]

[[actions]]
name = "out"
module = "OUT"
from = "b"
to = "t"
least = 3
most = 30
holds = [{ resource = "rt", begin = ["end", -1], end = ["end", 0] }]

[[actions]]
name = "dump"
module = "DUMP"
from = "b"
to = "p"
least = 3
most = 3
"#;

/// LINE with a second colour on its engine. A changeover takes 4 ticks.
pub const GAP: &str = r#"format = 2
lead = 2
window = 200
locations = ["f", "a", "b", "t", "p"]
modules = ["FEED", "ENG2", "OUT", "DUMP"]
trays = ["t"]
purge = ["p"]

[feeders]
f = "plain"

[gaps]
r2 = 4

[resources]
rf = "FEED"
r2 = "ENG2"
rt = "OUT"

[[actions]]
name = "feed"
module = "FEED"
from = "f"
to = "a"
least = 2
most = 4
holds = [{ resource = "rf", begin = ["start", 0], end = ["start", 2] }]

[[actions]]
name = "print2"
module = "ENG2"
from = "a"
to = "b"
least = 6
most = 8
prints = ["mono"]
holds = [{ resource = "r2", begin = ["start", 0], end = ["end", 0] }]

[[actions]]
name = "tint"
module = "ENG2"
from = "a"
to = "b"
least = 6
most = 8
prints = ["colour"]
holds = [{ resource = "r2", begin = ["start", 0], end = ["end", 0], mode = 1 }]

[[actions]]
name = "out"
module = "OUT"
from = "b"
to = "t"
least = 3
most = 30
holds = [{ resource = "rt", begin = ["end", -1], end = ["end", 0] }]

[[actions]]
name = "dump"
module = "DUMP"
from = "b"
to = "p"
least = 3
most = 3
"#;

pub const TWIN: &str = r#"format = 1
lead = 2
window = 200
locations = ["f", "a", "t"]
modules = ["FEED", "L", "R"]
trays = ["t"]

[feeders]
f = "plain"

[resources]
rf = "FEED"
rr = "R"

[[actions]]
name = "feed"
module = "FEED"
from = "f"
to = "a"
least = 2
most = 2
holds = [{ resource = "rf", begin = ["start", 0], end = ["end", 0] }]

[[actions]]
name = "left"
module = "L"
from = "a"
to = "t"
least = 8
most = 8

[[actions]]
name = "right"
module = "R"
from = "a"
to = "t"
least = 5
most = 20
holds = [{ resource = "rr", begin = ["start", 0], end = ["end", 0] }]
"#;

pub const TAIL: &str = r#"format = 1
lead = 2
window = 15
locations = ["f", "a", "t"]
modules = ["FEED", "OUT"]
trays = ["t"]

[feeders]
f = "plain"

[resources]
rf = "FEED"
rt = "OUT"

[[actions]]
name = "feed"
module = "FEED"
from = "f"
to = "a"
least = 2
most = 2
holds = [{ resource = "rf", begin = ["start", 0], end = ["end", 5] }]

[[actions]]
name = "out"
module = "OUT"
from = "a"
to = "t"
least = 3
most = 3
holds = [{ resource = "rt", begin = ["end", -1], end = ["end", 0] }]
"#;

pub const LOOP: &str = r#"format = 1
lead = 2
window = 200
locations = ["f", "a", "t"]
modules = ["FEED", "ENG", "TURN", "OUT"]
trays = ["t"]

[feeders]
f = "plain"

[resources]
rf = "FEED"
rp = "ENG"
rt = "OUT"

[[actions]]
name = "feed"
module = "FEED"
from = "f"
to = "a"
least = 2
most = 2
holds = [{ resource = "rf", begin = ["start", 0], end = ["end", 0] }]

[[actions]]
name = "print"
module = "ENG"
from = "a"
to = "a"
least = 2
most = 2
prints = ["mono"]
flip = true
holds = [{ resource = "rp", begin = ["start", 0], end = ["end", 4] }]

[[actions]]
name = "turn"
module = "TURN"
from = "a"
to = "a"
least = 4
most = 4

[[actions]]
name = "out"
module = "OUT"
from = "a"
to = "t"
least = 3
most = 3
holds = [{ resource = "rt", begin = ["end", -1], end = ["end", 0] }]
"#;
