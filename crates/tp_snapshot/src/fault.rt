//! Why a text is no snapshot.

/// Why bytes are no snapshot.
#[derive(Clone, Copy, PartialEq, Eq, Debug)]
pub enum SnapFault {
    /// Memory ran out. It says nothing of the bytes.
    Memory,
    /// The bytes are no JSON.
    NotJson,
    /// The number of the first rule, from 1 to 10, that the bytes break.
    Rule(u8),
}
