//! The laws of snapshots. The calls do nothing: their contracts are the laws.
ghost use Rattle.tp_snapshot.specs.Laws.{OneIsRead, OneIsTold, OneVerdict, SnapshotIsSound, WrittenIsRead, WrittenIsTold};

/// What is written for a sound standing tells that standing, and bytes tell one standing of a machine at most. So what is written
/// is read back as an equal standing.
pub fn standings_are_read_back()
    ensures told { WrittenIsTold }
    ensures one { OneIsTold }
{}

/// What is written for a sound standing is a snapshot of the machine and that standing, bytes are a snapshot of one machine and one
/// standing at most, and such a standing is sound. So what is written can be read back as an equal machine and standing alone. And
/// bytes are either a snapshot, or no JSON, or break one rule first.
pub fn snapshots_are_read_back()
    ensures read { WrittenIsRead }
    ensures sound { SnapshotIsSound }
    ensures one { OneIsRead }
    ensures verdict { OneVerdict }
{}
