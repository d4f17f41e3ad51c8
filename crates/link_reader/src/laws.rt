//! What the readers of a party come to.
ghost use Rattle.std.specs.Prelude.{◌≡◌, ℕ, length};
ghost use Rattle.node_talk.specs.Talks.{Node, IsPeer};
ghost use Rattle.link_reader.specs.NodeReaders.{TellsCause, ReadsARun, TalksThrough, BreaksOff};

/// A reader's fault is a cause of the end of the party's run.
pub fn a_reader_tells_its_cause()
    ensures { (n : Node) (q : ℕ) → length n.digest ≡ 32 → IsPeer n q → TellsCause n q }
{}

/// What a reader pushed is a run in the bytes of its inlet.
pub fn a_reader_reads_a_run()
    ensures { (n : Node) (q : ℕ) → ReadsARun n q }
{}

/// A party whose readers read all that is expected talked its talk through.
pub fn readers_talk_through()
    ensures { (n : Node) → TalksThrough n }
{}

/// A party that stopped before its end, while its readers read, broke its talk off.
pub fn readers_break_off()
    ensures { (n : Node) → length n.digest ≡ 32 → BreaksOff n }
{}
