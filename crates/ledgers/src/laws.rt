// What the table and the joined ledger mean, in words.
ghost use Rattle.ledgers.specs.Laws.{RunLeads, RunLongest, ChecksExactly, PostsOnly, RecordsStay, JoinFinds, JoinSums, HalvesStay};

/// The laws of the table and of the joined ledger.
pub fn laws_stand()
    ensures leads { RunLeads }
    ensures longest { RunLongest }
    ensures checks { ChecksExactly }
    ensures only { PostsOnly }
    ensures records { RecordsStay }
    ensures finds { JoinFinds }
    ensures sums { JoinSums }
    ensures halves { HalvesStay }
{}
