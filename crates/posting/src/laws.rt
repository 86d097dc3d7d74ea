// All or none, in words, over the model of any ledger.
ghost use Rattle.posting.specs.Laws.{Foremost, MovesByAmounts, UndoneAll};

/// The laws of posting all or none.
pub fn laws_stand()
    ensures foremost { Foremost }
    ensures moves { MovesByAmounts }
    ensures undone { UndoneAll }
{}
