// The laws of posting, which hold of every ledger.
ghost use Rattle.ledger.specs.Laws.{AnswersExactly, StaysLawful, RefusedUnmoved, OthersStay, MovesTotal, ComesBack};

/// The laws of posting, over the model of any ledger.
pub fn laws_stand()
    ensures exact { AnswersExactly }
    ensures lawful { StaysLawful }
    ensures refused { RefusedUnmoved }
    ensures others { OthersStay }
    ensures moves { MovesTotal }
    ensures returns { ComesBack }
{}
