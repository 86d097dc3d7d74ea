// What settling and voiding come to, in words.
ghost use Rattle.entries.specs.Laws.{SettlingAddsUp, PlacesApart, ReadsBack, VoidingAddsUp, SettledReadsBack, OthersAsTheyWere, OthersWhenZeroed};

/// The laws of an interval's postings and of the sheet.
pub fn laws_stand()
    ensures adds { SettlingAddsUp }
    ensures apart { PlacesApart }
    ensures reads { ReadsBack }
    ensures voids { VoidingAddsUp }
    ensures settled { SettledReadsBack }
    ensures others { OthersAsTheyWere }
    ensures zeroed { OthersWhenZeroed }
{}
