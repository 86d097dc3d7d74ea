// The law over runs, in words.
ghost use Rattle.runs.specs.Runs.{LawOverRuns};

/// From where a paper passed and nothing is settled, every run of the settling calls keeps the law.
pub fn law_stands()
    ensures { LawOverRuns }
{}
