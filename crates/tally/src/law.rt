// The law over runs, with no link at hand.
ghost use Rattle.tally.specs.Runs.{EveryRun};

pub fn law_stands()
    ensures { EveryRun }
{}
