// What holds of every carrier. The function does nothing: its contract is the fact.
ghost use Rattle.carrier.specs.Laws.{States};

// The law of the states, and of the answers over any run.
pub fn states_stand()
    ensures { States }
{}
