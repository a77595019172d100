// What is proved of the grammar of replies itself. The functions do nothing: their contracts are the facts.
ghost use Rattle.reply.specs.Grammar.{OneReading};
ghost use Rattle.reply.specs.Samples.{Samples};

// At most one beginning of some bytes is a reply.
pub fn one_reading()
    ensures { OneReading }
{}

// Some replies and what is read of them.
pub fn samples()
    ensures { Samples }
{}
