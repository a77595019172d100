// What holds of every line that is sent: each function stands for the law that it ensures.
ghost use Rattle.command.specs.Laws.{LinesWhole, LinesBack, LinesShort, EscapeBack, VerbsBack};

pub fn lines_are_whole()
    ensures { LinesWhole }
{}

pub fn lines_read_back()
    ensures { LinesBack }
{}

pub fn lines_are_short()
    ensures { LinesShort }
{}

pub fn escaping_reads_back()
    ensures { EscapeBack }
{}

pub fn texts_tell_their_verbs()
    ensures { VerbsBack }
{}
