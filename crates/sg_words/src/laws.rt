//! A law of the command words. The function does nothing: what it ensures is the law.
ghost use Rattle.sg_words.specs.Laws.{CommandsHaveWords};

/// Each command has a form in the table, and words of that form ask for it.
pub fn commands_have_words_law()
    ensures { CommandsHaveWords }
{}
