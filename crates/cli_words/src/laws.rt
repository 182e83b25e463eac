//! What the language of the command line comes to, as contracts of functions that do nothing.

ghost use Rattle.cli_words.specs.Laws.{OnlyLines, OnlySeals, OptionsInAnyOrder};

/// The options of a command are read as its settings in whatever order they stand.
pub fn options_in_any_order()
    ensures { OptionsInAnyOrder }
{}

/// Words that are read are those of a command and its options, each as often as the command takes it, and no more.
pub fn only_lines()
    ensures { OnlyLines }
{}

/// The words of a seal are `seal` and the option `--blocks` with a value, and no more.
pub fn only_seals()
    ensures { OnlySeals }
{}
