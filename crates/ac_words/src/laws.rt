ghost use Rattle.ac_words.specs.Grammar.{WordsMeanOneThing};

/// No words have two meanings.
pub fn words_mean_one_thing()
    ensures { WordsMeanOneThing }
{}
