ghost use Rattle.pte_forms.specs.Word.{WordsAreApart};

/// Two entries with one word are the same entry.
pub fn words_are_apart()
    ensures { WordsAreApart }
{}
