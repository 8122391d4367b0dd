//! Laws over the definitions.

ghost use Rattle.script_lines.specs.Laws.{SomeWordsLaw, OneSpellingLaw, WordLaw, LineLaw, PortLineLaw, PortHeadLaw, GoodLineLaw, GoodPortLineLaw, BadLineLaw, BadPortLineLaw};

/// Each text spells one list of words, blanks apart, and these are the words that the reader finds.
#[tactic(auto, using(crate::proofs::SpellingLaws::of_words))]
pub fn laws_of_words()
    ensures spelled { SomeWordsLaw }
    ensures once { OneSpellingLaw }
    ensures found { WordLaw }
{}

/// Texts that spell the same words say the same line.
#[tactic(auto, using(crate::proofs::PortLineLaws::of_lines))]
pub fn laws_of_lines()
    ensures lines { LineLaw }
    ensures port_lines { PortLineLaw }
    ensures port_head { PortHeadLaw }
{}

/// A text says a line exactly where its words are the line's name and, one by one, what the line holds.
#[tactic(auto, using(crate::proofs::GoodPortLines::of_good_lines))]
pub fn laws_of_good_lines()
    ensures lines { GoodLineLaw }
    ensures port_lines { GoodPortLineLaw }
{}

/// What is wrong with a text is the first thing, from the left, that is wrong with its words; nothing is where it says a line.
#[tactic(auto, using(crate::proofs::BadLines::of_bad_lines))]
pub fn laws_of_bad_lines()
    ensures lines { BadLineLaw }
    ensures port_lines { BadPortLineLaw }
{}
