//! Laws of the texts of conditions, each the contract of a function that does nothing.
ghost use Rattle.lin_text.specs.Laws.{OneFirstFault, SpelledHasNoFault, SpelledLinesHaveNoFault, SpelledOnce};
ghost use Rattle.lin_text.specs.Laws.{SpelledOrFaulty, TokensAreLongest, WordsStandInNoLine, WrittenIsSpelled};
ghost use Rattle.lin_text.specs.Laws.{WrittenIsSpelledWithin};
ghost use Rattle.lin_text.specs.KeyAtomLaws.{AtomSpelledOnce, AtomSpelledOrFaulty, AtomTextHasNoFault, AtomTextOnce};
ghost use Rattle.lin_text.specs.KeyAtomLaws.{AtomTextOrFaulty, OneFirstAtomFault, OneFirstAtomTextFault};
ghost use Rattle.lin_text.specs.KeyAtomLaws.{SpelledAtomHasNoFault, WrittenAtomIsSpelled, WrittenAtomIsText};
ghost use Rattle.lin_text.specs.LineLaws.{LinesAreInOrder, TokensMoveWithTheirText};
ghost use Rattle.lin_text.specs.FoundLaws.{LinesAreNext, TokensAreNext};

/// What is written for a condition is spelled as that condition, in the sense of the grammar.
pub fn written_is_spelled()
    ensures { WrittenIsSpelled }
{}

/// So it is within a text, where nothing follows it, or a line that begins with a reserved word other than `var`.
pub fn written_is_spelled_within()
    ensures { WrittenIsSpelledWithin }
{}

/// A text spells one condition at most from a place on, and up to one place.
pub fn spelled_once()
    ensures { SpelledOnce }
{}

/// A text that spells a condition has no fault.
pub fn spelled_has_no_fault()
    ensures { SpelledHasNoFault }
{}

/// No fault stands in lines that spell a condition.
pub fn spelled_lines_have_no_fault()
    ensures { SpelledLinesHaveNoFault }
{}

/// No line of a query begins or goes on with a reserved word other than `var`.
pub fn words_stand_in_no_line()
    ensures { WordsStandInNoLine }
{}

/// A text has at most one first fault, at one place.
pub fn one_first_fault()
    ensures { OneFirstFault }
{}

/// Where a token begins, the longest one is taken.
pub fn tokens_are_longest()
    ensures { TokensAreLongest }
{}

/// The line that is found is the least line start at or behind the place that isn't skipped, else the input's length.
pub fn lines_are_next()
    ensures { LinesAreNext }
{}

/// The token that is found is of its kind, by the forms of tokens; no token is found just where none begins, and the
/// line's end just where nothing more stands on the line.
pub fn tokens_are_next()
    ensures { TokensAreNext }
{}

/// The lines of a text, and the tokens of a line, lie one behind the other; each place up to the end has its lines and
/// its tokens, and there is one list of lines.
pub fn lines_are_in_order()
    ensures { LinesAreInOrder }
{}

/// The first token from a place on is the first token of what stands there, moved by the place.
pub fn tokens_move_with_their_text()
    ensures { TokensMoveWithTheirText }
{}

/// A text spells a condition or has a fault.
pub fn spelled_or_faulty()
    ensures { SpelledOrFaulty }
{}

/// What is written for a canonical atom spells it, wherever the line ends behind it.
pub fn written_atom_is_spelled()
    ensures { WrittenAtomIsSpelled }
{}

/// A text spells one canonical atom at most from a place on.
pub fn atom_spelled_once()
    ensures { AtomSpelledOnce }
{}

/// A line that spells a canonical atom has no fault.
pub fn spelled_atom_has_no_fault()
    ensures { SpelledAtomHasNoFault }
{}

/// What is written for a canonical atom is a text of it, so it is read back.
pub fn written_atom_is_text()
    ensures { WrittenAtomIsText }
{}

/// A text is one of one canonical atom at most.
pub fn atom_text_once()
    ensures { AtomTextOnce }
{}

/// A text of a canonical atom has no fault.
pub fn atom_text_has_no_fault()
    ensures { AtomTextHasNoFault }
{}

/// Each place of a text spells a canonical atom, up to the end of its line, or its line has a first fault from there on.
pub fn atom_spelled_or_faulty()
    ensures { AtomSpelledOrFaulty }
{}

/// A text is one of a canonical atom, or has a first fault.
pub fn atom_text_or_faulty()
    ensures { AtomTextOrFaulty }
{}

/// An atom's line has at most one first fault, at one place.
pub fn one_first_atom_fault()
    ensures { OneFirstAtomFault }
{}

/// A text of one atom has at most one first fault, at one place.
pub fn one_first_atom_text_fault()
    ensures { OneFirstAtomTextFault }
{}
