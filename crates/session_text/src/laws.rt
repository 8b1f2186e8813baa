//! Laws of the texts of sessions, each the contract of a function that only calls such laws, here or of a crate below.
ghost use Rattle.session_text.specs.Laws.{OneFirstFault, SpelledHasNoFault, SpelledOnce, SpelledOrFaulty};
ghost use Rattle.session_text.specs.Laws.{WrittenIsSpelled};
ghost use Rattle.session_text.specs.Lawful.{TextsAreLawful};

/// What is written for a session is spelled as that session.
pub fn written_is_spelled()
    ensures { WrittenIsSpelled }
{
    lin_text::written_is_spelled_within();
    lin_text::tokens_move_with_their_text();
}

/// A text spells one session at most.
pub fn spelled_once()
    ensures { SpelledOnce }
{
    lin_text::spelled_once();
}

/// A text that spells a session has no fault.
pub fn spelled_has_no_fault()
    ensures { SpelledHasNoFault }
{
    texts_are_lawful();
}

/// A text spells a session or has a fault.
pub fn spelled_or_faulty()
    ensures { SpelledOrFaulty }
{
    texts_are_lawful();
    lin_text::spelled_or_faulty();
}

/// A text has at most one first fault, at one place.
pub fn one_first_fault()
    ensures { OneFirstFault }
{
    lin_text::lines_are_in_order();
}

/// Three laws of the texts of queries, handed on together.
pub fn texts_are_lawful()
    ensures { TextsAreLawful }
{
    lin_text::lines_are_in_order();
    lin_text::words_stand_in_no_line();
    lin_text::spelled_lines_have_no_fault();
}
