//! Laws of the words and of the statuses, each the contract of a function that does nothing.
ghost use Rattle.green_cli.specs.Laws.{CommandsAreUnique, LinesAsk, LinesAskNothing, LinesName, LinesNameNothing};
ghost use Rattle.green_cli.specs.StatusLaws.{DumpHasStatuses, SolveHasStatuses, WordsHaveStatuses};

use outside::Disk;
use session_text::spelled_has_no_fault;

/// Words ask for one command at most.
pub fn commands_are_unique()
    ensures { CommandsAreUnique }
{}

/// Lines that ask for a command, by clap's own rules.
pub fn lines_ask()
    ensures { LinesAsk }
{}

/// Lines that name a store, by clap's own rules.
pub fn lines_name()
    ensures { LinesName }
{}

/// Lines that ask for none.
pub fn lines_ask_nothing()
    ensures { LinesAskNothing }
{}

/// Lines that name no store or more than one, and so ask for none.
pub fn lines_name_nothing()
    ensures { LinesNameNothing }
{}

/// What each status of `solve` tells: 0, 3, 4 and 13 come exactly where the session was answered; where the writing
/// didn't fail, 4 exactly where some entry wasn't saved, and else 3 exactly where some query is unknown; and 11, 17 and 18
/// exactly for their causes, unless memory ran out or, for 17, the disk failed.
pub fn statuses_of_solve<D: Disk>()
    ensures { SolveHasStatuses D.state }
{
    spelled_has_no_fault();
}

/// What each status of `dump` tells: 0 and 13 come exactly where the file was read, and 17 exactly where it is no
/// journal, unless the disk failed or memory ran out.
pub fn statuses_of_dump<D: Disk>()
    ensures { DumpHasStatuses D.state }
{}

/// Status 10 comes exactly where the words ask for no command, and the command that they ask for is done, unless memory
/// ran out.
pub fn statuses_of_words<D: Disk>()
    ensures { WordsHaveStatuses D.state }
{
    spelled_has_no_fault();
    commands_are_unique();
}
