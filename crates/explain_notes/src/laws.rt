//! What holds of what is shown, as contracts of calls that do nothing.
ghost use Rattle.explain_notes.specs.Examples.{OfCame, OfLines, OfShown};
ghost use Rattle.explain_notes.specs.Laws.{StepsStay, NotesStay};
ghost use Rattle.explain_notes.specs.RcExamples.{OfSteps};
ghost use Rattle.explain_notes.specs.RcLaws.{RecipesHaveLines};

/// Each step of the run is shown once, in order, and so is each note.
pub fn woven_law()
    ensures steps { StepsStay }
    ensures notes { NotesStay }
{}

/// The definitions print short runs as procmail-explain(1) says.
pub fn examples()
    ensures came { OfCame }
    ensures lines { OfLines }
    ensures shown { OfShown }
{}

/// In the code of an rcfile each recipe has its lines: the colon line says its flags and its lock, and the other lines
/// its conditions.
pub fn lines_law()
    ensures { RecipesHaveLines }
{}

/// The definitions give the steps of short rcfiles their lines.
pub fn rc_examples()
    ensures { OfSteps }
{}
