//! What the definitions say of short files and reports, as the contracts of calls that do nothing.
ghost use Rattle.test_text.specs.Examples.{OfLists, OfNames, OfReports};
ghost use Rattle.test_text.specs.FileExamples.{OfLines, OfAnswers, OfFiles};

/// The definitions compare names, and tell what came of some tests, as procmail-test(1) says.
pub fn examples()
    ensures lists { OfLists }
    ensures names { OfNames }
    ensures reports { OfReports }
{}

/// The definitions read some short files of tests as procmail-test(1) says.
pub fn file_examples()
    ensures lines { OfLines }
    ensures answers { OfAnswers }
    ensures files { OfFiles }
{}
