//! What the definitions say of short texts.
ghost use Rattle.check_find.specs.Examples.{OfConditions, OfLines, OfColumns};
ghost use Rattle.check_find.specs.UriExamples.{OfUris};

/// Conditions, lines and columns of short texts.
pub fn examples()
    ensures conditions { OfConditions }
    ensures lines { OfLines }
    ensures columns { OfColumns }
{}

/// Names of files as paths of URIs.
pub fn uri_examples()
    ensures { OfUris }
{}
