// What holds of OSL's semantics as the rows are held to it.
ghost use Rattle.osl.specs.Published.{AsPublished};
ghost use Rattle.osl.specs.Sets.{CountsAreSizes, StepsAreSets};

// The operators that OSL gives by others are those.
pub fn operators_are_as_published()
    ensures { AsPublished }
{}

// What is counted in a step are the members of a set that satisfy the expression.
pub fn counts_are_sizes()
    ensures sizes { CountsAreSizes }
    ensures sets { StepsAreSets }
{}
