//! Laws of the join. Each is the contract of a function that does nothing.

ghost use Rattle.book_design.specs.Records.{Records};
ghost use Rattle.book_design.specs.Answers.{HasOneJoin};

/// Whatever the files say, they make a design or have a first fault, one alone and never both.
pub fn one_join()
    ensures { (records : Records) → HasOneJoin records }
{}
