// Books whose passes are computed by the definitions.
#![tactic(auto)]

ghost use Rattle.worked_books.specs.Books.{Worked};

// The worked books come out as the rules tell them.
pub fn worked_books()
    ensures { Worked }
{}
