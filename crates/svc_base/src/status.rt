/// What a program ends with. The numbers are 0 (served), 1 (a parent whose child failed), 2 (words
/// refused), 3 (text refused), 4 (a run that ended otherwise), 5 (read fault), 6 (write fault) and 7
/// (want of memory).
#[derive(Clone, Copy, Debug, PartialEq, Eq)]
pub struct Status(pub u8);
