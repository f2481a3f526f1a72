/// How much is held in cells that are read one behind the other: first the finished candidates, then the open one.
#[derive(Clone, Copy)]
pub struct Counts {
    /// How many cells there are.
    pub cells: usize,
    /// How many cells the finished candidates have.
    pub used: usize,
    /// How many finished candidates wait.
    pub waiting: usize,
    /// How many codeblocks the open candidate has, if one is open.
    pub unfinished: Option<usize>,
}
