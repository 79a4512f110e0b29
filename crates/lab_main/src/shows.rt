/// What is shown beside what was asked for.
#[derive(Clone, Copy, Debug, PartialEq, Eq)]
pub(crate) struct Shows {
    /// Each line, with its number.
    pub(crate) echo: bool,
    /// Answers that are only `ok`.
    pub(crate) done: bool,
}
