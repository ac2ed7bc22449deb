//! What the words say.

/// What the program does.
#[derive(Clone, Copy, Debug, PartialEq, Eq)]
pub enum Mode {
    /// Matches the pattern over the input.
    Run,
    /// Prints the pattern file in its one form.
    Check,
    /// Prints the states of the pattern.
    Explain,
    /// Runs the pattern over generated rows.
    Load,
}

/// What the words ask for, with the defaults of the options that they leave out.
#[derive(Clone, Copy, Debug, PartialEq, Eq)]
pub struct Options {
    pub mode: Mode,
    /// How far events may come behind the greatest time, in milliseconds of event time.
    pub lag: Option<u64>,
    /// The greatest number of lines that are read.
    pub rows: u32,
    /// The first line names the columns.
    pub header: bool,
    /// What the generator starts from.
    pub seed: u64,
    /// How many rows are generated.
    pub count: u32,
}
