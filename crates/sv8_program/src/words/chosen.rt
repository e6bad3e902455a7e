//! What the command line chooses.

/// What the words of the command line choose.
#[derive(Drop, Clone, Copy)]
pub struct Settings<'a> {
    /// The number of register windows: 2, 4, 8, 16 or 32.
    pub windows: u32,
    /// The path of the script; standard input is read where there is none.
    pub script: Option<&'a str>,
}
