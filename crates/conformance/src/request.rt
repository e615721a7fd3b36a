//! What a command line asks for.

/// Test files to be run.
#[derive(Drop)]
pub struct Job<'a> {
    /// The folder of the five data files.
    pub folder: &'a str,
    /// The test files, whose names say what they test.
    pub files: Vec<&'a str>,
}
