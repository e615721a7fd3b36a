//! The three test files.

/// One of Unicode's test files.
#[derive(Clone, Copy)]
pub enum TestFile {
    BidiCharacter,
    Bidi,
    LineBreak,
}

impl TestFile {
    /// Its name.
    pub fn name(self) -> &'static str {
        match self {
            TestFile::BidiCharacter => "BidiCharacterTest.txt",
            TestFile::Bidi => "BidiTest.txt",
            TestFile::LineBreak => "LineBreakTest.txt",
        }
    }
}

/// The test file that has the name at the end of a path.
pub fn kind(path: &str) -> Option<TestFile> {
    let name = match path.rsplit_once('/') {
        Some((_, name)) => name,
        None => path,
    };
    match name {
        "BidiCharacterTest.txt" => Some(TestFile::BidiCharacter),
        "BidiTest.txt" => Some(TestFile::Bidi),
        "LineBreakTest.txt" => Some(TestFile::LineBreak),
        _ => None,
    }
}
