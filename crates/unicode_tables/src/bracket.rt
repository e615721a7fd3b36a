//! The values that the tables have.

/// Bidi_Paired_Bracket_Type with Bidi_Paired_Bracket (UAX #9, BD14 and BD15).
#[derive(Clone, Copy, Debug, PartialEq, Eq)]
pub enum Bracket {
    None,
    /// An opening bracket, with the closing one that it pairs with.
    Open(char),
    /// A closing bracket, with the opening one that it pairs with.
    Close(char),
}
