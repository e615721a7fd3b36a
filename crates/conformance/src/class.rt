//! A code point of each bidi class.

/// The short name of each class, and a code point of it, which is no bracket.
const POINTS: [(&str, char); 23] = [
    ("L", 'a'),
    ("R", '\u{5D0}'),
    ("AL", '\u{627}'),
    ("EN", '1'),
    ("ES", '+'),
    ("ET", '$'),
    ("AN", '\u{661}'),
    ("CS", ','),
    ("NSM", '\u{300}'),
    ("BN", '\u{200B}'),
    ("B", '\u{2029}'),
    ("S", '\t'),
    ("WS", ' '),
    ("ON", '!'),
    ("LRE", '\u{202A}'),
    ("RLE", '\u{202B}'),
    ("PDF", '\u{202C}'),
    ("LRO", '\u{202D}'),
    ("RLO", '\u{202E}'),
    ("LRI", '\u{2066}'),
    ("RLI", '\u{2067}'),
    ("FSI", '\u{2068}'),
    ("PDI", '\u{2069}'),
];

/// A code point of the class of this short name.
pub fn point_of(name: &str) -> Option<char> {
    for (class, point) in &POINTS {
        if *class == name {
            return Some(*point);
        }
    }
    None
}
