//! The names of values.

ghost use Rattle.std.specs.Prelude.{◌≡◌};
ghost use Rattle.ucd_files.specs.Names.{named, name_table};

use bg_types::{Bidi, Ea, Lb};

/// The short names.
pub(crate) const BIDI_NAMES: &[(&[u8], Bidi)] = &[
    (b"L", Bidi::L),
    (b"R", Bidi::R),
    (b"AL", Bidi::Al),
    (b"EN", Bidi::En),
    (b"ES", Bidi::Es),
    (b"ET", Bidi::Et),
    (b"AN", Bidi::An),
    (b"CS", Bidi::Cs),
    (b"NSM", Bidi::Nsm),
    (b"BN", Bidi::Bn),
    (b"B", Bidi::B),
    (b"S", Bidi::S),
    (b"WS", Bidi::Ws),
    (b"ON", Bidi::On),
    (b"LRE", Bidi::Lre),
    (b"LRO", Bidi::Lro),
    (b"RLE", Bidi::Rle),
    (b"RLO", Bidi::Rlo),
    (b"PDF", Bidi::Pdf),
    (b"LRI", Bidi::Lri),
    (b"RLI", Bidi::Rli),
    (b"FSI", Bidi::Fsi),
    (b"PDI", Bidi::Pdi),
];

/// The long names.
pub(crate) const BIDI_LONG_NAMES: &[(&[u8], Bidi)] = &[
    (b"Left_To_Right", Bidi::L),
    (b"Right_To_Left", Bidi::R),
    (b"Arabic_Letter", Bidi::Al),
    (b"European_Number", Bidi::En),
    (b"European_Separator", Bidi::Es),
    (b"European_Terminator", Bidi::Et),
    (b"Arabic_Number", Bidi::An),
    (b"Common_Separator", Bidi::Cs),
    (b"Nonspacing_Mark", Bidi::Nsm),
    (b"Boundary_Neutral", Bidi::Bn),
    (b"Paragraph_Separator", Bidi::B),
    (b"Segment_Separator", Bidi::S),
    (b"White_Space", Bidi::Ws),
    (b"Other_Neutral", Bidi::On),
    (b"Left_To_Right_Embedding", Bidi::Lre),
    (b"Left_To_Right_Override", Bidi::Lro),
    (b"Right_To_Left_Embedding", Bidi::Rle),
    (b"Right_To_Left_Override", Bidi::Rlo),
    (b"Pop_Directional_Format", Bidi::Pdf),
    (b"Left_To_Right_Isolate", Bidi::Lri),
    (b"Right_To_Left_Isolate", Bidi::Rli),
    (b"First_Strong_Isolate", Bidi::Fsi),
    (b"Pop_Directional_Isolate", Bidi::Pdi),
];

/// The short names.
pub(crate) const LB_NAMES: &[(&[u8], Lb)] = &[
    (b"AI", Lb::Ai),
    (b"AL", Lb::Al),
    (b"B2", Lb::B2),
    (b"BA", Lb::Ba),
    (b"BB", Lb::Bb),
    (b"BK", Lb::Bk),
    (b"CB", Lb::Cb),
    (b"CJ", Lb::Cj),
    (b"CL", Lb::Cl),
    (b"CM", Lb::Cm),
    (b"CP", Lb::Cp),
    (b"CR", Lb::Cr),
    (b"EB", Lb::Eb),
    (b"EM", Lb::Em),
    (b"EX", Lb::Ex),
    (b"GL", Lb::Gl),
    (b"H2", Lb::H2),
    (b"H3", Lb::H3),
    (b"HL", Lb::Hl),
    (b"HY", Lb::Hy),
    (b"ID", Lb::Id),
    (b"IN", Lb::In),
    (b"IS", Lb::Is),
    (b"JL", Lb::Jl),
    (b"JT", Lb::Jt),
    (b"JV", Lb::Jv),
    (b"LF", Lb::Lf),
    (b"NL", Lb::Nl),
    (b"NS", Lb::Ns),
    (b"NU", Lb::Nu),
    (b"OP", Lb::Op),
    (b"PO", Lb::Po),
    (b"PR", Lb::Pr),
    (b"QU", Lb::Qu),
    (b"RI", Lb::Ri),
    (b"SA", Lb::Sa),
    (b"SG", Lb::Sg),
    (b"SP", Lb::Sp),
    (b"SY", Lb::Sy),
    (b"WJ", Lb::Wj),
    (b"XX", Lb::Xx),
    (b"ZW", Lb::Zw),
    (b"ZWJ", Lb::Zwj),
];

/// The long names.
pub(crate) const LB_LONG_NAMES: &[(&[u8], Lb)] = &[
    (b"Ideographic", Lb::Id),
    (b"Prefix_Numeric", Lb::Pr),
    (b"Unknown", Lb::Xx),
];

/// The short names.
pub(crate) const EA_NAMES: &[(&[u8], Ea)] = &[
    (b"A", Ea::A),
    (b"F", Ea::F),
    (b"H", Ea::H),
    (b"N", Ea::N),
    (b"Na", Ea::Na),
    (b"W", Ea::W),
];

/// The long names.
pub(crate) const EA_LONG_NAMES: &[(&[u8], Ea)] = &[
    (b"Ambiguous", Ea::A),
    (b"Fullwidth", Ea::F),
    (b"Halfwidth", Ea::H),
    (b"Neutral", Ea::N),
    (b"Narrow", Ea::Na),
    (b"Wide", Ea::W),
];

/// The value of a name, in a table of names.
pub(crate) fn value_named<V: Copy>(table: &[(&[u8], V)], name: &[u8]) -> Option<V>
    ensures { result ≡ named (name_table table.now) name.now }
{
    for (spelled, value) in table {
        if *spelled == name {
            return Some(*value);
        }
    }
    None
}
