//! Character classes of Unicode 15.0, and the choice of a base direction.

ghost use Rattle.std.specs.Prelude.{◌≡◌};

/// Bidi_Class (UAX #9, table 4).
#[derive(Clone, Copy, Debug, PartialEq, Eq)]
pub enum Bidi {
    L,
    R,
    Al,
    En,
    Es,
    Et,
    An,
    Cs,
    Nsm,
    Bn,
    B,
    S,
    Ws,
    On,
    Lre,
    Lro,
    Rle,
    Rlo,
    Pdf,
    Lri,
    Rli,
    Fsi,
    Pdi,
}

impl Bidi {
    ghost use Rattle.bg_types.specs.Classes.{is_removed, is_isolate_control, is_nonspacing};

    /// Whether X9 removes a character of this class.
    #[inline]
    #[tactic(auto, unfolding(crate::specs::Classes::is_removed))]
    pub fn is_removed(self) -> bool
        ensures { result ≡ is_removed self }
    {
        matches!(
            self,
            Bidi::Rle | Bidi::Lre | Bidi::Rlo | Bidi::Lro | Bidi::Pdf | Bidi::Bn
        )
    }

    /// Whether it is the class of an isolate initiator, or of what ends an isolate (UAX #9, BD8).
    #[inline]
    #[tactic(auto, unfolding(crate::specs::Classes::is_isolate_control))]
    pub fn is_isolate_control(self) -> bool
        ensures { result ≡ is_isolate_control self }
    {
        matches!(self, Bidi::Lri | Bidi::Rli | Bidi::Fsi | Bidi::Pdi)
    }

    /// Whether it is the class of nonspacing marks (UAX #9, table 4).
    #[inline]
    #[tactic(auto, unfolding(crate::specs::Classes::is_nonspacing))]
    pub fn is_nonspacing(self) -> bool
        ensures { result ≡ is_nonspacing self }
    {
        matches!(self, Bidi::Nsm)
    }
}

/// Line_Break (UAX #14, table 1).
#[derive(Clone, Copy, Debug, PartialEq, Eq)]
pub enum Lb {
    Ai,
    Al,
    B2,
    Ba,
    Bb,
    Bk,
    Cb,
    Cj,
    Cl,
    Cm,
    Cp,
    Cr,
    Eb,
    Em,
    Ex,
    Gl,
    H2,
    H3,
    Hl,
    Hy,
    Id,
    In,
    Is,
    Jl,
    Jt,
    Jv,
    Lf,
    Nl,
    Ns,
    Nu,
    Op,
    Po,
    Pr,
    Qu,
    Ri,
    Sa,
    Sg,
    Sp,
    Sy,
    Wj,
    Xx,
    Zw,
    Zwj,
}

/// East_Asian_Width (UAX #11).
#[derive(Clone, Copy, Debug, PartialEq, Eq)]
pub enum Ea {
    A,
    F,
    H,
    N,
    Na,
    W,
}

/// How a paragraph's level is chosen.
#[derive(Clone, Copy, Debug, Default, PartialEq, Eq, Hash)]
pub enum Base {
    /// By the first strong character (UAX #9, P2 and P3).
    #[default]
    Auto,
    /// Level 0, left to right (UAX #9, HL1).
    Left,
    /// Level 1, right to left (UAX #9, HL1).
    Right,
}
