//! Texts of words.

use crate::chance::Chance;
use std::alloc::{AllocError, Global};

/// Words, and how they make a text.
#[derive(Clone, Copy)]
pub struct Prose {
    /// The words, each as likely as any other.
    pub words: &'static [&'static str],
    /// What stands between two of them.
    pub between: &'static str,
    /// Of so many words one ends its paragraph; 0 where none does.
    pub paragraph: usize,
}

/// Hebrew, Arabic and Latin in one text, with numbers, brackets and marks.
pub const MIXED: Prose = Prose {
    words: &[
        "the",
        "fox",
        "jumps",
        "over",
        "dog,",
        "peace",
        "120",
        "(x)",
        "שלום",
        "עולם",
        "לכם",
        "ולכל",
        "הבאים",
        "מחר.",
        "(יום)",
        "העיר",
        "أهلا",
        "العدد",
        "كلمة",
        "في",
        "٣٤",
        "世界",
        "e\u{301}",
        "naïve",
        "1,250.5",
        "well-known",
    ],
    between: " ",
    paragraph: 40,
};

/// Latin alone, as in a letter or a program.
pub const LATIN: Prose = Prose {
    words: &[
        "the", "quick", "brown", "fox", "jumps", "over", "a", "lazy", "dog,", "and", "sleeps",
        "on;", "fn", "main()", "{", "}", "let", "x", "=", "1;", "return", "words", "of", "length",
    ],
    between: " ",
    paragraph: 12,
};

/// Hebrew with its points and numbers.
pub const HEBREW: Prose = Prose {
    words: &[
        "שלום",
        "עולם,",
        "לכם",
        "ולכל",
        "הבאים",
        "אחריכם",
        "ומחר",
        "(יום)",
        "שָׁלוֹם",
        "בְּרֵאשִׁית",
        "בָּרָא",
        "120",
        "15:30",
        "עיר",
        "בית־ספר",
        "אל",
        "לא",
    ],
    between: " ",
    paragraph: 60,
};

/// Hebrew of which each letter has its point, with numbers and punctuation of its own.
pub const POINTED: Prose = Prose {
    words: &[
        "בְּרֵאשִׁית",
        "בָּרָא",
        "אֱלֹהִים",
        "אֵת",
        "הַשָּׁמַיִם",
        "וְאֵת",
        "הָאָרֶץ׃",
        "וְחֹשֶׁךְ",
        "עַל־פְּנֵי",
        "תְהוֹם",
        "מְרַחֶפֶת",
        "וַיֹּאמֶר",
        "יְהִי־אוֹר",
        "שָׁלוֹם,",
        "(יוֹם)",
        "120",
        "15:30",
    ],
    between: " ",
    paragraph: 60,
};

/// Chinese, in which no spaces stand, with wide punctuation and brackets, numbers and a Latin word.
pub const CHINESE: Prose = Prose {
    words: &[
        "人人生而自由，",
        "在尊严和权利上",
        "一律平等。",
        "他们赋有理性",
        "和良心，",
        "并应以",
        "兄弟关系的",
        "精神相对待。",
        "「世界」",
        "（第1条）",
        "2023年",
        "Unicode",
        "、",
        "文字",
    ],
    between: "",
    paragraph: 30,
};

/// What makes a layout work: isolates, embeddings, overrides, brackets in brackets, numbers with their
/// signs, joined emoji and flags, in paragraphs that do not end.
pub const KNOTTED: Prose = Prose {
    words: &[
        "\u{2067}שלום",
        "a\u{2069}",
        "\u{2066}x",
        "\u{2068}كلمة\u{2069}",
        "\u{202b}אבג",
        "\u{202c}",
        "\u{202e}abc\u{202c}",
        "([{<",
        ">}])",
        "(a[ב]",
        "ج)",
        "٣٤,٥",
        "-12%",
        "$3",
        "+٣",
        "1/2",
        "a\u{301}\u{308}\u{323}",
        "בָ",
        "👩\u{200d}👩\u{200d}👧",
        "🇮🇱🇪🇬",
        "\u{200f}!",
        "\t",
        "世界、",
        "\u{ad}",
        "—",
        "«ג»",
        "\u{2028}",
    ],
    between: " ",
    paragraph: 0,
};

impl Prose {
    /// A text of words with something between, which ends with the word that reaches this many bytes.
    pub fn text(
        &self,
        alloc: Global,
        chance: &mut Chance,
        bytes: usize,
    ) -> Result<String, AllocError> {
        let mut text = String::new(alloc);
        for _ in 0..bytes {
            if text.len() >= bytes {
                break;
            }
            match self.words.get(chance.below(self.words.len())) {
                Some(word) => text.push_str(word)?,
                None => return Ok(text),
            }
            let ends = self.paragraph > 0 && chance.one_in(self.paragraph);
            text.push_str(if ends { "\n" } else { self.between })?;
        }
        Ok(text)
    }
}
