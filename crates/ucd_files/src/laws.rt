//! A law of the definitions: its function's contract is the law, and the body is empty.

ghost use Rattle.std.specs.Prelude.{◌≡◌, ℕ, ◌<◌, List};
ghost use Rattle.ucd_files.specs.Reading.{value_at};
ghost use Rattle.ucd_files.specs.Files.{bidi_file, brackets_file, mirror_file, lb_file, ea_file};
ghost use Rattle.ucd_files.specs.Ucd.{tables_of};
ghost use Rattle.unicode_tables.specs.Tables.{bidi_of, bracket_of, mirror_of, lb_of, ea_of};

/// The tables of five files have at each code point the value that each file gives it.
pub fn table_values()
    ensures bidi { (bidi brackets mirror lb ea : List ℕ) (c : ℕ) → c < 0x110000
        → bidi_of (tables_of bidi brackets mirror lb ea) c ≡ value_at bidi_file bidi c }
    ensures bracket { (bidi brackets mirror lb ea : List ℕ) (c : ℕ) → c < 0x110000
        → bracket_of (tables_of bidi brackets mirror lb ea) c ≡ value_at brackets_file brackets c }
    ensures mirror { (bidi brackets mirror lb ea : List ℕ) (c : ℕ) → c < 0x110000
        → mirror_of (tables_of bidi brackets mirror lb ea) c ≡ value_at mirror_file mirror c }
    ensures lb { (bidi brackets mirror lb ea : List ℕ) (c : ℕ) → c < 0x110000
        → lb_of (tables_of bidi brackets mirror lb ea) c ≡ value_at lb_file lb c }
    ensures ea { (bidi brackets mirror lb ea : List ℕ) (c : ℕ) → c < 0x110000
        → ea_of (tables_of bidi brackets mirror lb ea) c ≡ value_at ea_file ea c }
{}
