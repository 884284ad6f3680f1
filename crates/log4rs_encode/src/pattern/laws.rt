//! Laws of the pattern language.
ghost use Rattle.std.specs.Prelude.{◌≡◌, ◌≢◌, ◌∷◌, ◌++◌, [], true, ◌<◌, ◌≤◌, ℕ, List, length, Some, encode_utf8_all};
ghost use Rattle.std.specs.Char.{is_ascii};
ghost use Rattle.std.specs.List.{list_all};
ghost use Rattle.log4rs_base.specs.declared.record.Context.{Context};
ghost use Rattle.log4rs_base.specs.declared.record.Record.{Record};
ghost use Rattle.log4rs_encode.specs.Ascii.{is_ascii_name, ends_name};
ghost use Rattle.log4rs_encode.specs.Scan.{open_brace, close_brace, close_paren, is_plain, leading};
ghost use Rattle.log4rs_encode.specs.Syntax.{Piece, Pieces, no_lists, text};
ghost use Rattle.log4rs_encode.specs.Escaped.{escaped, text_of};
ghost use Rattle.log4rs_encode.specs.Rendering.{pattern_runs};
ghost use Rattle.log4rs_encode.specs.Runs as runs;
ghost use Rattle.log4rs_encode.specs.Table.{chunks_of};
ghost use Rattle.log4rs_encode.specs.Spelling.{IsPattern, Spells, argument_of, max_nesting};
ghost use Rattle.log4rs_encode.specs.Width.{parameters_of};

/// Every text but the empty one spells exactly one piece, unless it is in an argument list and
/// begins with `)`, where it spells none. The rest after the piece is shorter than the text.
pub fn one_piece()
    ensures some { (levels c : ℕ) (cs : List ℕ) → levels ≤ max_nesting
        → (levels < max_nesting → c ≢ close_paren)
        → (p : Piece) × (rest : List ℕ) × Spells levels (c ∷ cs) p rest }
    ensures one { (levels : ℕ) (cs : List ℕ) (p q : Piece) (r s : List ℕ)
        → levels ≤ max_nesting → Spells levels cs p r → Spells levels cs q s → (p ≡ q) × (r ≡ s) }
    ensures none { (levels : ℕ) (cs : List ℕ) (p : Piece) (rest : List ℕ)
        → levels < max_nesting → Spells levels (close_paren ∷ cs) p rest → ⊥ }
    ensures empty { (levels : ℕ) (p : Piece) (rest : List ℕ)
        → Spells levels [] p rest → ⊥ }
    ensures shorter { (levels : ℕ) (cs : List ℕ) (p : Piece) (rest : List ℕ)
        → Spells levels cs p rest → length rest < length cs }
{}

/// Every text is a pattern, with one list of pieces.
pub fn one_pattern()
    ensures some { (cs : List ℕ) → (ps : Pieces) × IsPattern cs ps }
    ensures one { (cs : List ℕ) (ps qs : Pieces)
        → IsPattern cs ps → IsPattern cs qs → ps ≡ qs }
{}

/// Pieces of literal patterns: the longest run of ordinary characters is one text, a formatter with
/// an ASCII name and no argument lists is an argument, and an ASCII text is its own UTF-8. The
/// premises of these laws compute.
pub fn literal_pieces()
    ensures plain { (levels c : ℕ) (cs rest : List ℕ)
        → list_all is_plain (c ∷ cs) ≡ true → leading is_plain rest ≡ []
        → Spells levels (c ∷ cs ++ rest) (text (encode_utf8_all (c ∷ cs))) rest }
    ensures formatter { (levels c : ℕ) (cs behind rest : List ℕ)
        → is_ascii_name (c ∷ cs) ≡ true → ends_name behind ≡ true
        → (parameters_of behind).1 ≡ close_brace ∷ rest
        → Spells levels (open_brace ∷ c ∷ cs ++ behind)
        (argument_of (c ∷ cs) no_lists (parameters_of behind).0) rest }
    ensures ascii { (cs : List ℕ)
        → list_all is_ascii cs ≡ true → encode_utf8_all cs ≡ cs }
{}

/// A text with each special character behind a backslash stands for itself.
pub fn escaped_text()
    ensures { (cs : List ℕ) (ps : Pieces) → IsPattern (escaped cs) ps
        → text_of ps ≡ Some (encode_utf8_all cs) }
{}

/// A text with each special character behind a backslash renders as that text, for every record.
pub fn escaped_rendering()
    ensures { (cs : List ℕ) (ps : Pieces) (logged : Record) (context : Context)
        → IsPattern (escaped cs) ps
        → pattern_runs (chunks_of ps) logged context
        ≡ runs.join (runs.text (encode_utf8_all cs) ∷ []) }
{}
