//! What the reading of rows and the relation between rows and trees have to do with each other.

ghost use Rattle.std.specs.Prelude.{◌≡◌, ◌≤◌, ℕ, List, length, Ok, Err};
ghost use Rattle.std.specs.Str.{IsUtf8};
ghost use Rattle.std.specs.Str.Lines.{lines};
ghost use Rattle.doc_tree.specs.Shape.{Shape};
ghost use Rattle.yaml_read.specs.declared.fault.YamlFault.{YamlFault};
ghost use Rattle.yaml_read.specs.Rows.{Row, rows_of_lines};
ghost use Rattle.doc_tree.specs.declared.limits.TheConstants.{MAX_BYTES};
ghost use Rattle.yaml_read.specs.Reading.{document, reading};
ghost use Rattle.yaml_read.specs.Standing.{StandFor, StandsFor, StopAt, StopsAt, line_of};

/// The laws that tie the function that reads to the relation that says what stands for what. It has no effect at run time.
pub fn reading_laws()
    // What rows are read as, they stand for.
    ensures sound { (rows : List Row) (t : Shape) → document rows ≡ Ok t → StandFor rows t }
    // What rows stand for, they are read as.
    ensures complete { (rows : List Row) (t : Shape) → StandFor rows t → document rows ≡ Ok t }
    // So rows stand for one tree at most.
    ensures one_tree { (rows : List Row) (t u : Shape) → StandFor rows t → StandFor rows u → t ≡ u }
    // A fault names the line of the first row that can't continue a valid document ..
    ensures first_row { (rows : List Row) (f : YamlFault) → document rows ≡ Err f → StopAt rows (line_of f) }
    // .. and so the first line that can't.
    ensures first_line { (ls : List (List ℕ)) (f : YamlFault) → document (rows_of_lines ls) ≡ Err f → StopsAt ls (line_of f) }
    // The same of texts: what is read stands so ..
    ensures text_sound { (bytes : List ℕ) (t : Shape) → reading bytes ≡ Ok t → StandsFor bytes t }
    // .. and within the limit what stands so is read.
    ensures text_complete { (bytes : List ℕ) (t : Shape) → length bytes ≤ MAX_BYTES → IsUtf8 bytes → StandsFor bytes t → reading bytes ≡ Ok t }
    // A fault of such a text names the first of its lines that can't continue a valid document.
    ensures text_first_line { (bytes : List ℕ) (f : YamlFault) → length bytes ≤ MAX_BYTES → IsUtf8 bytes
        → reading bytes ≡ Err f → StopsAt (lines bytes) (line_of f) }
{}
