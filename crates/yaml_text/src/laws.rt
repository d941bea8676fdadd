//! What is read of what is printed.

ghost use Rattle.std.specs.Prelude.{◌≡◌, ◌≤◌, ℕ, ℤ, List, [], ◌∷◌, ◌++◌, true, Ok, Some};
ghost use Rattle.doc_tree.specs.Shape.{Shape, text, whole, is_distinct, levels};
ghost use Rattle.doc_tree.specs.declared.limits.TheConstants.{MAX_LEVELS};
ghost use Rattle.yaml_plain.specs.declared.style.Style.TheVariants.{Block};
ghost use Rattle.yaml_plain.specs.Bytes.{colon, at_gap};
ghost use Rattle.yaml_read.specs.Keys.{key, scalar};
ghost use Rattle.std.specs.Fmt.{signed_decimal};
ghost use Rattle.doc_tree.specs.Integers.{has_128_bits, integers_fit};
ghost use Rattle.yaml_read.specs.Standing.{StandsFor};
ghost use Rattle.yaml_text.specs.Layout.{is_filled_map, yaml_text_of};
ghost use Rattle.yaml_text.specs.Scalars.{printed};

/// The laws of what is printed. It has no effect at run time.
pub fn printing_laws()
    // A printed text is read as that text, and nothing is left of it ..
    ensures texts { (s : List ℕ) → scalar Block (printed s) ≡ Ok (text s, []) }
    // .. and a printed key as that key, up to its colon and a gap.
    ensures keys { (k : List ℕ) (g : List ℕ) → at_gap g ≡ true → key Block (printed k ++ (colon ∷ g)) ≡ Some (k, g) }
    // A printed integer of 128 bits is read as that integer.
    ensures integers { (z : ℤ) → has_128_bits z ≡ true → scalar Block (signed_decimal z) ≡ Ok (whole z, []) }
    // The text of a map that has a pair stands for that map.
    ensures maps { (t : Shape) → is_filled_map t ≡ true → is_distinct t ≡ true → integers_fit t ≡ true → levels t ≤ MAX_LEVELS → StandsFor (yaml_text_of t) t }
{}
