//! Laws of lines and words, each the contract of a function that does nothing.

ghost use Rattle.std.specs.Prelude.{◌≡◌, ◌↔◌, ℕ, List, Some, None};
ghost use Rattle.text_lines.specs.Digits.{decimal};
ghost use Rattle.text_lines.specs.Hexadecimal.{IsSpelled, bytes_of};
ghost use Rattle.text_lines.specs.Numerals.{IsNumeral};
ghost use Rattle.text_lines.specs.Words.{IsPassedOver, first_said};

/// A line says nothing exactly where it has no word, or its first word begins with `#`.
pub fn lines_are_passed_over()
    ensures { (words : List (List ℕ)) → (first_said words ≡ None) ↔ IsPassedOver words }
{}

/// The number that is read from a word is exactly the one that it spells.
pub fn numbers_are_spelled()
    ensures { (word : List ℕ) (n : ℕ) → (decimal word ≡ Some n) ↔ IsNumeral word n }
{}

/// The bytes that are read from a word are exactly those that it spells.
pub fn bytes_are_spelled()
    ensures { (most : ℕ) (word bytes : List ℕ) →
        (bytes_of most word ≡ Some bytes) ↔ IsSpelled most word bytes }
{}
