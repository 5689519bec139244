//! Laws of the readings of this crate, on which proofs about lines rest. A law's function does nothing: its contract is the law.
ghost use Rattle.std.specs.Prelude.{◌≡◌, ℕ, ◌<◌, ◌^◌, Bool, true, false, ◌||◌, ◌==◌, List, [], ◌∷◌, ◌++◌, codes, decimal, bit_xor};
ghost use Rattle.std.specs.Char.{is_ascii_digit};
ghost use Rattle.std.specs.List.{All, before_last, after_last};
ghost use Rattle.byte_text.specs.Marks.{has_byte, has_m110};
ghost use Rattle.byte_text.specs.Number.{leading_digits, number_of, begins_with_digit};
ghost use Rattle.byte_text.specs.Xor.{xor_of};

/// The exclusive or goes piece by piece, and the exclusive or of bytes is a byte.
pub fn xor_law()
    ensures pieces { (front back : List ℕ)
        → xor_of (front ++ back) ≡ bit_xor (xor_of front) (xor_of back) }
    ensures byte { (bytes : List ℕ) → All (λ b. b < 2 ^ 8) bytes → xor_of bytes < 2 ^ 8 }
{}

/// A number in decimal is read back, whatever follows it but a digit.
pub fn number_law()
    ensures digits { (n : ℕ) (rest : List ℕ) → n < 2 ^ 64 → begins_with_digit rest ≡ false
        → leading_digits (decimal n ++ rest) ≡ decimal n }
    ensures value { (n : ℕ) (rest : List ℕ) → n < 2 ^ 32 → begins_with_digit rest ≡ false
        → number_of (decimal n ++ rest) ≡ n }
    ensures only_digits { (byte n : ℕ) → n < 2 ^ 64 → is_ascii_digit byte ≡ false
        → has_byte byte (decimal n) ≡ false }
{}

/// A byte is in joined bytes if it is in a piece; after its last place it isn't in them any more.
pub fn byte_law()
    ensures pieces { (byte : ℕ) (front back : List ℕ)
        → has_byte byte (front ++ back) ≡ (has_byte byte front || has_byte byte back) }
    ensures before { (byte : ℕ) (front back : List ℕ) → has_byte byte back ≡ false
        → before_last (λ b. b == byte) (front ++ byte ∷ back) ≡ front }
    ensures after { (byte : ℕ) (front back : List ℕ) → has_byte byte back ≡ false
        → after_last (λ b. b == byte) (front ++ byte ∷ back) ≡ back }
    ensures before_none { (byte : ℕ) (bytes : List ℕ) → has_byte byte bytes ≡ false
        → before_last (λ b. b == byte) bytes ≡ [] }
    ensures after_none { (byte : ℕ) (bytes : List ℕ) → has_byte byte bytes ≡ false
        → after_last (λ b. b == byte) bytes ≡ bytes }
{}

/// `M110` doesn't lie across a byte that isn't in it, nor if there is no `M`.
pub fn m110_law()
    ensures around { (byte : ℕ) (front back : List ℕ) → has_byte byte (codes "M110") ≡ false
        → has_m110 (front ++ byte ∷ back) ≡ (has_m110 front || has_m110 back) }
    ensures needs_m { (bytes : List ℕ) → has_byte 77 bytes ≡ false → has_m110 bytes ≡ false }
{}
