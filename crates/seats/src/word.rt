//! Values of other types in words.
ghost use Rattle.std.specs.Prelude.{◌≡◌, ◌<◌, ◌^◌, ◌==◌, ℕ, ℤ, Bool, true, false, not, refl, if◌then◌else◌};
ghost use Rattle.std.specs.Int.{cast_signed, cast_unsigned};

/// A type whose values fit into a word. A word of which it isn't known that such a value was stored there is read as one, too.
pub trait Word {
    /// The word of a value.
    ghost word_of: { Self → ℕ };
    /// The value of a word.
    ghost value_of: { ℕ → Self };
    /// That it is a value of the type: a number within its range.
    ghost is_value: { Self → Type 0 };

    /// The value's word.
    fn to_word(self) -> u32
        ensures { result ≡ word_of self };

    /// The word's value.
    fn of_word(word: u32) -> Self
        ensures { result ≡ value_of word };

    /// What was stored is what is loaded.
    ghost same: { (x : Self) → is_value x → value_of (word_of x) ≡ x };
}

impl Word for u32 {
    ghost word_of = { λ x. x };

    ghost value_of = { λ n. n };

    ghost is_value = { λ x. x < 2 ^ 32 };

    fn to_word(self) -> u32 {
        self
    }

    fn of_word(word: u32) -> u32 {
        word
    }

    ghost same = { λ x fits. refl };
}

impl Word for i32 {
    ghost use Rattle.std.specs.Int.RustNames.{FitsSigned};
    ghost use Rattle.std.specs.Int.{w32};
    ghost use Rattle.std.proofs.lemmas.Int.{to_z-of_z};

    ghost word_of = { λ x. cast_unsigned w32 x };

    ghost value_of = { λ n. cast_signed w32 n };

    ghost is_value = { λ x. FitsSigned w32 x };

    fn to_word(self) -> u32 {
        self.cast_unsigned()
    }

    fn of_word(word: u32) -> i32 {
        word.cast_signed()
    }

    ghost same = { λ x fits. to_z-of_z w32 x fits };
}

impl Word for bool {
    ghost word_of = { λ x. if x then 1 else 0 };

    ghost value_of = { λ n. not (n == 0) };

    ghost is_value = { λ x. Unit {0} };

    fn to_word(self) -> u32 {
        u32::from(self)
    }

    fn of_word(word: u32) -> bool {
        word != 0
    }

    ghost same = { elim [ true ↦ λ fits. refl | false ↦ λ fits. refl ] };
}
