//! A law of the lists that the store answers.
ghost use Rattle.std.specs.Prelude.{◌≡◌, ℕ, true, List};
ghost use Rattle.s2_rowstore.specs.Lines.{names_row};
ghost use Rattle.s2_rowstore.specs.Visible.{are_rising};

/// Two rising lists that name the same row numbers are one list.
pub fn rising_lists_are_one()
    ensures { (ms ns : List ℕ) → are_rising ms ≡ true → are_rising ns ≡ true → ((n : ℕ) → names_row ms n ≡ names_row ns n) → ms ≡ ns }
{}
