//! What holds of the text of every page.

ghost use Rattle.std.specs.Prelude.{◌≡◌, ◌≢◌, ◌∷◌, [], ℕ, List, not, true};
ghost use Rattle.std.specs.List.{list_all};
ghost use Rattle.chart_page.specs.Bars.{is_markup};
ghost use Rattle.chart_page.specs.Parts.{escaped, escaped_byte};

/// Text that stems from the tables stands in a page without a byte that begins or ends markup or the value of an attribute, and with
/// `&` only where it begins the reference to a character.
pub fn escaped_text_is_no_markup()
    ensures bytes { (text : List ℕ) → list_all (λ b. not (is_markup b)) (escaped text) ≡ true }
    ensures ampersands { (b : ℕ) → escaped_byte b ≡ b ∷ [] → b ≢ 38 }
{}
