ghost use Rattle.std.specs.Prelude.{◌≡◌, ◌+◌, ℕ, List, [], ◌∷◌};
ghost use Rattle.sw_lsp_places.specs.Places.{line_in, character_in};
ghost use Rattle.sw_text.specs.Text.{line_of};

/// The line of a place is the one that messages show, counted from 0.
pub fn lines_are_those_of_messages()
    ensures { (text : List ℕ) (at : ℕ) → line_in text at + 1 ≡ line_of text at }
{}

/// Three characters in UTF-8 and what they count, as closed examples: U+00E9 has two bytes and one
/// unit of UTF-16, U+20AC three and one, U+1F600 four and two.
pub fn characters_have_their_units()
    ensures two_bytes { character_in (195 ∷ 169 ∷ []) 2 ≡ 1 }
    ensures three_bytes { character_in (226 ∷ 130 ∷ 172 ∷ []) 3 ≡ 1 }
    ensures four_bytes { character_in (240 ∷ 159 ∷ 152 ∷ 128 ∷ []) 4 ≡ 2 }
    // Behind U+1F600 and a carriage return and a line feed the second line begins.
    ensures next_line { (line_in (240 ∷ 159 ∷ 152 ∷ 128 ∷ 13 ∷ 10 ∷ 98 ∷ []) 7 ≡ 1)
        × (character_in (240 ∷ 159 ∷ 152 ∷ 128 ∷ 13 ∷ 10 ∷ 98 ∷ []) 7 ≡ 1) }
{}
