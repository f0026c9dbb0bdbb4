//! What is known of the bytes before an offset.
use super::operators::is_opening_text;

/// What a token shows of the bytes before it.
#[derive(Clone, Copy)]
pub struct Before {
    /// Whether a token that begins here is the first of its line.
    pub is_first_on_line: bool,
    /// Whether the start, a gap or an opening mark stands directly before.
    pub is_white: bool,
    /// How many tokens stand before.
    pub count: usize,
}

impl Before {
    ghost use Rattle.std.specs.Prelude.{◌≡◌, ◌<◌, ◌^◌};
    ghost use Rattle.sw_token.specs.Tokens.{at_start, past_piece, past_token};

    pub fn at_start() -> Before
        ensures { result ≡ at_start }
    {
        Before {
            is_first_on_line: true,
            is_white: true,
            count: 0,
        }
    }

    #[tactic(auto, unfolding(crate::specs::Bytes::has_line_feed))]
    pub fn past_piece(self, piece: &[u8]) -> Before
        ensures { result ≡ past_piece self piece.now }
    {
        Before {
            is_first_on_line: self.is_first_on_line || piece.contains(&b'\n'),
            is_white: true,
            count: self.count,
        }
    }

    pub fn past_token(self, text: &[u8]) -> Before
        requires { self.count < 2 ^ 32 }
        ensures { result ≡ past_token self text.now }
    {
        Before {
            is_first_on_line: false,
            is_white: is_opening_text(text),
            count: self.count + 1,
        }
    }
}
