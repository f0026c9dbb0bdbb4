ghost use Rattle.std.specs.Prelude.{◌≡◌, ◌≢◌, ◌≤◌, ℕ, List, ◌++◌, length, take, drop};
ghost use Rattle.serde_json.specs.Data.{Data, depth};
ghost use Rattle.serde_json.specs.Read.{max_depth};
ghost use Rattle.sw_lsp_text.specs.Frames.{IsCut};
ghost use Rattle.sw_lsp_text.specs.Replies as reply;
ghost use Rattle.sw_lsp_text.specs.Sent.{IsFrame, header_of};
ghost use Rattle.sw_lsp_text.specs.declared.diagnostic.Action.{Action};
ghost use Rattle.sw_lsp_text.specs.declared.diagnostic.Diagnostic.{Diagnostic};
ghost use Rattle.sw_lsp_text.specs.declared.fault.Fault.{Fault};
ghost use Rattle.sw_lsp_text.specs.declared.frame.Cut.{Cut};
ghost use Rattle.sw_lsp_text.specs.declared.frame.Cut.TheVariants.{Partial, Whole};
ghost use Rattle.sw_lsp_text.specs.declared.place.Range.{Range};

/// The first cut of bytes is one. It stays whatever follows, unless more is to come: so frames
/// don't depend on how the stream comes in pieces.
pub fn cuts_stay()
    ensures one { (bytes : List ℕ) (a b : Cut) → IsCut bytes a → IsCut bytes b → a ≡ b }
    ensures stays { (bytes more : List ℕ) (cut : Cut) → cut ≢ Partial → IsCut bytes cut
        → IsCut (bytes ++ more) cut }
{}

/// What is sent is cut off as it was sent, whatever follows, if it isn't too long: the body of the
/// first frame is the one that was sent.
pub fn sent_frames_are_whole()
    ensures { (message : Data) (sent more : List ℕ) (frame : IsFrame message sent)
        → length frame.body ≤ 16777216
        → IsCut (sent ++ more) (Whole (length (header_of frame.body)) (length frame.body))
        × (take (length frame.body) (drop (length (header_of frame.body)) (sent ++ more))
        ≡ frame.body) }
{}

/// No reply to a request nests too deep to be read, where the id is a number, a text or null, which
/// nest no further. So the body of each reply's frame reads as the reply.
pub fn replies_are_shallow()
    ensures begun { (id : Data) → depth id ≡ 0 → depth (reply.begun id) ≤ max_depth }
    ensures nothing { (id : Data) → depth id ≡ 0 → depth (reply.nothing id) ≤ max_depth }
    ensures refused { (id : Data) → depth id ≡ 0 → (fault : Fault)
        → depth (reply.refused id fault) ≤ max_depth }
    ensures published { (uri : List ℕ) (found : List Diagnostic)
        → depth (reply.published uri found) ≤ max_depth }
    ensures reported { (id : Data) → depth id ≡ 0 → (found : List Diagnostic)
        → depth (reply.reported id found) ≤ max_depth }
    ensures hovered { (id : Data) → depth id ≡ 0 → (text : List ℕ) (at : Range)
        → depth (reply.hovered id text at) ≤ max_depth }
    ensures offered { (id : Data) → depth id ≡ 0 → (uri : List ℕ) (found : List Action)
        → depth (reply.offered id uri found) ≤ max_depth }
{}
