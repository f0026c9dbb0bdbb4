ghost use Rattle.std.specs.Prelude.{ℕ, List};
ghost use Rattle.std.specs.List.{AllByRecursion};
ghost use Rattle.sw_lsp_findings.specs.Settings.{KnownSetting};
ghost use Rattle.sw_lsp.specs.Law.{IsRightlyAnswered, IsRightlyShown, last_shown, last_text};
ghost use Rattle.sw_lsp.specs.Session.{Exchange, IsSession};
ghost use Rattle.sw_lsp.specs.Steps.{ServerState};

/// At each moment of a session, what was sent last to be shown for a document is what is found in
/// the last text that came for it. Nothing is shown for a document that is closed.
pub fn what_is_shown_was_found()
    ensures { (setting : KnownSetting) (came went : List ℕ) (talk : List Exchange)
        (s : ServerState) → IsSession setting came went talk s → (uri : List ℕ)
        → IsRightlyShown s.setting uri (last_text uri talk) (last_shown uri talk) }
{}

/// Each request of a session has one answer, which has its id. What can't be read has one without an
/// id, and nothing else has any.
pub fn requests_are_answered()
    ensures { (setting : KnownSetting) (came went : List ℕ) (talk : List Exchange)
        (s : ServerState) → IsSession setting came went talk s
        → AllByRecursion IsRightlyAnswered talk }
{}
