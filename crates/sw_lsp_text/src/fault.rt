//! What may be wrong with a message, as the protocol names it.
ghost use Rattle.std.specs.Prelude.{◌≡◌};
ghost use Rattle.sw_lsp_text.specs.Faults.{fault_code, fault_text};

/// Why a request has no result.
#[derive(Clone, Copy)]
pub enum Fault {
    /// The body is no JSON, or one that nests deeper than 127 levels.
    NoJson,
    /// The JSON is no message, or one that may not be sent now.
    NoRequest,
    /// The method isn't known.
    NoMethod,
    /// The parameters lack what they must have.
    BadParams,
    /// The request comes before the one to begin.
    NotInitialized,
    /// The server can't answer.
    Internal,
}

impl Fault {
    /// The protocol's number for it.
    pub fn code(self) -> i32
        ensures { result ≡ fault_code self }
    {
        match self {
            Fault::NoJson => -32700,
            Fault::NoRequest => -32600,
            Fault::NoMethod => -32601,
            Fault::BadParams => -32602,
            Fault::NotInitialized => -32002,
            Fault::Internal => -32603,
        }
    }

    /// What is wrong, for the client's user.
    pub fn text(self) -> &'static str
        ensures { result.now ≡ fault_text self }
    {
        match self {
            Fault::NoJson => "the message is no JSON",
            Fault::NoRequest => "the message is no request that may be sent now",
            Fault::NoMethod => "the method isn't known",
            Fault::BadParams => "the parameters lack what they must have",
            Fault::NotInitialized => "the server isn't initialized",
            Fault::Internal => "the server can't answer",
        }
    }
}
