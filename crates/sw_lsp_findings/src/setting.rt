//! How texts are judged and shown.
ghost use Rattle.std.specs.Prelude.{◌≡◌, option_map, string_bytes};
ghost use Rattle.sw_lsp_findings.specs.Settings.{default_by};

use std::marker::Model;
use sw_decls::AsyncDefault;

/// Where asynchronous functions without an annotation run, and the address of the page of codes, if
/// there is one. Contracts see both.
#[derive(Drop)]
pub struct Setting {
    default: AsyncDefault,
    pages: Option<String>,
}

impl Model for Setting {
    ghost use Rattle.std.specs.Prelude.{option_map, string_bytes};
    ghost use Rattle.sw_lsp_findings.specs.Settings.{KnownSetting};

    ghost Value = { KnownSetting };

    ghost view = { λ s. record { default = s.default; pages = option_map string_bytes s.pages } };
}

impl Setting {
    /// The default of SE-0338.
    pub fn new(pages: Option<String>) -> Setting
        ensures { result ≡ record { default = AsyncDefault.Concurrent; pages = option_map string_bytes pages } }
    {
        Setting {
            default: AsyncDefault::Concurrent,
            pages,
        }
    }

    /// Takes the default of SE-0461, or that of SE-0338.
    pub fn set_default(&mut self, nonsending: bool)
        ensures { self.new ≡ record self.old { default = default_by nonsending } }
    {
        self.default = if nonsending {
            AsyncDefault::Caller
        } else {
            AsyncDefault::Concurrent
        };
    }

    /// Where asynchronous functions without an annotation run.
    pub fn default(&self) -> AsyncDefault
        ensures { result ≡ self.now.default }
    {
        self.default
    }

    pub(crate) fn pages(&self) -> &Option<String>
        ensures { option_map string_bytes result.now ≡ self.now.pages }
    {
        &self.pages
    }
}
