//! The documents whose texts are known.
ghost use Rattle.std.specs.Prelude.{◌≡◌, ◌==◌, [], IfOk, OnOk, find, option_map};
ghost use Rattle.std.specs.Str.{bytes_eq};
ghost use Rattle.sw_lsp.specs.Documents.{text_in, with_text, without};

use std::alloc::{AllocError, Global};
use std::marker::Model;

#[derive(Drop)]
struct Document {
    uri: String,
    text: String,
}

impl Model for Document {
    ghost use Rattle.std.specs.Prelude.{List, ℕ, string_bytes};

    ghost Value = { List ℕ × List ℕ };

    ghost view = { λ d. (string_bytes d.uri, string_bytes d.text) };
}

impl Document {
    fn new(alloc: Global, uri: &str, text: &str) -> Result<Document, AllocError>
        ensures { IfOk result (λ document. document ≡ (uri.now, text.now)) }
    {
        Ok(Document {
            uri: String::from_str(alloc, uri)?,
            text: String::from_str(alloc, text)?,
        })
    }

    fn has_uri(&self, uri: &str) -> bool
        ensures { result ≡ bytes_eq self.now.0 uri.now }
    {
        self.uri.as_str() == uri
    }

    fn text(&self) -> &str
        ensures { result.now ≡ self.now.1 }
    {
        self.text.as_str()
    }
}

/// Documents, each with its address and its text.
#[derive(Drop)]
pub struct Documents {
    items: Vec<Document>,
}

impl Model for Documents {
    ghost use Rattle.sw_lsp.specs.Documents.{KnownDocuments};

    ghost Value = { KnownDocuments };

    ghost view = { λ d. d.items.items };
}

impl Documents {
    pub fn new(alloc: Global) -> Documents
        ensures { result ≡ [] }
    {
        Documents {
            items: Vec::new(alloc),
        }
    }

    /// The text of the document of this address.
    pub fn text_of(&self, uri: &str) -> Option<&str>
        ensures { option_map (λ text. text.now) result ≡ text_in uri.now self.now }
    {
        let document = first_at(&self.items, uri)?;
        Some(document.text())
    }

    /// Forgets the document of this address.
    pub fn forget(&mut self, uri: &str)
        ensures { self.new ≡ without uri.now self.old }
    {
        keep_others(&mut self.items, uri);
    }

    /// Keeps this text of the document, in the place of an earlier one.
    pub fn keep(&mut self, alloc: Global, uri: &str, text: &str) -> Result<(), AllocError>
        ensures { OnOk result (self.new ≡ with_text uri.now text.now self.old) }
    {
        let document = Document::new(alloc, uri, text)?;
        keep_others(&mut self.items, uri);
        self.items.push(document)?;
        Ok(())
    }
}

fn first_at<'d>(documents: &'d [Document], uri: &str) -> Option<&'d Document>
    ensures { option_map (λ document. document.now) result
        ≡ find (λ document. bytes_eq document.0 uri.now) documents.now }
{
    documents.iter().find(|document| document.has_uri(uri))
}

fn keep_others(documents: &mut Vec<Document>, uri: &str)
    ensures { documents.new.items ≡ without uri.now documents.old.items }
{
    documents.retain(|document| !document.has_uri(uri));
}
