ghost use Rattle.std.specs.Prelude.{◌≡◌, List, ℕ, Some, None, [], ◌∷◌, ◌++◌, ◌<◌, length};
ghost use Rattle.std.specs.Prelude.{slice_index_or, slice_set, position, IfSome, IfNone, IfOk};
ghost use Rattle.std.specs.Prelude.{OnOk, OnErr, IsSome, ◌↔◌, ◌≤◌};
ghost use Rattle.std.specs.Str.{bytes_eq};
ghost use Rattle.sw_outside.specs.Shelf.{with_request, find_file, file_of, with_file};

use std::alloc::{AllocError, Global};
use std::marker::Model;

/// A name that a shelf keeps.
#[derive(Drop)]
struct Name {
    text: String,
}

impl Model for Name {
    ghost use Rattle.std.specs.Prelude.{List, ℕ, string_bytes};

    ghost Value = { List ℕ };

    ghost view = { λ n. string_bytes n.text };
}

impl Name {
    fn new(alloc: Global, text: &str) -> Result<Name, AllocError>
        ensures { IfOk result (λ name. name ≡ text.now) }
    {
        Ok(Name {
            text: String::from_str(alloc, text)?,
        })
    }
}

#[derive(Drop)]
struct StoredFile {
    name: String,
    bytes: Vec<u8>,
}

impl Model for StoredFile {
    ghost use Rattle.std.specs.Prelude.{List, ℕ, string_bytes};

    ghost Value = { List ℕ × List ℕ };

    ghost view = { λ f. (string_bytes f.name, f.bytes.items) };
}

impl StoredFile {
    fn new(alloc: Global, name: &str, bytes: &[u8]) -> Result<StoredFile, AllocError>
        ensures { IfOk result (λ file. file ≡ (name.now, bytes.now)) }
    {
        Ok(StoredFile {
            name: String::from_str(alloc, name)?,
            bytes: Vec::from_slice(alloc, bytes)?,
        })
    }

    fn has_name(&self, name: &str) -> bool
        ensures { result ≡ bytes_eq self.now.0 name.now }
    {
        self.name.as_str() == name
    }

    fn bytes(&self) -> &[u8]
        ensures { result.now ≡ self.now.1 }
    {
        self.bytes.as_slice()
    }
}

/// Files in memory, and the names that were requested.
#[derive(Drop)]
pub struct StoredFiles {
    alloc: Global,
    files: Vec<StoredFile>,
    requested: Vec<Name>,
}

impl Model for StoredFiles {
    ghost use Rattle.sw_outside.specs.Shelf.{KnownShelf};

    ghost Value = { KnownShelf };

    ghost view = { λ s. record { files = s.files.items; requested = s.requested.items } };
}

impl StoredFiles {
    /// No files. It keeps the allocator.
    pub fn new(alloc: Global) -> StoredFiles
        ensures { result ≡ record { files = []; requested = [] } }
    {
        StoredFiles {
            alloc,
            files: Vec::new(alloc),
            requested: Vec::new(alloc),
        }
    }

    /// The number of names that were requested.
    pub fn requests(&self) -> usize
        ensures { result ≡ length self.now.requested }
    {
        self.requested.len()
    }

    /// The bytes of the file of that name.
    pub fn find(&self, name: &str) -> Option<&[u8]>
        ensures found { IfSome result
            (λ bytes. find_file self.now.files name.now ≡ Some bytes.now) }
        ensures missing { IfNone result (find_file self.now.files name.now ≡ None) }
    {
        let at = index_of(&self.files, name)?;
        Some(self.files[at].bytes())
    }

    /// The bytes under that name, none where no file has it.
    #[tactic(auto, unfolding(crate::specs::Shelf::file_of))]
    pub fn file(&self, name: &str) -> &[u8]
        ensures { result.now ≡ file_of self.now.files name.now }
    {
        self.find(name).unwrap_or(&[])
    }

    /// Adds a file, or replaces the one of its name.
    pub fn add(&mut self, name: &str, bytes: &[u8]) -> Result<(), AllocError>
        ensures ok { OnOk result (self.new ≡ record self.old {
          files = with_file name.now bytes.now self.old.files;
        }) }
        ensures err { OnErr result (self.new ≡ self.old) }
    {
        let file = StoredFile::new(self.alloc, name, bytes)?;
        match index_of(&self.files, name) {
            Some(at) => self.files[at] = file,
            None => self.files.push(file)?,
        }
        Ok(())
    }

    /// Records a name that was requested.
    pub fn request(&mut self, name: &str) -> Result<(), AllocError>
        ensures ok { OnOk result (self.new ≡ with_request name.now self.old) }
        ensures err { OnErr result (self.new ≡ self.old) }
    {
        self.requested.push(Name::new(self.alloc, name)?)?;
        Ok(())
    }
}

/// The index of the file of that name, and what it says of the files.
fn index_of(files: &[StoredFile], name: &str) -> Option<usize>
    ensures there { IfSome result (λ i. i < length files.now) }
    ensures found { IfSome result
        (λ i. (d : List ℕ × List ℕ)
        → find_file files.now name.now ≡ Some (slice_index_or files.now i d).1) }
    ensures replaced { IfSome result
        (λ i. (bytes : List ℕ)
        → with_file name.now bytes files.now ≡ slice_set files.now i (name.now, bytes)) }
    ensures missing { IfNone result (find_file files.now name.now ≡ None) }
    ensures added { IfNone result
        ((bytes : List ℕ)
        → with_file name.now bytes files.now ≡ files.now ++ (name.now, bytes) ∷ []) }
{
    first_named(files, name)
}

/// The index of the first file of that name.
fn first_named(files: &[StoredFile], name: &str) -> Option<usize>
    ensures { result ≡ position (λ file. bytes_eq file.0 name.now) files.now }
{
    files.iter().position(|file| file.has_name(name))
}

/// A copy of bytes, unless they are more than the limit.
pub fn copy_within(alloc: Global, bytes: &[u8], limit: usize) -> Result<Option<Vec<u8>>, AllocError>
    ensures whole { IfOk result (λ copy. IfSome copy (λ copied. copied.items ≡ bytes.now)) }
    ensures within { IfOk result (λ copy. IsSome copy ↔ (length bytes.now ≤ limit)) }
{
    if bytes.len() > limit {
        return Ok(None);
    }
    Ok(Some(Vec::from_slice(alloc, bytes)?))
}
