ghost use Rattle.std.specs.Prelude.{position, bytes_eq, ◌≡◌, ◌<◌, ◌++◌, [], ◌∷◌, length, slice_index_or, string_bytes, IfOk, OnOk, OnErr};
ghost use Rattle.book_outer.specs.Forms.Store.{entries, entry_at, with_bytes};

use book_text::Memory;
use std::alloc::Global;
use std::marker::Model;

/// A file of a folder in memory.
#[derive(Drop)]
struct File {
    name: String,
    bytes: Vec<u8>,
}

impl File {
    // A file with copies of these.
    fn copied(alloc: Global, name: &str, bytes: &[u8]) -> Result<File, Memory>
        ensures name { IfOk result (λ file. string_bytes file.name ≡ name.now) }
        ensures bytes { IfOk result (λ file. file.bytes.items ≡ bytes.now) }
    {
        Ok(File {
            name: String::from_str(alloc, name)?,
            bytes: bytes.to_vec(alloc)?,
        })
    }
}

/// Files for a folder in memory, each with its name.
#[derive(Drop)]
pub struct Files {
    alloc: Global,
    items: Vec<File>,
}

impl Model for Files {
    ghost use Rattle.std.specs.Prelude.{List, map, string_bytes};
    ghost use Rattle.book_outer.specs.Files.{FileEntry};

    ghost Value = { List FileEntry };

    ghost view = { λ f. map (λ file. record { name = string_bytes file.name; bytes = file.bytes.items }) f.items.items };
}

impl Files {
    /// No files. It takes no memory.
    pub fn new(alloc: Global) -> Files
        ensures { result ≡ [] }
    {
        Files {
            alloc,
            items: Vec::new(alloc),
        }
    }

    /// Adds a file. On want of memory the list is as before.
    pub fn push(&mut self, name: &str, bytes: &[u8]) -> Result<(), Memory>
        ensures pushed { OnOk result (self.new ≡ self.old ++ record { name = name.now; bytes = bytes.now } ∷ []) }
        ensures kept { OnErr result (self.new ≡ self.old) }
    {
        Ok(self.items.push(File::copied(self.alloc, name, bytes)?)?)
    }
}

impl Files {
    ghost use Rattle.std.specs.Prelude.{None, MatchOption};
    ghost use Rattle.book_outer.specs.Files.{content, with_content};
    ghost use Rattle.book_outer.specs.Forms.Store.{IsNamed};

    /// Which file is the first of that name.
    pub(crate) fn find(&self, name: &str) -> Option<usize>
        ensures { MatchOption result (content self.now name.now ≡ None) (IsNamed self.now name.now) }
    {
        position_of(&self.items, name)
    }

    /// What the file of a number holds.
    pub(crate) fn bytes(&self, at: usize) -> &[u8]
        requires { at < length self.now }
        ensures { result.now ≡ (entry_at self.now at).bytes }
    {
        &self.items[at].bytes
    }

    /// Makes the file of that name empty, or adds one, and says where it stands.
    pub(crate) fn create(&mut self, name: &str) -> Result<usize, Memory>
        ensures created { OnOk result (self.new ≡ with_content self.old name.now []) }
        ensures nth { IfOk result (IsNamed self.new name.now) }
        ensures kept { OnErr result (self.new ≡ self.old) }
    {
        match self.find(name) {
            Some(at) => {
                self.empty(at);
                Ok(at)
            }
            None => {
                let at = self.len();
                self.push(name, &[])?;
                Ok(at)
            }
        }
    }

    fn len(&self) -> usize
        ensures { result ≡ length self.now }
    {
        self.items.len()
    }

    fn empty(&mut self, at: usize)
        requires { at < length self.old }
        ensures { self.new ≡ with_bytes self.old at [] }
    {
        empty_at(&mut self.items, at);
    }

    /// Puts bytes behind those of the file of a number. On want of memory the files are as before.
    pub(crate) fn extend(&mut self, at: usize, bytes: &[u8]) -> Result<(), Memory>
        requires { at < length self.old }
        ensures extended { OnOk result (self.new ≡ with_bytes self.old at ((entry_at self.old at).bytes ++ bytes.now)) }
        ensures kept { OnErr result (self.new ≡ self.old) }
    {
        extend_at(&mut self.items, at, bytes)
    }
}

fn position_of(files: &[File], name: &str) -> Option<usize>
    ensures { result ≡ position (λ file. bytes_eq (string_bytes file.name) name.now) files.now }
{
    files.iter().position(|file| file.name.as_str() == name)
}

fn empty_at(files: &mut [File], at: usize)
    requires { at < length files.old }
    ensures { entries files.new ≡ with_bytes (entries files.old) at [] }
{
    files[at].bytes.clear();
}

fn extend_at(files: &mut [File], at: usize, bytes: &[u8]) -> Result<(), Memory>
    requires { at < length files.old }
    ensures extended { OnOk result (entries files.new ≡ with_bytes (entries files.old) at ((entry_at (entries files.old) at).bytes ++ bytes.now)) }
    ensures kept { OnErr result (entries files.new ≡ entries files.old) }
{
    Ok(files[at].bytes.extend_from_slice(bytes)?)
}

/// Numbers of calls, counted from 1.
#[derive(Drop)]
pub struct Calls {
    items: Vec<u64>,
}

impl Model for Calls {
    ghost use Rattle.std.specs.Prelude.{ℕ, List};

    ghost Value = { List ℕ };

    ghost view = { λ c. c.items.items };
}

impl Calls {
    /// No call. It takes no memory.
    pub fn new(alloc: Global) -> Calls
        ensures { result ≡ [] }
    {
        Calls {
            items: Vec::new(alloc),
        }
    }

    /// Adds the number of a call. On want of memory the list is as before.
    pub fn push(&mut self, item: u64) -> Result<(), Memory>
        ensures pushed { OnOk result (self.new ≡ self.old ++ item ∷ []) }
        ensures kept { OnErr result (self.new ≡ self.old) }
    {
        Ok(self.items.push(item)?)
    }

    /// The numbers.
    pub fn as_slice(&self) -> &[u64]
        ensures { result.now ≡ self.now }
    {
        &self.items
    }
}

/// The words of a command line. The first is the program's name.
#[derive(Drop)]
pub struct Words {
    alloc: Global,
    items: Vec<String>,
}

impl Model for Words {
    ghost use Rattle.std.specs.Prelude.{ℕ, List, map, string_bytes};

    ghost Value = { List (List ℕ) };

    ghost view = { λ w. map (λ word. string_bytes word) w.items.items };
}

impl Words {
    /// No words. It takes no memory.
    pub fn new(alloc: Global) -> Words
        ensures { result ≡ [] }
    {
        Words {
            alloc,
            items: Vec::new(alloc),
        }
    }

    /// Adds a word. On want of memory the list is as before.
    pub fn push(&mut self, word: &str) -> Result<(), Memory>
        ensures pushed { OnOk result (self.new ≡ self.old ++ word.now ∷ []) }
        ensures kept { OnErr result (self.new ≡ self.old) }
    {
        Ok(self.items.push(String::from_str(self.alloc, word)?)?)
    }

    /// How many words there are.
    pub fn len(&self) -> usize
        ensures { result ≡ length self.now }
    {
        self.items.len()
    }

    /// The word of a number, counted from 0.
    pub fn word(&self, at: usize) -> &str
        requires { at < length self.now }
        ensures { result.now ≡ slice_index_or self.now at [] }
    {
        self.items[at].as_str()
    }
}
