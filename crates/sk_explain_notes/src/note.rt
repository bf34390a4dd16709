//! Text for people.
ghost use Rattle.std.specs.Prelude.{◌≡◌, ◌++◌, [], ◌∷◌, map, decimal, true, IsTrue, OnOk};
ghost use Rattle.std.specs.List.{list_all, flat_map};
ghost use Rattle.sk_explain_places.specs.Spots.{place_text};
ghost use Rattle.sk_explain_notes.specs.Notes.{is_plain, is_note, plain};

use itoa::Buffer;
use sk_explain_places::Place;
use std::alloc::{AllocError, Global};

/// Text for people: printable ASCII and line feeds.
#[derive(Debug, Drop)]
pub struct Note {
    bytes: Vec<u8>,
    ghost plain: { list_all is_note bytes.items ≡ true },
}

/// A byte as a note has it: a question mark for each that is no printable ASCII.
fn plain(byte: u8) -> u8
    ensures value { result ≡ plain byte }
    ensures note { IsTrue (is_note result) }
{
    if 32 <= byte && byte <= 126 {
        byte
    } else {
        b'?'
    }
}

impl Note {
    /// A note that says nothing. It takes no memory.
    pub fn new(alloc: Global) -> Note
        ensures { result.bytes.items ≡ [] }
    {
        Note {
            bytes: Vec::new(alloc),
        }
    }

    /// What it says.
    pub fn as_bytes(&self) -> &[u8]
        ensures value { result.now ≡ self.now.bytes.items }
        ensures plain { IsTrue (list_all is_note result.now) }
    {
        self.bytes.as_slice()
    }

    /// Appends a byte that a note may have.
    #[tactic(auto, using(crate::proofs::NoteLemmas::all_pushed))]
    fn put(&mut self, byte: u8) -> Result<(), AllocError>
        requires { IsTrue (is_note byte) }
        ensures { OnOk result (self.new.bytes.items ≡ self.old.bytes.items ++ byte ∷ []) }
    {
        self.bytes.push(byte)?;
        Ok(())
    }

    /// Appends a word: a question mark for each byte that is no printable ASCII. After a refusal the note is given up: nothing
    /// is told.
    pub fn word(&mut self, word: &[u8]) -> Result<(), AllocError>
        ensures { OnOk result (self.new.bytes.items ≡ self.old.bytes.items ++ map plain word.now) }
    {
        for byte in word {
            self.put(plain(*byte))?;
        }
        Ok(())
    }

    /// Appends words, one directly behind another. After a refusal the note is given up: nothing is told.
    pub fn say(&mut self, words: &[&[u8]]) -> Result<(), AllocError>
        ensures { OnOk result (self.new.bytes.items ≡ self.old.bytes.items ++ flat_map (λ word. map plain word.now) words.now) }
    {
        for word in words {
            self.word(*word)?;
        }
        Ok(())
    }

    /// Appends a number in decimal. After a refusal the note is given up: nothing is told.
    #[tactic(auto, using(crate::proofs::NoteLemmas::plain_decimal))]
    pub fn number(&mut self, number: u64) -> Result<(), AllocError>
        ensures { OnOk result (self.new.bytes.items ≡ self.old.bytes.items ++ decimal number) }
    {
        let mut buffer = Buffer::new();
        self.word(buffer.format(number).as_bytes())?;
        Ok(())
    }

    /// Appends the numbers of a place, as `LINE:COLUMN`. After a refusal the note is given up: nothing is told.
    pub fn place(&mut self, place: Place) -> Result<(), AllocError>
        ensures { OnOk result (self.new.bytes.items ≡ self.old.bytes.items ++ place_text place) }
    {
        self.number(place.line as u64)?;
        self.word(b":")?;
        self.number(place.column as u64)?;
        Ok(())
    }

    /// Ends a line. After a refusal the note is given up: nothing is told.
    pub fn end(&mut self) -> Result<(), AllocError>
        ensures { OnOk result (self.new.bytes.items ≡ self.old.bytes.items ++ 10 ∷ []) }
    {
        self.put(b'\n')
    }

    /// Appends words, and ends the line. After a refusal the note is given up: nothing is told.
    pub fn line(&mut self, words: &[&[u8]]) -> Result<(), AllocError>
        ensures { OnOk result (self.new.bytes.items ≡ self.old.bytes.items ++ flat_map (λ word. map plain word.now) words.now ++ 10 ∷ []) }
    {
        self.say(words)?;
        self.end()?;
        Ok(())
    }
}

/// What there is to tell: a title of one line, without its end, and lines behind it.
#[derive(Debug, Drop)]
pub struct Told {
    pub title: Note,
    pub notes: Note,
}

impl Told {
    /// Nothing to tell.
    pub fn new(alloc: Global) -> Told
        ensures title { result.title.bytes.items ≡ [] }
        ensures notes { result.notes.bytes.items ≡ [] }
    {
        Told {
            title: Note::new(alloc),
            notes: Note::new(alloc),
        }
    }

    /// Appends words to the title. After a refusal the notes are as they were (`notes`), and the title is given up: nothing is
    /// told.
    pub fn title(&mut self, words: &[&[u8]]) -> Result<(), AllocError>
        ensures title { OnOk result (self.new.title.bytes.items ≡ self.old.title.bytes.items ++ flat_map (λ word. map plain word.now) words.now) }
        ensures notes { self.new.notes ≡ self.old.notes }
    {
        self.title.say(words)?;
        Ok(())
    }

    /// Appends a line to the notes. After a refusal the title is as it was (`title`), and the notes are given up: nothing is
    /// told.
    pub fn note(&mut self, words: &[&[u8]]) -> Result<(), AllocError>
        ensures notes { OnOk result (self.new.notes.bytes.items ≡ self.old.notes.bytes.items ++ flat_map (λ word. map plain word.now) words.now ++ 10 ∷ []) }
        ensures title { self.new.title ≡ self.old.title }
    {
        self.notes.line(words)?;
        Ok(())
    }
}
