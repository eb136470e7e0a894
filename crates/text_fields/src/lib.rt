// Fields, lines and rows of the text into a lent buffer: whether they fit, and their bytes from a place on.

#![tactic(auto)]

ghost use Rattle.std.specs.Prelude.{◌≤◌, ◌≡◌, [], ◌∷◌, ◌++◌, length, map};
ghost use Rattle.answer_text.specs.Numbers.{decimal, signed};
ghost use Rattle.answer_text.specs.Lines.{parted};
ghost use Rattle.answer_text.specs.Answers.{side as side_text};
ghost use Rattle.text_fields.specs.Fields.{spelled, spelled_line, Spares};
ghost use Rattle.text_fields.specs.Writing.{Fits, Writes};

use itoa::Buffer;

pub mod table;

// What stands in a line: the word that an answer begins with, a missing side, or a number.
#[derive(Clone, Copy, Debug, PartialEq, Eq)]
pub enum Field {
    Join,
    Refused,
    Missing,
    Count(u64),
    Number(i64),
}

// How many digits a natural number has.
pub fn digits(n: u64) -> usize
    ensures { (result ≡ length (decimal n)) × (result ≤ 20) }
{
    match n.checked_ilog10() {
        Some(tens) => tens as usize + 1,
        None => 1,
    }
}

impl Field {
    // A side of a two-way row.
    pub fn side(value: Option<i32>) -> Field
        ensures { spelled result ≡ side_text value }
    {
        match value {
            Some(value) => Field::Number(i64::from(value)),
            None => Field::Missing,
        }
    }

    // How many bytes it takes.
    pub fn width(self) -> usize
        ensures { (result ≡ length (spelled self)) × (result ≤ 21) }
    {
        match self {
            Field::Join => 4,
            Field::Refused => 7,
            Field::Missing => 1,
            Field::Count(n) => digits(n),
            Field::Number(z) => digits(z.unsigned_abs()) + usize::from(z < 0),
        }
    }
}

// What a line leaves of some room, where it fits.
pub fn after_line(fields: &[Field], room: usize) -> Option<usize>
    ensures { Spares room (spelled_line fields.now) result }
{
    let mut spare = room.checked_sub(fields.len().max(1))?;
    for field in fields {
        spare = spare.checked_sub(field.width())?;
    }
    Some(spare)
}

// A lent buffer, which has a fixed room, as there is no heap, and the place up to which it is written.
#[derive(Drop)]
pub struct Writer<'a> {
    pub out: &'a mut [u8],
    pub at: usize,
}

impl Writer<'_> {
    // Writes a word. It and the others go on from the writer's place.
    pub fn word(&mut self, word: &[u8])
        requires { Fits self.old word.now }
        ensures { Writes self.old word.now self.new }
    {
        self.out[self.at..self.at + word.len()].copy_from_slice(word);
        self.at += word.len();
    }

    // One byte.
    pub fn byte(&mut self, byte: u8)
        requires { Fits self.old (byte ∷ []) }
        ensures { Writes self.old (byte ∷ []) self.new }
    {
        self.out[self.at] = byte;
        self.at += 1;
    }

    // A field, as it is spelled.
    pub fn field(&mut self, field: Field)
        requires { Fits self.old (spelled field) }
        ensures { Writes self.old (spelled field) self.new }
    {
        match field {
            Field::Join => self.word(b"join"),
            Field::Refused => self.word(b"refused"),
            Field::Missing => self.byte(b'-'),
            Field::Count(n) => self.word(Buffer::new().format(n).as_bytes()),
            Field::Number(z) => self.word(Buffer::new().format(z).as_bytes()),
        }
    }

    // Fields parted by one space.
    fn parted(&mut self, fields: &[Field])
        requires { Fits self.old (parted (map spelled fields.now)) }
        ensures { Writes self.old (parted (map spelled fields.now)) self.new }
    {
        if let Some((first, others)) = fields.split_first() {
            self.field(*first);
            for field in others {
                self.byte(b' ');
                self.field(*field);
            }
        }
    }

    // A line of fields.
    pub fn line(&mut self, fields: &[Field])
        requires { Fits self.old (spelled_line fields.now) }
        ensures { Writes self.old (spelled_line fields.now) self.new }
    {
        self.parted(fields);
        self.byte(b'\n');
    }
}
