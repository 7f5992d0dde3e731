// A sentence, put together in a buffer so that it goes out in one write. What finds no room is left out.
ghost use Rattle.std.specs.Prelude.{◌≤◌};
ghost use Rattle.said.specs.declared.note.TheConstants.{ROOM};

use sentence::MAX_SENTENCE;
use text::inner::put_any_number;

// The descriptor of standard error.
const STDERR_FILENO: i32 = 2;

// Room for any sentence.
pub const ROOM: usize = 2048;

// The most bytes of a text that are shown, and the most digits that a number has.
const SHOWN: usize = 100;

const MAX_DIGITS: usize = 20;

// The digits in base 16, of which a byte has two.
const HALVES: [u8; 16] = *b"0123456789abcdef";

// A sentence as far as it is put together.
#[derive(Drop)]
pub struct Note {
    text: [u8; ROOM],
    size: usize,
    ghost fits: { size ≤ ROOM },
}

impl Note {
    // Nothing yet.
    pub fn new() -> Note {
        Note {
            text: [0; ROOM],
            size: 0,
        }
    }

    // A file's name.
    pub fn of(file: &[u8]) -> Note {
        let mut note = Note::new();
        note.shown(file);
        note
    }

    // `file, line N: ` before a sentence.
    pub fn at_line(file: &[u8], line: u64) -> Note {
        let mut note = Note::of(file);
        note.words(b", line ");
        note.number(line);
        note.words(b": ");
        note
    }

    // One byte.
    pub fn byte(&mut self, b: u8) {
        if self.size < ROOM {
            self.text[self.size] = b;
            self.size += 1;
        }
    }

    // A text as it stands.
    pub fn words(&mut self, text: &[u8]) {
        let n = text.len().min(ROOM - self.size);
        let end = self.size + n;
        self.text[self.size..end].copy_from_slice(&text[..n]);
        self.size = end;
    }

    // A number.
    pub fn number(&mut self, n: u64) {
        let mut digits = [0u8; MAX_DIGITS];
        let size = put_any_number(&mut digits, 0, n);
        self.words(&digits[..size]);
    }

    // The number of what stands behind k others.
    pub fn ordinal(&mut self, k: usize) {
        self.number((k as u64).saturating_add(1));
    }

    // A level of a network, with its three decimals.
    pub fn thousandths(&mut self, v: u32) {
        self.number((v / 1000) as u64);
        self.byte(b'.');
        self.byte(b'0' + (v / 100 % 10) as u8);
        self.byte(b'0' + (v / 10 % 10) as u8);
        self.byte(b'0' + (v % 10) as u8);
    }

    // A byte of a text: as \xNN where it can't be printed.
    fn shown_byte(&mut self, b: u8) {
        match b {
            32..=126 => self.byte(b),
            _ => {
                self.words(b"\\x");
                self.byte(HALVES[(b / 16) as usize]);
                self.byte(HALVES[(b % 16) as usize]);
            }
        }
    }

    // A text of a file, as it can be shown: cut after its first 100 bytes.
    pub fn shown(&mut self, text: &[u8]) {
        for b in text.iter().take(SHOWN) {
            self.shown_byte(*b);
        }
        if SHOWN < text.len() {
            self.words(b"..");
        }
    }

    // The general sentence of a refusal.
    pub fn general(&mut self, refusal: u32) {
        let mut room = [0u8; MAX_SENTENCE];
        let n = sentence::put_sentence(&mut room, refusal);
        self.words(&room[..n]);
    }

    // The end of a refusal's sentence: its number, and below it the line that it is about, unless that has no bytes.
    pub fn end(mut self, refusal: u32, line: &[u8]) {
        self.words(b" (");
        self.number(refusal as u64);
        self.words(b")\n");
        if !line.is_empty() {
            self.words(b"    ");
            self.shown(line);
            self.byte(b'\n');
        }
        self.send();
    }

    // The one write.
    pub fn send(&self) {
        io::write_all(STDERR_FILENO, &self.text[..self.size]);
    }
}

// Standard input can't be read on from a line.
pub fn unread(file: &[u8], line: u64, refusal: u32) {
    let mut note = Note::at_line(file, line);
    note.words(b"standard input can't be read on");
    note.end(refusal, b"");
}
