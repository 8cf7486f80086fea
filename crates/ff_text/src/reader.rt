ghost use Rattle.std.specs.Prelude.{◌≡◌, ◌<◌, ◌+◌, ◌-◌, ◌^◌, ℕ, [], true, get_or, length, IsTrue};
ghost use Rattle.std.specs.List.{list_all};
ghost use Rattle.ff_contract.specs.Answering.{Answers};
ghost use Rattle.ff_text.specs.Bytes as bytes;
ghost use Rattle.ff_text.specs.Machine as machine;
ghost use Rattle.ff_text.specs.Machine.{Makes, MakesSome, HasDigit};

use crate::bytes::{
    Class, InStr, Slashed, class_of, high_digit, in_str_of, is_word_byte, low_digit, plain_front,
    slashed_of, word_front,
};
use crate::escaped::is_plain;
use crate::growing_list::{GrowingList, Stack, WordBytes};
use crate::items::{Items, Sexp, Span, TextFault};
use ff_name::{MOST_DEPTH, Text};
use std::alloc::Global;

/// A list that is open: where it begins, and the items that stand before it.
#[derive(Drop)]
pub(crate) struct Opened {
    from: u32,
    before: GrowingList<Sexp>,
}

/// Where the reader stands.
#[derive(Clone, Copy)]
pub(crate) enum Mode {
    /// Outside words and strings.
    Between,
    /// In a word that begins at this place.
    Word(u32),
    /// In a string whose mark is at this place.
    Str(u32),
    /// After the backslash, at the second place, in a string.
    Slash(u32, u32),
    /// After `\x`.
    Hex(u32, u32),
    /// After `\x` and a first digit of this value.
    Digit(u32, u32, u8),
}

/// What was read so far: the open lists, the items of the innermost, the number of bytes, and what
/// is begun.
#[derive(Drop)]
pub(crate) struct Reader {
    opened: Stack<Opened>,
    items: GrowingList<Sexp>,
    at: u32,
    mode: Mode,
    word: WordBytes,
    value: GrowingList<u8>,
}

impl Reader {
    /// A reader that puts its items where there are none yet.
    pub(crate) fn new(alloc: Global, items: GrowingList<Sexp>) -> Reader
        requires { items ≡ [] }
        ensures { result ≡ machine.start }
    {
        Reader {
            opened: Stack::new(alloc),
            items,
            at: 0,
            mode: Mode::Between,
            word: WordBytes::new(alloc),
            value: GrowingList::new(alloc),
        }
    }

    /// Reads some bytes from the front of all that are left: a word with the byte after it, a
    /// string without escapes, a run of a string's plain bytes, or else one byte. Answers how many.
    pub(crate) fn take_some(&mut self, alloc: Global, left: &[u8]) -> Result<usize, TextFault>
        requires some { 0 < length left.now }
        requires at { self.old.at + length left.now < 2 ^ 32 }
        requires digit { HasDigit self.old.mode }
        ensures { MakesSome result self.old self.new left.now }
    {
        match self.mode {
            Mode::Between if left[0] == b' ' => {
                self.at += 1;
                Ok(1)
            }
            Mode::Between if is_word_byte(left[0]) => self.take_word(alloc, left),
            Mode::Between if left[0] == b'"' => self.take_string(alloc, left),
            Mode::Str(_) if is_plain(left[0]) => self.take_plain(left),
            _ => {
                self.take(alloc, left[0])?;
                Ok(1)
            }
        }
    }

    /// Reads a word, and the byte after it, if there is one.
    fn take_word(&mut self, alloc: Global, left: &[u8]) -> Result<usize, TextFault>
        requires mode { self.old.mode ≡ Mode.Between }
        requires at { self.old.at + length left.now < 2 ^ 32 }
        requires some { 0 < length left.now }
        requires word { bytes.is_word_byte (get_or left.now 0 0) ≡ true }
        ensures { MakesSome result self.old self.new left.now }
    {
        let n = word_front(left);
        if !self.word.is_empty() {
            self.begin_run(&left[..n])?;
            return Ok(n);
        }
        self.put_word(alloc, &left[..n])?;
        if n == left.len() {
            return Ok(n);
        }
        if left[n] == b' ' {
            self.at += 1;
            return Ok(n + 1);
        }
        self.take_outside(alloc, left[n])?;
        Ok(n + 1)
    }

    /// Puts a word that ends.
    fn put_word(&mut self, alloc: Global, word: &[u8]) -> Result<(), TextFault>
        requires at { self.old.at + length word.now < 2 ^ 32 }
        requires word { IsTrue (list_all bytes.is_word_byte word.now) }
        ensures { Makes result self.new (Ok (machine.word_put self.old word.now)) }
    {
        let Ok(text) = Text::of_utf8(alloc, word) else {
            return Err(TextFault::NoMemory);
        };
        let from = self.at;
        self.at += word.len() as u32;
        self.put(Sexp::Word(Span { from, to: self.at }, text))
    }

    /// The bytes with which a word begins that may go on.
    fn begin_run(&mut self, run: &[u8]) -> Result<(), TextFault>
        requires at { self.old.at + length run.now < 2 ^ 32 }
        requires word { IsTrue (list_all bytes.is_word_byte run.now) }
        ensures { Makes result self.new (Ok (machine.word_run self.old run.now)) }
    {
        if self.word.extend(run).is_err() {
            return Err(TextFault::NoMemory);
        }
        self.mode = Mode::Word(self.at);
        self.at += run.len() as u32;
        Ok(())
    }

    /// Reads a string without escapes, or else the mark that opens one.
    fn take_string(&mut self, alloc: Global, left: &[u8]) -> Result<usize, TextFault>
        requires mode { self.old.mode ≡ Mode.Between }
        requires at { self.old.at + length left.now < 2 ^ 32 }
        requires some { 0 < length left.now }
        requires mark { get_or left.now 0 0 ≡ 34 }
        ensures { MakesSome result self.old self.new left.now }
    {
        let rest = &left[1..];
        let n = plain_front(rest);
        if n == rest.len() || rest[n] != b'"' || !self.value.is_empty() {
            self.take_outside(alloc, left[0])?;
            return Ok(1);
        }
        self.put_string(alloc, &rest[..n])?;
        Ok(n + 2)
    }

    /// Puts a string whose bytes stand for themselves.
    fn put_string(&mut self, alloc: Global, value: &[u8]) -> Result<(), TextFault>
        requires at { self.old.at + length value.now + 2 < 2 ^ 32 }
        ensures { Makes result self.new (machine.string_put self.old value.now) }
    {
        let text = match Text::of(alloc, value) {
            Ok(Some(text)) => text,
            Ok(None) => return Err(TextFault::BadUtf8(self.at)),
            Err(_) => return Err(TextFault::NoMemory),
        };
        let from = self.at;
        self.at += value.len() as u32 + 2;
        self.put(Sexp::Str(Span { from, to: self.at }, text))
    }

    /// Reads the bytes at the front that stand for themselves in a string.
    fn take_plain(&mut self, left: &[u8]) -> Result<usize, TextFault>
        requires mode { (from : ℕ) × (self.old.mode ≡ Mode.Str from) }
        requires at { self.old.at + length left.now < 2 ^ 32 }
        requires some { 0 < length left.now }
        requires plain { bytes.is_plain_byte (get_or left.now 0 0) ≡ true }
        ensures { MakesSome result self.old self.new left.now }
    {
        let n = plain_front(left);
        if self.value.extend(&left[..n]).is_err() {
            return Err(TextFault::NoMemory);
        }
        self.at += n as u32;
        Ok(n)
    }

    /// Reads one byte.
    #[tactic(auto, unfolding(crate::specs::Machine::step))]
    pub(crate) fn take(&mut self, alloc: Global, b: u8) -> Result<(), TextFault>
        requires at { self.old.at < 2 ^ 32 - 1 }
        requires digit { HasDigit self.old.mode }
        ensures { Makes result self.new (machine.step self.old b) }
    {
        match self.mode {
            Mode::Between => self.take_outside(alloc, b),
            Mode::Word(from) => self.take_in_word(alloc, from, b),
            Mode::Str(from) => self.take_in_str(alloc, from, b),
            Mode::Slash(from, slash) => self.take_slashed(from, slash, b),
            Mode::Hex(from, slash) => self.take_high(from, slash, b),
            Mode::Digit(from, slash, high) => self.take_low(from, slash, high, b),
        }
    }

    /// A byte outside words and strings.
    fn take_outside(&mut self, alloc: Global, b: u8) -> Result<(), TextFault>
        requires { self.old.at < 2 ^ 32 - 1 }
        ensures { Makes result self.new (machine.outside self.old b) }
    {
        match class_of(b) {
            Class::Blank => {
                self.at += 1;
                Ok(())
            }
            Class::Open => self.open(alloc),
            Class::Close => self.close(alloc),
            Class::Quote => {
                self.mode = Mode::Str(self.at);
                self.at += 1;
                Ok(())
            }
            Class::InWord => self.begin_word(b),
            Class::Stray => Err(TextFault::BadByte(self.at)),
        }
    }

    fn begin_word(&mut self, b: u8) -> Result<(), TextFault>
        requires at { self.old.at < 2 ^ 32 - 1 }
        requires word { IsTrue (bytes.is_word_byte b) }
        ensures { Makes result self.new (Ok (machine.word_begun self.old b)) }
    {
        if self.word.push(b).is_err() {
            return Err(TextFault::NoMemory);
        }
        self.mode = Mode::Word(self.at);
        self.at += 1;
        Ok(())
    }

    fn open(&mut self, alloc: Global) -> Result<(), TextFault>
        requires { self.old.at < 2 ^ 32 - 1 }
        ensures { Makes result self.new (machine.open_list self.old) }
    {
        if self.opened.len() >= MOST_DEPTH {
            return Err(TextFault::TooDeep(self.at));
        }
        let before = self.items.take(alloc);
        let opened = Opened {
            from: self.at,
            before,
        };
        if self.opened.push(opened).is_err() {
            return Err(TextFault::NoMemory);
        }
        self.at += 1;
        Ok(())
    }

    fn close(&mut self, alloc: Global) -> Result<(), TextFault>
        requires { self.old.at < 2 ^ 32 - 1 }
        ensures { Makes result self.new (machine.close_list self.old) }
    {
        let Some(opened) = self.opened.pop() else {
            return Err(TextFault::Extra(self.at));
        };
        let Opened { from, before } = opened;
        let span = Span {
            from,
            to: self.at + 1,
        };
        let parts = self.items.take(alloc).list();
        self.items = before;
        self.at += 1;
        self.put(Sexp::List(span, parts))
    }

    /// Puts an item last.
    fn put(&mut self, item: Sexp) -> Result<(), TextFault>
        ensures { Makes result self.new (Ok (machine.with_item self.old item)) }
    {
        if self.items.push(item).is_err() {
            return Err(TextFault::NoMemory);
        }
        Ok(())
    }

    fn take_in_word(&mut self, alloc: Global, from: u32, b: u8) -> Result<(), TextFault>
        requires { self.old.at < 2 ^ 32 - 1 }
        ensures { Makes result self.new (machine.in_word self.old from b) }
    {
        match class_of(b) {
            Class::InWord => self.lengthen_word(b),
            _ => {
                self.end_word(alloc, from)?;
                self.take_outside(alloc, b)
            }
        }
    }

    fn lengthen_word(&mut self, b: u8) -> Result<(), TextFault>
        requires at { self.old.at < 2 ^ 32 - 1 }
        requires word { IsTrue (bytes.is_word_byte b) }
        ensures { Makes result self.new (Ok (machine.word_longer self.old b)) }
    {
        if self.word.push(b).is_err() {
            return Err(TextFault::NoMemory);
        }
        self.at += 1;
        Ok(())
    }

    fn end_word(&mut self, alloc: Global, from: u32) -> Result<(), TextFault>
        ensures { Makes result self.new (Ok (machine.word_ended self.old from)) }
    {
        let Ok(text) = self.word.take(alloc) else {
            return Err(TextFault::NoMemory);
        };
        self.mode = Mode::Between;
        let span = Span { from, to: self.at };
        self.put(Sexp::Word(span, text))
    }

    fn take_in_str(&mut self, alloc: Global, from: u32, b: u8) -> Result<(), TextFault>
        requires { self.old.at < 2 ^ 32 - 1 }
        ensures { Makes result self.new (machine.in_str self.old from b) }
    {
        match in_str_of(b) {
            InStr::Mark => self.end_str(alloc, from),
            InStr::Backslash => {
                self.mode = Mode::Slash(from, self.at);
                self.at += 1;
                Ok(())
            }
            InStr::Control => Err(TextFault::BadByte(self.at)),
            InStr::Plain => self.put_byte(from, b),
        }
    }

    fn end_str(&mut self, alloc: Global, from: u32) -> Result<(), TextFault>
        requires { self.old.at < 2 ^ 32 - 1 }
        ensures { Makes result self.new (machine.end_str self.old from) }
    {
        let text = match Text::of(alloc, self.value.as_slice()) {
            Ok(Some(text)) => text,
            Ok(None) => return Err(TextFault::BadUtf8(from)),
            Err(_) => return Err(TextFault::NoMemory),
        };
        self.value.clear();
        self.mode = Mode::Between;
        self.at += 1;
        let span = Span { from, to: self.at };
        self.put(Sexp::Str(span, text))
    }

    /// Puts a byte last into the value of the string.
    fn put_byte(&mut self, from: u32, b: u8) -> Result<(), TextFault>
        requires { self.old.at < 2 ^ 32 - 1 }
        ensures { Makes result self.new (Ok (machine.with_byte self.old from b)) }
    {
        if self.value.push(b).is_err() {
            return Err(TextFault::NoMemory);
        }
        self.mode = Mode::Str(from);
        self.at += 1;
        Ok(())
    }

    fn take_slashed(&mut self, from: u32, slash: u32, b: u8) -> Result<(), TextFault>
        requires { self.old.at < 2 ^ 32 - 1 }
        ensures { Makes result self.new (machine.after_slash self.old from slash b) }
    {
        match slashed_of(b) {
            Slashed::Short(value) => self.put_byte(from, value),
            Slashed::Hex => {
                self.mode = Mode::Hex(from, slash);
                self.at += 1;
                Ok(())
            }
            Slashed::Wrong => Err(TextFault::BadEscape(slash)),
        }
    }

    fn take_high(&mut self, from: u32, slash: u32, b: u8) -> Result<(), TextFault>
        requires { self.old.at < 2 ^ 32 - 1 }
        ensures { Makes result self.new (machine.after_hex self.old from slash b) }
    {
        match high_digit(b) {
            Some(high) => {
                self.mode = Mode::Digit(from, slash, high);
                self.at += 1;
                Ok(())
            }
            None => Err(TextFault::BadEscape(slash)),
        }
    }

    fn take_low(&mut self, from: u32, slash: u32, high: u8, b: u8) -> Result<(), TextFault>
        requires at { self.old.at < 2 ^ 32 - 1 }
        requires digit { high < 8 }
        ensures { Makes result self.new (machine.after_digit self.old from slash high b) }
    {
        match low_digit(b) {
            Some(low) => self.put_byte(from, 16 * high + low),
            None => Err(TextFault::BadEscape(slash)),
        }
    }

    /// The items, where the text ends here.
    #[tactic(auto, unfolding(crate::specs::Machine::finish))]
    pub(crate) fn end(mut self, alloc: Global) -> Result<Items, TextFault>
        ensures { Answers result (machine.finish self) (Err TextFault.NoMemory) }
    {
        match self.mode {
            Mode::Between => self.end_items(),
            Mode::Word(from) => {
                self.end_word(alloc, from)?;
                self.end_items()
            }
            Mode::Str(from) | Mode::Slash(from, _) | Mode::Hex(from, _) | Mode::Digit(from, _, _) =>
                { Err(TextFault::Unclosed(from)) }
        }
    }

    fn end_items(self) -> Result<Items, TextFault>
        ensures { Answers result (machine.end_items self) (Err TextFault.NoMemory) }
    {
        if let Some(opened) = self.opened.top() {
            return Err(TextFault::Unclosed(opened.from));
        }
        Ok(self.items.list())
    }
}
