// The fields of a line that is printed, and its end, put on a page: a lent buffer, and the place of the next byte. The caller sees that there is room.
#![tactic(auto)]

ghost use Rattle.std.specs.Prelude.{◌≤◌, length, ◌≡◌, [], ◌∷◌};
ghost use Rattle.sheet.specs.Text.{comma, cr, lf};
ghost use Rattle.sheet.specs.Output.{numeral, decimal, fields_and_end, stop_word};
ghost use Rattle.fields.specs.Puts.{Fits, Puts};

use network::Stop;
use sheet::TEN;

// A lent buffer, and the place of the next byte.
#[derive(Drop)]
pub struct Page<'a> {
    pub out: &'a mut [u8],
    pub at: usize,
}

// How many digits a number has in a base; 0 has one, as 1 has.
pub fn number_length(base: u64, n: u64) -> usize
    requires { 2 ≤ base }
    ensures { result ≡ length (numeral base n) }
{
    n.max(1).ilog(base) as usize + 1
}

impl<'a> Page<'a> {
    // One byte.
    pub fn put_byte(&mut self, b: u8)
        requires { Fits self.old (b ∷ []) }
        ensures { Puts self.old (b ∷ []) self.new }
    {
        self.out[self.at] = b;
        self.at += 1;
    }

    // Bytes one after another.
    pub fn put_bytes(&mut self, bytes: &[u8])
        requires { Fits self.old bytes.now }
        ensures { Puts self.old bytes.now self.new }
    {
        let end = self.at + bytes.len();
        self.out[self.at..end].copy_from_slice(bytes);
        self.at = end;
    }

    // A number's digits, the last one first: how many there are says where it stands. The first is what is left: a number of one digit is not divided.
    pub fn put_number(&mut self, base: u64, n: u64)
        requires le_base { (2 ≤ base) × (base ≤ 10) }
        requires room { Fits self.old (numeral base n) }
        ensures { Puts self.old (numeral base n) self.new }
    {
        let at = self.at;
        let end = at + number_length(base, n);
        let mut rest = n;
        for i in (at + 1..end).rev() {
            self.out[i] = b'0' + (rest % base) as u8;
            rest /= base;
        }
        self.out[at] = b'0' + rest as u8;
        self.at = end;
    }

    // A further field that is a number.
    pub fn put_field(&mut self, n: u64)
        requires { Fits self.old (comma ∷ decimal n) }
        ensures { Puts self.old (comma ∷ decimal n) self.new }
    {
        self.put_byte(b',');
        self.put_number(TEN, n);
    }

    // The end of a line.
    pub fn put_end(&mut self)
        requires { Fits self.old (cr ∷ lf ∷ []) }
        ensures { Puts self.old (cr ∷ lf ∷ []) self.new }
    {
        self.put_bytes(b"\r\n");
    }

    // The start of a line: a letter and a number.
    pub fn put_head(&mut self, letter: u8, n: u64)
        requires { Fits self.old (letter ∷ comma ∷ decimal n) }
        ensures { Puts self.old (letter ∷ comma ∷ decimal n) self.new }
    {
        self.put_byte(letter);
        self.put_field(n);
    }

    // Why a Drain stopped, in a word.
    fn put_stop(&mut self, stop: Stop)
        requires { Fits self.old (stop_word stop) }
        ensures { Puts self.old (stop_word stop) self.new }
    {
        match stop {
            Stop::Emptied => self.put_bytes(b"emptied"),
            Stop::Spent => self.put_bytes(b"spent"),
            Stop::Full => self.put_bytes(b"full"),
        }
    }

    // The last field of a Drain's line, and its end.
    pub fn put_last(&mut self, stop: Stop)
        requires { Fits self.old (fields_and_end (stop_word stop ∷ [])) }
        ensures { Puts self.old (fields_and_end (stop_word stop ∷ [])) self.new }
    {
        self.put_byte(b',');
        self.put_stop(stop);
        self.put_end();
    }
}
