// The input as a stream with one byte of lookahead, and what a line is made of: spaces, words, numbers, bytes.
//
// A line is taken on past a mistake: a parser takes all its words, and only then asks for each with `?`, in their order. So the first
// mistake is told, and a read that fails meanwhile is told in its place (`end_line`).
ghost use Rattle.std.specs.Prelude.{◌≡◌, ◌-◌, ◌≤◌, ◌<◌, length, IfOk, IfSome, IsErrOf, IsTrue, OnErr, OnOk, false};

use crate::why::Why;
use std::io;
use std::io::Read;

// `byte` is the next byte, not yet taken; at the end of the input it is a line feed. `left` bounds how many bytes may still come, this
// one among them, and is 0 at the end: it starts at a number that no run uses up, so that every loop over the stream is seen to end.
// That it doesn't go up stands in each parser's contract: it compares two values, and an invariant speaks of one.
// The bytes from `at` to `end` of the buffer come next. `failed`: a read failed since the line began.
// A buffer and its bounds, not a `BufReader`: that one is made on the heap, and where it cannot be made replay would refuse what it took.
#[derive(Drop)]
pub struct Input {
    rt: HostRuntime,
    buf: [u8; 65536],
    at: usize,
    end: usize,
    pub byte: u8,
    pub left: u64,
    pub failed: bool,
    ghost within: { end ≤ 65536 },
}

// A read that failed, on the standard error: the system's words, without its number where they are all there.
fn tell(rt: HostRuntime, e: io::Error) {
    let told = match format!(in rt.alloc(); "{e}") {
        Ok(said) => match said.split_once(" (os error ") {
            Some((words, _)) => rt.eprintln(format_args!("standard input: {words}")),
            None => rt.eprintln(format_args!("standard input: {e}")),
        },
        Err(_) => rt.eprintln(format_args!("standard input: {e}")),
    };
    let _ = told;
}

// One more decimal digit; nothing past 64 bits.
fn longer(sum: Option<u64>, digit: u8) -> Option<u64> {
    sum?.checked_mul(10)?.checked_add(digit as u64)
}

// A hexadecimal digit's value: upper case alone, where `to_digit` takes both.
fn nibble(b: u8) -> Option<u8>
    ensures { IfSome result (λ d. d < 16) }
{
    match b {
        b'0'..=b'9' => Some(b - b'0'),
        b'A'..=b'F' => Some(b - b'A' + 10),
        _ => None,
    }
}

impl Input {
    // The standard input, at its first byte.
    pub fn begin(rt: HostRuntime) -> Input
        ensures { result.left ≤ 18446744073709551614 }
    {
        let mut input = Input {
            rt,
            buf: [0u8; 65536],
            at: 0,
            end: 0,
            byte: b'\n',
            left: u64::MAX,
            failed: false,
        };
        input.next();
        input
    }

    // The end of the input.
    fn end(&mut self)
        ensures { self.new.left ≡ 0 }
    {
        self.byte = b'\n';
        self.left = 0;
    }

    // Reads once more: the first of what came is the next byte.
    fn refill(&mut self)
        ensures { self.new.left ≤ self.old.left }
    {
        let mut from = self.rt.stdin();
        match from.read(&mut self.buf) {
            Ok(0) => self.end(),
            Ok(n) => {
                self.byte = self.buf[0];
                self.at = 1;
                self.end = n;
            }
            Err(e) => {
                tell(self.rt, e);
                self.failed = true;
                self.end();
            }
        }
    }

    // Takes the next byte.
    pub fn next(&mut self)
        ensures { self.new.left ≤ self.old.left - 1 }
    {
        self.left = self.left.saturating_sub(1);
        if self.left == 0 {
            self.end();
        } else if self.at < self.end {
            self.byte = self.buf[self.at];
            self.at += 1;
        } else {
            self.refill();
        }
    }

    // Why a line does not parse whose next byte is another than it should be: the line ends, or `why`.
    fn ends_or(&self, why: Why) -> Why {
        if self.byte == b'\n' { Why::Ends } else { why }
    }

    // Takes the byte that is wanted next.
    pub fn take(&mut self, byte: u8) -> Result<(), Why>
        ensures { self.new.left ≤ self.old.left }
    {
        if self.byte != byte {
            return Err(self.ends_or(Why::Character));
        }
        self.next();
        Ok(())
    }

    // Takes the bytes of a name, also past the first that is another.
    pub fn spelled(&mut self, name: &[u8]) -> Result<(), Why>
        ensures { self.new.left ≤ self.old.left }
    {
        let mut taken = Ok(());
        for b in name {
            taken = taken.and(self.take(*b));
        }
        taken
    }

    fn digits(&mut self) -> Option<u64>
        ensures { self.new.left ≤ self.old.left }
    {
        let mut sum = Some(0);
        while 0 < self.left && self.byte.is_ascii_digit() {
            sum = longer(sum, self.byte - b'0');
            self.next();
        }
        sum
    }

    // A decimal number up to `most`.
    pub fn bare_number(&mut self, most: u64) -> Result<u64, Why>
        ensures left { self.new.left ≤ self.old.left }
        ensures fits { IfOk result (λ n. n ≤ most) }
    {
        if !self.byte.is_ascii_digit() {
            return Err(self.ends_or(Why::Number));
        }
        match self.digits() {
            Some(n) if n <= most => Ok(n),
            _ => Err(Why::Field),
        }
    }

    // A space and such a number.
    pub fn number(&mut self, most: u64) -> Result<u64, Why>
        ensures left { self.new.left ≤ self.old.left }
        ensures fits { IfOk result (λ n. n ≤ most) }
    {
        let space = self.take(b' ');
        let n = self.bare_number(most);
        space.and(n)
    }

    // Two hexadecimal digits.
    fn octet(&mut self) -> Result<u8, Why>
        ensures { self.new.left ≤ self.old.left }
    {
        let Some(high) = nibble(self.byte) else {
            return Err(Why::Hex);
        };
        self.next();
        let Some(low) = nibble(self.byte) else {
            return Err(Why::Hex);
        };
        self.next();
        Ok(high * 16 + low)
    }

    // As many bytes as there are: digits for which `to` has no room are too many.
    fn octets(&mut self, to: &mut [u8]) -> Result<usize, Why>
        ensures left { self.new.left ≤ self.old.left }
        ensures fits { IfOk result (λ n. n ≤ length to.old) }
    {
        for k in 0..to.len() {
            if nibble(self.byte).is_none() {
                return Ok(k);
            }
            to[k] = self.octet()?;
        }
        if nibble(self.byte).is_some() {
            return Err(Why::Bytes);
        }
        Ok(to.len())
    }

    // A space and bytes in hexadecimal, `-` for none: how many were put to the start of `to`.
    pub fn bytes(&mut self, to: &mut [u8]) -> Result<usize, Why>
        ensures left { self.new.left ≤ self.old.left }
        ensures fits { IfOk result (λ n. n ≤ length to.old) }
    {
        let space = self.take(b' ');
        let count = if self.byte == b'-' {
            self.next();
            Ok(0)
        } else if nibble(self.byte).is_some() {
            self.octets(to)
        } else {
            Err(self.ends_or(Why::Hex))
        };
        space.and(count)
    }

    // A word of small letters, as far as `to` has room: letters that are left over are neither a space nor the line's end.
    pub fn word<'a>(&mut self, to: &'a mut [u8; 8]) -> &'a [u8]
        ensures left { self.new.left ≤ self.old.left }
        ensures fits { length result.now ≤ 8 }
    {
        for k in 0..8 {
            if !self.byte.is_ascii_lowercase() {
                return &to[..k];
            }
            to[k] = self.byte;
            self.next();
        }
        to
    }

    // The start of the next line.
    pub fn next_line(&mut self)
        ensures { self.new.left ≤ self.old.left - 1 }
    {
        while 0 < self.left && self.byte != b'\n' {
            self.next();
        }
        self.failed = false;
        self.next();
    }

    // A line that was taken so far, where it parses and nothing is left of it; and then the start of the next.
    pub fn end_line<T: Copy>(&mut self, line: Result<T, Why>) -> Result<T, Why>
        ensures left { self.new.left ≤ self.old.left - 1 }
        ensures unread { IsTrue self.old.failed → IsErrOf result Why.Unread }
        ensures first { self.old.failed ≡ false → OnErr line (result ≡ line) }
        ensures whole { OnOk result ((result ≡ line) × (self.old.byte ≡ 10)) }
    {
        let ended = if self.failed {
            Err(Why::Unread)
        } else {
            match line {
                Ok(_) if self.byte == b' ' => Err(Why::Left),
                Ok(_) if self.byte != b'\n' => Err(Why::Character),
                _ => line,
            }
        };
        self.next_line();
        ended
    }
}
