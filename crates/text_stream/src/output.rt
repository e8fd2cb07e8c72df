// The output: bytes, words, numbers and hexadecimal into a buffer, which is written whenever it is full.
ghost use Rattle.std.specs.Prelude.{◌≡◌, ◌≤◌};

use itoa::Buffer;

// `at` is how far the buffer is filled.
// A buffer and its fill, not a `BufWriter`: that one is made on the heap, and where it cannot be made replay would print nothing.
#[derive(Clone, Copy)]
pub struct Output {
    rt: HostRuntime,
    buf: [u8; 65536],
    pub at: usize,
    ghost filled: { at ≤ 65536 },
}

// Writes bytes to the standard output. A program has no exit status of its own, so a failed write is told on the standard error.
fn write(rt: HostRuntime, s: &[u8]) {
    if rt.stdout().write_all(s).is_err() {
        let _ = rt
            .stderr()
            .write_all(b"standard output: a write failed, answers are missing\n");
    }
}

// A hexadecimal digit: upper case, where `from_digit` gives lower.
fn digit(d: u8) -> u8 {
    match d {
        0..=9 => d + b'0',
        10..=15 => d - 10 + b'A',
        _ => b'?',
    }
}

impl Output {
    // The standard output.
    pub fn new(rt: HostRuntime) -> Output
        ensures { result.at ≡ 0 }
    {
        Output {
            rt,
            buf: [0u8; 65536],
            at: 0,
        }
    }

    // Writes what is in the buffer, and leaves it empty.
    pub fn flush(&mut self)
        ensures { self.new.at ≡ 0 }
    {
        write(self.rt, &self.buf[..self.at]);
        self.at = 0;
    }

    pub fn byte(&mut self, b: u8)
        ensures { self.new.at ≤ 65536 }
    {
        if self.at == 65536 {
            self.flush();
        }
        self.buf[self.at] = b;
        self.at += 1;
    }

    pub fn text(&mut self, s: &str)
        ensures { self.new.at ≤ 65536 }
    {
        for b in s.as_bytes() {
            self.byte(*b);
        }
    }

    pub fn decimal(&mut self, n: u64)
        ensures { self.new.at ≤ 65536 }
    {
        let mut buffer = Buffer::new();
        let digits = buffer.format(n);
        self.text(digits);
    }

    // A space and a number.
    pub fn field(&mut self, n: u64)
        ensures { self.new.at ≤ 65536 }
    {
        self.byte(b' ');
        self.decimal(n);
    }

    // Upper-case hexadecimal; `-` for no bytes.
    pub fn hex(&mut self, s: &[u8])
        ensures { self.new.at ≤ 65536 }
    {
        if s.is_empty() {
            self.byte(b'-');
        }
        for b in s {
            self.byte(digit(*b / 16));
            self.byte(digit(*b % 16));
        }
    }
}
