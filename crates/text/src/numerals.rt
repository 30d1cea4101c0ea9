// Numbers and bytes as text, behind the text so far.
ghost use Rattle.std.specs.Prelude.{ℕ, ◌+◌, ◌*◌, ◌<◌, ◌≤◌, ◌≡◌, length};
ghost use Rattle.adding.specs.Added.{Adds, each};
ghost use Rattle.text.specs.Digits.{digit as Digits·digit, decimal, after_space, two_digits, hex};

use adding::Text;

// A whole number of at most 64 bits.
pub trait Number: Copy {
    ghost number: { Self → ℕ };

    fn wide(self) -> u64
        ensures { result ≡ number self };
}

impl Number for u64 {
    ghost number = { λ n. n };

    fn wide(self) -> u64 {
        self
    }
}

impl Number for u16 {
    ghost number = { λ n. n };

    fn wide(self) -> u64 {
        self as u64
    }
}

fn digit(n: u8) -> u8
    requires { n < 16 }
    ensures { result ≡ Digits·digit n }
{
    if n < 10 { 48 + n } else { 55 + n }
}

// A number in decimal digits.
pub fn put_number(text: &mut Text, n: u64)
    ensures { Adds (decimal n) text.old text.new }
{
    text.put(itoa::Buffer::new().format(n).as_bytes());
}

fn put_after_space(text: &mut Text, n: u64)
    ensures { Adds (after_space n) text.old text.new }
{
    text.put_byte(b' ');
    put_number(text, n);
}

// Numbers, each after a space.
pub fn put_numbers<N: Number>(text: &mut Text, list: &[N])
    ensures { Adds (each (λ n. after_space (N.number n)) list.now) text.old text.new }
{
    for n in list {
        put_after_space(text, n.wide());
    }
}

// The digits of bytes fill a slice.
fn fill_digits(out: &mut [u8], bytes: &[u8])
    requires { length out.old ≡ 2 * length bytes.now }
    ensures { out.new ≡ hex bytes.now }
{
    for (i, byte) in bytes.iter().enumerate() {
        out[2 * i] = digit(*byte / 16);
        out[2 * i + 1] = digit(*byte % 16);
    }
}

// Bytes, two hexadecimal digits each. Where there is room for all, it is tested once, and they are made where they stand.
pub fn put_hex(text: &mut Text, bytes: &[u8])
    ensures { Adds (hex bytes.now) text.old text.new }
{
    if bytes.len() <= text.room() / 2 {
        let end = text.len + 2 * bytes.len();
        fill_digits(&mut text.bytes[text.len..end], bytes);
        text.len = end;
        return;
    }
    for byte in bytes {
        text.put_two([digit(*byte / 16), digit(*byte % 16)]);
    }
}
