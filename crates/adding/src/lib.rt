// Text in lent buffers, which is added to at its end, and parts of lent slices.
#![tactic(auto)]

mod parts;
mod puts;

ghost use Rattle.std.specs.Prelude.{[], ◌∷◌, ◌≡◌, ◌-◌, ◌≤◌, length, take};

pub use parts::{first, part, within};
pub use puts::put_at;

// Text in a lent buffer, its first bytes. What goes past the buffer's end is not kept.
#[derive(Drop)]
pub struct Text<'a> {
    pub bytes: &'a mut [u8],
    pub len: usize,
    pub ghost fits: { len ≤ length bytes.now },
}

impl<'a> Text<'a> {
    ghost use Rattle.adding.specs.Added.{Filled, emptied, size_of, filled, Adds};

    // No text yet.
    pub fn new(bytes: &'a mut [u8]) -> Text<'a>
        ensures same { result.bytes.ghost_name ≡ bytes.entry.ghost_name }
        ensures text { filled result ≡ emptied (length bytes.old) }
    {
        Text { bytes, len: 0 }
    }

    // The text so far are a buffer's first bytes, up to a place or its end.
    pub fn behind(bytes: &'a mut [u8], at: usize) -> Text<'a>
        ensures there { result.bytes.ghost_name ≡ bytes.entry.ghost_name }
        ensures text { (filled result).text ≡ take at bytes.old }
        ensures left { (filled result).left ≡ length bytes.old - at }
    {
        let len = within(at, bytes);
        Text { bytes, len }
    }

    pub fn as_bytes(&self) -> &[u8]
        ensures { result.now ≡ (filled self.now).text }
    {
        &self.bytes[..self.len]
    }

    // How many bytes there is room for behind the text.
    pub fn room(&self) -> usize
        ensures { result ≡ (filled self.now).left }
    {
        self.bytes.len() - self.len
    }

    // The next text begins at the buffer's start.
    pub fn clear(&mut self)
        ensures same { self.new.bytes.ghost_name ≡ self.old.bytes.ghost_name }
        ensures text { filled self.new ≡ emptied (size_of (filled self.old)) }
    {
        self.len = 0;
    }

    pub fn put_byte(&mut self, byte: u8)
        ensures { Adds (byte ∷ []) self.old self.new }
    {
        if self.len < self.bytes.len() {
            self.bytes[self.len] = byte;
            self.len += 1;
        }
    }

    // Two bytes, for which there is one test of room.
    pub fn put_two(&mut self, two: [u8; 2])
        ensures { Adds two self.old self.new }
    {
        if self.room() < 2 {
            self.put(&two);
            return;
        }
        self.bytes[self.len] = two[0];
        self.bytes[self.len + 1] = two[1];
        self.len += 2;
    }

    pub fn put(&mut self, more: &[u8])
        ensures { Adds more.now self.old self.new }
    {
        let fits = first(more, self.room());
        let end = self.len + fits.len();
        self.bytes[self.len..end].copy_from_slice(fits);
        self.len = end;
    }
}
