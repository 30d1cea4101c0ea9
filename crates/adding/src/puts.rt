// What is put behind a slice's first bytes.
ghost use Rattle.std.specs.Prelude.{◌≡◌, length, take};
ghost use Rattle.adding.specs.Slices.{added};

use crate::Text;

// Puts more behind a slice's first bytes, as far as the slice goes, and answers where the text then ends.
pub fn put_at(out: &mut [u8], at: usize, more: &[u8]) -> usize
    ensures text { take result out.new ≡ added out.old at more.now }
    ensures end { result ≡ length (added out.old at more.now) }
    ensures size { length out.new ≡ length out.old }
{
    let mut text = Text::behind(out, at);
    text.put(more);
    text.as_bytes().len()
}
