// Words as bytes.
ghost use Rattle.std.specs.Prelude.{◌≡◌};
ghost use Rattle.words.specs.Fingerprint.{word_bytes, bytes_of};
ghost use Rattle.text.specs.Put.{Put};

use text::put;

// Each word lowest byte first.
fn word(out: &mut [u8], at: usize, w: u32) -> usize
    ensures { Put out.old at (word_bytes w) out.new result }
{
    let a = put::byte(out, at, (w % 256) as u8);
    let b = put::byte(out, a, (w / 256 % 256) as u8);
    let c = put::byte(out, b, (w / 65536 % 256) as u8);
    put::byte(out, c, (w / 16777216 % 256) as u8)
}

pub fn words(out: &mut [u8], from: usize, list: &[u32]) -> usize
    ensures { Put out.old from (bytes_of list.now) out.new result }
{
    let mut at = from;
    for w in list {
        at = word(out, at, *w);
    }
    at
}
